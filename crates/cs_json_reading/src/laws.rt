ghost use Rattle.std.specs.Prelude.{◌≡◌, ◌↔◌, ℕ, List, Ok, Some};
ghost use Rattle.cs_types.specs.Stamp.{Spells as SpellsStamp, stamp_reading};
ghost use Rattle.cs_records.specs.declared.records.Record.{Record};
ghost use Rattle.cs_json_reading.specs.Line.{Spells, bytes_reading};

use cs_types::readings_are_spellings;

/// A law: bytes of any length are read as a record exactly where they stand for it.
pub fn line_readings_are_spellings()
    ensures { (line : List ℕ) (r : Record) → (bytes_reading line ≡ Ok r) ↔ Spells r line }
{}

/// A law: a text is read as a stamp exactly where it is one of the stamp's texts.
pub fn stamp_readings_are_spellings()
    ensures { (text : List ℕ) (us : ℕ) → (stamp_reading text ≡ Some us) ↔ SpellsStamp text us }
{
    readings_are_spellings();
}
