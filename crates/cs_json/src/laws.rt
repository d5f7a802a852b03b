ghost use Rattle.std.specs.Prelude.{◌≡◌, ℕ, List, Ok, Some};
ghost use Rattle.std.specs.Str.{IsUtf8};
ghost use Rattle.serde_json.specs.Read.{read};
ghost use Rattle.cs_records.specs.declared.records.Record.{Record};
ghost use Rattle.cs_json_reading.specs.Line.{Spells, bytes_reading};
ghost use Rattle.cs_json_reading.specs.Standing.{CanStand};
ghost use Rattle.cs_json.specs.Written.{record_data, IsKept};

use cs_json_reading::line_readings_are_spellings;
use cs_types::{written_stamps_read_back, written_values_read_back};

/// A law: a text that JSON reads as the written tree of a record stands for the record, and is read
/// as it.
pub(crate) fn written_trees_read_back()
    ensures read { (r : Record) (line : List ℕ) → IsKept r → CanStand r → IsUtf8 line → read line ≡ Some (record_data r) → bytes_reading line ≡ Ok r }
    ensures spelled { (r : Record) (line : List ℕ) → IsKept r → CanStand r → IsUtf8 line → read line ≡ Some (record_data r) → Spells r line }
{
    written_values_read_back();
    written_stamps_read_back();
    line_readings_are_spellings();
}
