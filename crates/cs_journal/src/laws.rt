//! What the definition of a journal's payloads says, said by what stands in the file.
ghost use Rattle.std.specs.Prelude.{◌≡◌, ℕ, List, Ok, Err};
ghost use Rattle.cs_journal.specs.declared.journal.Stored.{Stored};
ghost use Rattle.cs_journal.specs.Rows.{stored_of, IsJournalOf, HasBrokenGate};

/// The payloads that are read from a file are those of its entries, and each file of entries with a
/// closed gate behind them is read so.
pub fn payloads_are_those_of_the_entries()
    ensures only { (bytes : List ℕ) (stored : List Stored) → stored_of bytes ≡ Ok stored → IsJournalOf bytes stored }
    ensures all { (bytes : List ℕ) (stored : List Stored) → IsJournalOf bytes stored → stored_of bytes ≡ Ok stored }
{}

/// A file is refused at a place just where an open gate stands there, behind whole entries alone, that
/// has no whole entry behind it.
pub fn a_broken_gate_has_no_whole_entry()
    ensures only { (bytes : List ℕ) (place : ℕ) → stored_of bytes ≡ Err place → HasBrokenGate bytes place }
    ensures all { (bytes : List ℕ) (place : ℕ) → HasBrokenGate bytes place → stored_of bytes ≡ Err place }
{}
