ghost use Rattle.std.specs.Prelude.{◌≡◌, ◌++◌, [], ◌∷◌, List, true, false, IfOk};
ghost use Rattle.cs_schedule.specs.declared.entry.Entry.{Entry as TheEntry};
ghost use Rattle.cs_schedule.specs.declared.entry.Entry.TheVariants.{Begin};
ghost use Rattle.cs_schedule.specs.Follows.{IsBoardOf, PlannedIsNext, NextIsFolded, MarkIsOfEntries, MarkIsWithin, BatchKeepsConsistent, NoneIsOrphan, LeaseIsNoEntry, GivingBackIsNoEntry, FreshIsNoEntry, LeasedRowMayCome};
ghost use Rattle.cs_schedule.specs.Rows.{Folds};
ghost use Rattle.cs_schedule.specs.Spelling.{IsInFormat, PayloadsDiffer};

use crate::board::Board;
use crate::entry::Entry;
use crate::follow::may_follow;
use cs_types::{Duplicate, Memory, Window};
use std::alloc::Global;

impl Board {
    /// The board of a journal that begins this window.
    pub fn begin(alloc: Global, window: &Window) -> Result<Board, Memory>
        requires { IsInFormat (Begin window.now) }
        ensures window { IfOk result (λ b. b.window ≡ window.now) }
        ensures of { IfOk result (λ b. IsBoardOf (Begin window.now ∷ []) b) }
    {
        let window = window.copy()?;
        Ok(Board::empty(alloc, window))
    }

    /// Takes one entry more in, where it may follow those that made the board; else the board stays
    /// as it is.
    pub fn fold_entry(&mut self, alloc: Global, entry: &Entry) -> Result<bool, Memory>
        requires { IsInFormat entry.now }
        ensures window { self.new.window ≡ self.old.window }
        ensures folded { IfOk result (λ fits. fits ≡ true → (es : List TheEntry) → IsBoardOf es self.old → IsBoardOf (es ++ entry.now ∷ []) self.new) }
        ensures refused { IfOk result (λ fits. fits ≡ false → (es : List TheEntry) → IsBoardOf es self.old → Folds self.old.window (es ++ entry.now ∷ []) → ⊥) }
    {
        if !may_follow(self.rows(), self.window().end, entry) {
            return Ok(false);
        }
        self.add(alloc, entry)?;
        Ok(true)
    }
}

/// What holds of the board of entries: a plan of a batch that may be added may be taken in, the board
/// then is that of one entry more, and its low watermark is that of the rows of the entries.
pub fn boards_are_of_entries()
    ensures next { PlannedIsNext }
    ensures folded { NextIsFolded }
    ensures mark { MarkIsOfEntries }
    ensures within { MarkIsWithin }
{}

/// What holds of the board of consistent entries: the entry of a faithful batch keeps them
/// consistent, and while nobody reads a row that is not finished, one may be read.
pub fn boards_stay_consistent()
    ensures batch { BatchKeepsConsistent }
    ensures orphan { NoneIsOrphan }
{}

/// What holds of leases: they leave the board that of its entries, and a faithful batch of a leased
/// row may come.
pub fn leases_are_no_entries()
    ensures lease { LeaseIsNoEntry }
    ensures back { GivingBackIsNoEntry }
    ensures fresh { FreshIsNoEntry }
    ensures comes { LeasedRowMayCome }
{}

/// A law: two entries of the grammar with one payload are one entry.
pub fn payloads_differ()
    ensures { PayloadsDiffer }
{}
