//! Leases of a book.
ghost use Rattle.std.specs.Prelude.{◌≡◌, List, map, false, IfOk, OnErr};
ghost use Rattle.cs_link.specs.declared.feed.Feed.{Feed};
ghost use Rattle.cs_schedule.specs.declared.entry.Entry.{Entry};
ghost use Rattle.cs_schedule.specs.Board.{fresh};
ghost use Rattle.cs_schedule.specs.Consistent.{IsConsistent};
ghost use Rattle.cs_schedule.specs.Follows.{IsBoardOf, IsFollowed};
ghost use Rattle.cs_book.specs.Book.{AreEntriesOf, IsOut, rows_back, opening_back};
ghost use Rattle.cs_book.specs.Claim.{IsNext, opening_after, HasLeaseOut, IsNoOrphan};

use crate::book::Book;
use crate::claim::{Claim, is_opening_after, take_turn};
use crate::lease::Lease;
use cs_device::Disk;
use cs_schedule::{boards_stay_consistent, leases_are_no_entries};
use cs_types::Memory;
use std::alloc::Global;

impl<J: Disk, O: Disk> Book<J, O> {
    /// Leases what is to be done next: of rows that may be read equally well the one at `order`
    /// modulo their number. Neither disk is touched. `Memory` is want of memory, and then nothing is
    /// leased.
    pub fn claim(&mut self, alloc: Global, order: u64) -> Result<Claim, Memory>
        ensures exact { IfOk result (IsNext self.old.board self.new.board self.old.is_opening order) }
        ensures is_opening { IfOk result (λ claim. self.new.is_opening ≡ opening_after claim self.old.is_opening) }
        ensures out { IfOk result (HasLeaseOut self.new.board self.new.is_opening) }
        ensures refused { OnErr result (self.new ≡ self.old) }
        ensures disks { (self.new.journal ≡ self.old.journal) × (self.new.output ≡ self.old.output) }
        ensures rest { (self.new.marked ≡ self.old.marked) × (self.new.output_failed ≡ self.old.output_failed) }
        ensures entries { (es : List Entry) → AreEntriesOf J.seen O.seen self.old es → AreEntriesOf J.seen O.seen self.new es }
        // Over consistent entries no row waits in vain.
        ensures never_orphan { (f : Feed) (es : List Entry) → IsFollowed f self.old.board.window → IsBoardOf es self.old.board → IsConsistent f self.old.board.window es → IfOk result IsNoOrphan }
    {
        boards_stay_consistent();
        leases_are_no_entries();
        let _rows = self.board.rows();
        let claim = take_turn(alloc, &mut self.board, self.is_opening, order)?;
        self.is_opening = is_opening_after(&claim, self.is_opening);
        Ok(claim)
    }

    /// Gives a lease back, of which nothing is committed; where it is not out nothing changes. It
    /// takes no memory.
    pub fn release(&mut self, lease: Lease)
        ensures disks { (self.new.journal ≡ self.old.journal) × (self.new.output ≡ self.old.output) }
        ensures rest { (self.new.marked ≡ self.old.marked) × (self.new.output_failed ≡ self.old.output_failed) }
        ensures window { self.new.board.window ≡ self.old.board.window }
        ensures rows { self.new.board.rows ≡ rows_back lease.args.token false self.old.board.rows }
        ensures is_opening { self.new.is_opening ≡ opening_back lease.args.token self.old.is_opening }
        ensures back { IsOut self.new.board self.new.is_opening lease.args.token → ⊥ }
        ensures untouched { (IsOut self.old.board self.old.is_opening lease.args.token → ⊥) → (self.new.board.rows ≡ self.old.board.rows) × (self.new.is_opening ≡ self.old.is_opening) }
        ensures entries { (es : List Entry) → AreEntriesOf J.seen O.seen self.old es → AreEntriesOf J.seen O.seen self.new es }
    {
        self.give_back(&lease.args.token, false);
    }

    /// Nothing is leased any more, and no row was tried. It takes no memory.
    pub fn fresh(&mut self)
        ensures disks { (self.new.journal ≡ self.old.journal) × (self.new.output ≡ self.old.output) }
        ensures rest { (self.new.marked ≡ self.old.marked) × (self.new.output_failed ≡ self.old.output_failed) }
        ensures window { self.new.board.window ≡ self.old.board.window }
        ensures rows { self.new.board.rows ≡ map fresh self.old.board.rows }
        ensures is_opening { self.new.is_opening ≡ false }
        ensures entries { (es : List Entry) → AreEntriesOf J.seen O.seen self.old es → AreEntriesOf J.seen O.seen self.new es }
    {
        leases_are_no_entries();
        self.board.fresh();
        self.is_opening = false;
    }
}
