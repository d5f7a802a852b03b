ghost use Rattle.std.specs.Prelude.{◌≡◌, ◌≤◌, ◌⊎◌, ◌+◌, ℕ, List, Option, Some, None, true, false, length, IfOk, IfSome, OnOk, IsErrOf, MatchOption};
ghost use Rattle.std.specs.Io.KnownBytes.{Keeps};
ghost use Rattle.cs_device.specs.Causes.{Rose};
ghost use Rattle.cs_device.specs.Crash.{CrashesLeave, LeavesOnly};
ghost use Rattle.cs_link.specs.declared.feed.Feed.{Feed};
ghost use Rattle.cs_schedule.specs.declared.entry.Entry.{Entry};
ghost use Rattle.cs_schedule.specs.Board.{IsOrdered};
ghost use Rattle.cs_schedule.specs.Consistent.{IsConsistent};
ghost use Rattle.cs_schedule.specs.Follows.{IsBoardOf, IsFollowed, MayCome};
ghost use Rattle.cs_schedule.specs.Spelling.{payload};
ghost use Rattle.cs_schedule.specs.Update.{applied};
ghost use Rattle.cs_journal.specs.State.{IsSettled};
ghost use Rattle.cs_book.specs.declared.fault.CommitFault.TheVariants as faults;
ghost use Rattle.cs_book.specs.Book.{IsRunning, AreEntriesOf, IsSound, IsOut, rows_back, opening_back};
ghost use Rattle.cs_book.specs.Entries.{HoldsEntries, HoldsBeforeOrAfter, with_entry};
ghost use Rattle.cs_book.specs.Planned.{IsFit, IsPlanFor, Reserves, AreAdditions, is_caught_up};

use crate::adding::BookPlan;
use crate::fault::ReserveFault;
use crate::format::can_be_written;
use crate::lease::Lease;
use crate::planning::{addition_for, plan_of};
use crate::rows::{give_row_back, is_caught_up, is_still_opening};
use cs_device::Disk;
use cs_journal::Journal;
use cs_link::Batch;
use cs_schedule::{Board, boards_stay_consistent};
use cs_types::Token;
use std::alloc::Global;
use std::marker::Model;

/// A journal of entries, the board of their rows, and the output that tells them.
#[derive(Drop)]
pub struct Book<J: Disk, O: Disk> {
    pub(crate) journal: Journal<J>,
    pub(crate) output: O,
    pub(crate) board: Board,
    /// The first moment behind the last watermark of the output.
    pub(crate) marked: u64,
    /// Whether somebody lists the parts at the window's start.
    pub(crate) is_opening: bool,
    pub(crate) output_failed: bool,
}

impl<J: Disk, O: Disk> Model for Book<J, O> {
    ghost use Rattle.std.specs.Prelude.{◌≡◌, ◌≤◌, false, List};
    ghost use Rattle.cs_schedule.specs.declared.entry.Entry.{Entry};
    ghost use Rattle.cs_book.specs.Book.{BookState, IsSound, AreOf};

    ghost Value = { BookState J O };

    ghost view = { λ b. record { journal = b.journal; output = b.output; board = b.board; marked = b.marked; is_opening = b.is_opening; output_failed = b.output_failed } };

    ghost invariant = { λ b. (1 ≤ b.marked) × IsSound b.board b.is_opening × (b.journal.failed ≡ false → b.output_failed ≡ false → (es : List Entry) × AreOf (J.seen b.journal.disk) (O.seen b.output) b.board b.marked es) };
}

impl<J: Disk, O: Disk> Book<J, O> {
    /// Judges the batch of a lease that is out against the rows as they are, and takes all the memory
    /// that `commit` needs; nothing is written. Refused in this order: `Breach`: the server answered
    /// what no server may answer, as the rows show. `Full`: with the entry the journal would have
    /// this many bytes, more than its limit. `Memory` is want of memory; it also stands for a text or
    /// a list that is too long for any entry.
    pub fn reserve(
        &self,
        alloc: Global,
        lease: &Lease,
        batch: &Batch,
    ) -> Result<BookPlan, ReserveFault>
        requires out { IsOut self.now.board self.now.is_opening lease.now.args.token }
        requires token { batch.now.token ≡ lease.now.args.token }
        requires fit { IsFit self.now.board.window batch.now }
        ensures plan { IfOk result (IsPlanFor self.now lease.now.args.token) }
        ensures exact { Reserves self.now batch.now result }
        ensures caught_up { IfOk result (λ p. p.caught_up ≡ is_caught_up batch.now.ending) }
        // The entry of a faithful batch keeps consistent entries so.
        ensures consistent { IfOk result (λ p. (f : Feed) (es : List Entry) → IsFollowed f self.now.board.window → MayCome f self.now.board batch.now → IsBoardOf es self.now.board → IsConsistent f self.now.board.window es → IsConsistent f self.now.board.window (with_entry es p.plan.entry)) }
    {
        boards_stay_consistent();
        let _end = self.board.window().end.us();
        if !can_be_written(batch) {
            return Err(ReserveFault::Memory);
        }
        let plan = plan_of(alloc, &self.board, batch)?;
        let gate = self.journal.gate();
        let addition = addition_for(alloc, &self.board, &plan, gate, self.marked)?;
        Ok(BookPlan {
            plan,
            addition,
            caught_up: is_caught_up(batch.ending),
        })
    }

    /// Gives the lease of a token back.
    pub(crate) fn give_back(&mut self, token: &Option<Token>, caught_up: bool)
        ensures journal { self.new.journal ≡ self.old.journal }
        ensures output { self.new.output ≡ self.old.output }
        ensures marked { self.new.marked ≡ self.old.marked }
        ensures output_failed { self.new.output_failed ≡ self.old.output_failed }
        ensures window { self.new.board.window ≡ self.old.board.window }
        ensures rows { self.new.board.rows ≡ rows_back token.now caught_up self.old.board.rows }
        ensures is_opening { self.new.is_opening ≡ opening_back token.now self.old.is_opening }
        ensures entries { (es : List Entry) → AreEntriesOf J.seen O.seen self.old es → AreEntriesOf J.seen O.seen self.new es }
    {
        give_row_back(&mut self.board, token, caught_up);
        self.is_opening = is_still_opening(token, self.is_opening);
    }
}
