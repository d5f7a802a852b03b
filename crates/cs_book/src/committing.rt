//! An entry is written, and its rows are taken in.
ghost use Rattle.std.specs.Prelude.{◌≡◌, ◌≤◌, ◌⊎◌, [], List, Some, None, true, false, IfSome, OnOk, OnErr, IsErrOf};
ghost use Rattle.std.specs.Io.KnownBytes.{Keeps};
ghost use Rattle.cs_device.specs.Causes.{Rose};
ghost use Rattle.cs_device.specs.Crash.{CrashesLeave, LeavesOnly};
ghost use Rattle.cs_schedule.specs.declared.entry.Entry.{Entry};
ghost use Rattle.cs_schedule.specs.Follows.{IsNextOf};
ghost use Rattle.cs_schedule.specs.Update.{applied};
ghost use Rattle.cs_book.specs.declared.fault.CommitFault.TheVariants as faults;
ghost use Rattle.cs_book.specs.Book.{IsRunning, AreEntriesOf, IsOut, StillTells, rows_back, opening_back};
ghost use Rattle.cs_book.specs.Entries.{HoldsEntries, HoldsBeforeOrAfter, with_entry, gate_after};
ghost use Rattle.cs_book.specs.Planned.{IsPlanFor, AreAdditions, IsEntryFor};

use crate::adding::{Addition, BookPlan};
use crate::book::Book;
use crate::fault::CommitFault;
use crate::lease::Lease;
use crate::rows::{is_still_opening, take_in};
use crate::writing::write;
use cs_device::Disk;
use cs_schedule::Plan;
use cs_text::texts_are_by_entries;
use cs_types::Token;

impl<J: Disk, O: Disk> Book<J, O> {
    /// Writes what a plan adds, takes its entry in, and gives the lease of its token back.
    fn put(
        &mut self,
        token: &Option<Token>,
        plan: Plan,
        addition: Addition,
        caught_up: bool,
    ) -> Result<(), CommitFault>
        requires running { IsRunning self.old }
        requires out { IsOut self.old.board self.old.is_opening token.now }
        requires next { IsNextOf self.old.board plan }
        requires of { IsEntryFor token.now plan.entry }
        requires additions { AreAdditions self.old.board self.old.marked self.old.journal.gate plan.entry (Some addition) }
        ensures entries { OnOk result ((es : List Entry) → AreEntriesOf J.seen O.seen self.old es → AreEntriesOf J.seen O.seen self.new (with_entry es plan.entry)) }
        // What told its bytes tells bytes still.
        ensures still { OnOk result (StillTells (J.seen self.old.journal.disk) (J.seen self.new.journal.disk) × StillTells (O.seen self.old.output) (O.seen self.new.output)) }
        ensures running { OnOk result (IsRunning self.new) }
        ensures rows { OnOk result (self.new.board.rows ≡ rows_back token.now caught_up (applied self.old.board.window.start self.old.board.rows plan.entry)) }
        ensures gate { OnOk result (self.new.journal.gate ≡ gate_after self.old.journal.gate plan.entry) }
        ensures no_text { addition.text ≡ [] → self.new.output ≡ self.old.output }
        ensures any_moment { IfSome (J.seen self.old.journal.disk) (λ bytes. (es : List Entry) → HoldsEntries bytes es → CrashesLeave (HoldsBeforeOrAfter es plan.entry) (J.crash self.old.journal.disk) (J.crash self.new.journal.disk)) }
        ensures refused { OnErr result (self.new.board.rows ≡ rows_back token.now caught_up self.old.board.rows) }
        ensures window { self.new.board.window ≡ self.old.board.window }
        ensures is_opening { self.new.is_opening ≡ opening_back token.now self.old.is_opening }
        ensures journal_fault { IsErrOf result faults.JournalFault → (self.new.journal.failed ≡ true) × Rose (J.faults self.old.journal.disk) (J.faults self.new.journal.disk) }
        ensures output_fault { IsErrOf result faults.OutputFault → (self.new.journal.failed ≡ false) × (self.new.output_failed ≡ true) × Rose (O.faults self.old.output) (O.faults self.new.output) }
        ensures objects { (J.same self.old.journal.disk self.new.journal.disk) × (O.same self.old.output self.new.output) }
        ensures later { (J.faults self.old.journal.disk ≤ J.faults self.new.journal.disk) × (O.faults self.old.output ≤ O.faults self.new.output) }
        ensures cause_ok { OnOk result ((J.faults self.new.journal.disk ≡ J.faults self.old.journal.disk) × (O.faults self.new.output ≡ O.faults self.old.output)) }
    {
        texts_are_by_entries();
        let text = addition.text.as_str().as_bytes();
        match write(&mut self.journal, &mut self.output, &addition.framed, text) {
            Ok(()) => {}
            Err(CommitFault::JournalFault) => {
                self.give_back(token, caught_up);
                return Err(CommitFault::JournalFault);
            }
            Err(CommitFault::OutputFault) => {
                self.output_failed = true;
                self.give_back(token, caught_up);
                return Err(CommitFault::OutputFault);
            }
        }
        self.marked = addition.marked;
        take_in(&mut self.board, plan, token, caught_up);
        self.is_opening = is_still_opening(token, self.is_opening);
        Ok(())
    }

    /// Puts the entry of a plan into the journal, appends what it adds to the output, folds it into
    /// the rows and gives the lease back; nothing is written where the plan has no entry, and the
    /// output is not called where the entry adds no lines. It takes no memory. The plan is that of
    /// `reserve` for this lease, and the book as it was then.
    ///
    /// A crash at any moment of the call leaves a journal with the entries from before it, or with
    /// these and the one. `JournalFault`, `OutputFault`: a call of that disk failed, now or earlier;
    /// the lease is given back, and the book answers the same until it is opened again.
    pub fn commit(&mut self, lease: Lease, plan: BookPlan) -> Result<(), CommitFault>
        requires out { IsOut self.old.board self.old.is_opening lease.args.token }
        requires plan { IsPlanFor self.old lease.args.token plan }
        // With Ok the entries are those from before, and behind them the plan's, where it has one.
        ensures entries { OnOk result ((es : List Entry) → AreEntriesOf J.seen O.seen self.old es → AreEntriesOf J.seen O.seen self.new (with_entry es plan.plan.entry)) }
        // What told its bytes tells bytes still.
        ensures still { OnOk result (StillTells (J.seen self.old.journal.disk) (J.seen self.new.journal.disk) × StillTells (O.seen self.old.output) (O.seen self.new.output)) }
        ensures running { OnOk result (IsRunning self.new) }
        ensures rows { OnOk result (self.new.board.rows ≡ rows_back lease.args.token plan.caught_up (applied self.old.board.window.start self.old.board.rows plan.plan.entry)) }
        ensures gate { OnOk result (self.new.journal.gate ≡ gate_after self.old.journal.gate plan.plan.entry) }
        ensures no_entry { plan.plan.entry ≡ None → (self.new.journal ≡ self.old.journal) × (self.new.output ≡ self.old.output) }
        // An entry that adds no text costs the output no call.
        ensures no_text { IfSome plan.addition (λ a. a.text ≡ [] → self.new.output ≡ self.old.output) }
        ensures any_moment { IsRunning self.old → IfSome (J.seen self.old.journal.disk) (λ bytes. (es : List Entry) → HoldsEntries bytes es → CrashesLeave (HoldsBeforeOrAfter es plan.plan.entry) (J.crash self.old.journal.disk) (J.crash self.new.journal.disk)) }
        ensures refused { OnErr result (self.new.board.rows ≡ rows_back lease.args.token plan.caught_up self.old.board.rows) }
        ensures window { self.new.board.window ≡ self.old.board.window }
        ensures is_opening { self.new.is_opening ≡ opening_back lease.args.token self.old.is_opening }
        // A book that has failed answers so at once, and touches no disk.
        ensures journal_failed { self.old.journal.failed ≡ true → IsErrOf result faults.JournalFault × (self.new.journal ≡ self.old.journal) × (self.new.output ≡ self.old.output) }
        ensures output_failed { self.old.journal.failed ≡ false → self.old.output_failed ≡ true → IsErrOf result faults.OutputFault × (self.new.journal ≡ self.old.journal) × (self.new.output ≡ self.old.output) }
        // And once it answers so, it has failed.
        ensures journal_stays { IsErrOf result faults.JournalFault → self.new.journal.failed ≡ true }
        ensures output_stays { IsErrOf result faults.OutputFault → (self.new.journal.failed ≡ false) × (self.new.output_failed ≡ true) }
        ensures objects { (J.same self.old.journal.disk self.new.journal.disk) × (O.same self.old.output self.new.output) }
        ensures later { (J.faults self.old.journal.disk ≤ J.faults self.new.journal.disk) × (O.faults self.old.output ≤ O.faults self.new.output) }
        ensures cause_journal { IsErrOf result faults.JournalFault → (self.old.journal.failed ≡ true) ⊎ Rose (J.faults self.old.journal.disk) (J.faults self.new.journal.disk) }
        ensures cause_output { IsErrOf result faults.OutputFault → (self.old.output_failed ≡ true) ⊎ Rose (O.faults self.old.output) (O.faults self.new.output) }
        ensures cause_ok { OnOk result ((J.faults self.new.journal.disk ≡ J.faults self.old.journal.disk) × (O.faults self.new.output ≡ O.faults self.old.output)) }
    {
        let BookPlan {
            plan,
            addition,
            caught_up,
        } = plan;
        if self.journal.has_failed() {
            self.give_back(&lease.args.token, caught_up);
            return Err(CommitFault::JournalFault);
        }
        if self.output_failed {
            self.give_back(&lease.args.token, caught_up);
            return Err(CommitFault::OutputFault);
        }
        let _gate = self.journal.gate();
        let Some(addition) = addition else {
            self.give_back(&lease.args.token, caught_up);
            return Ok(());
        };
        self.put(&lease.args.token, plan, addition, caught_up)
    }

    /// Makes the output durable. The faults are those of `commit`.
    pub fn finish(&mut self) -> Result<(), CommitFault>
        ensures durable { OnOk result (IfSome (O.seen self.old.output) (LeavesOnly (O.crash self.new.output))) }
        ensures kept { Keeps (O.seen self.old.output) (O.seen self.new.output) }
        ensures journal { self.new.journal ≡ self.old.journal }
        ensures board { self.new.board ≡ self.old.board }
        ensures is_opening { self.new.is_opening ≡ self.old.is_opening }
        ensures running { OnOk result (IsRunning self.new) }
        ensures entries { (es : List Entry) → AreEntriesOf J.seen O.seen self.old es → AreEntriesOf J.seen O.seen self.new es }
        ensures journal_failed { self.old.journal.failed ≡ true → IsErrOf result faults.JournalFault × (self.new ≡ self.old) }
        ensures output_failed { self.old.journal.failed ≡ false → self.old.output_failed ≡ true → IsErrOf result faults.OutputFault × (self.new ≡ self.old) }
        ensures journal_stays { IsErrOf result faults.JournalFault → self.old.journal.failed ≡ true }
        ensures output_stays { IsErrOf result faults.OutputFault → self.new.output_failed ≡ true }
        ensures object { O.same self.old.output self.new.output }
        ensures later { O.faults self.old.output ≤ O.faults self.new.output }
        ensures cause_output { IsErrOf result faults.OutputFault → (self.old.output_failed ≡ true) ⊎ Rose (O.faults self.old.output) (O.faults self.new.output) }
        ensures cause_ok { OnOk result (O.faults self.new.output ≡ O.faults self.old.output) }
    {
        if self.journal.has_failed() {
            return Err(CommitFault::JournalFault);
        }
        if self.output_failed {
            return Err(CommitFault::OutputFault);
        }
        let Ok(()) = self.output.sync() else {
            self.output_failed = true;
            return Err(CommitFault::OutputFault);
        };
        Ok(())
    }
}
