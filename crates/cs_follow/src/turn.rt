//! One turn: a READ that is due, and what becomes of its batch.
ghost use Rattle.std.specs.Prelude.{◌≡◌, ◌≢◌, ◌≤◌, ℕ, List, IfSome, map};
ghost use Rattle.cs_schedule.specs.Board.{fresh};
ghost use Rattle.cs_device.specs.Causes.{Rose as DiskRose};
ghost use Rattle.cs_device.specs.Crash.{CrashesLeave};
ghost use Rattle.cs_link.specs.declared.feed.Feed.{Feed};
ghost use Rattle.cs_link.specs.Causes.{Rose};
ghost use Rattle.cs_link.specs.Honest.{IsHonestFor};
ghost use Rattle.cs_link.specs.Pace.{Grows};
ghost use Rattle.cs_fetch.specs.Laws.{IsWellFormed};
ghost use Rattle.cs_schedule.specs.declared.entry.Entry.{Entry};
ghost use Rattle.cs_fetch.specs.declared.fault.FetchFault.TheVariants as fetch;
ghost use Rattle.cs_follow.specs.declared.outcome.Outcome.TheVariants as outcomes;
ghost use Rattle.cs_follow.specs.declared.turn.Turn.TheVariants as turns;
ghost use Rattle.cs_book.specs.Book.{IsRunning, AreEntriesOf, StillTells};
ghost use Rattle.cs_follow.specs.Still.{BehindTurn, WhereOn};
ghost use Rattle.cs_follow.specs.Carry.{CanCarry, IsCarrying};
ghost use Rattle.cs_follow.specs.Due.{at_rest};
ghost use Rattle.cs_book.specs.Planned.{is_caught_up};
ghost use Rattle.cs_follow.specs.Turn.{refused_as, ToldAs, NotReservedAs, FailedAs, IsIdle, IsHeld, Settles, HoldsOldOrPlanned, IsTurnOver};
ghost use Rattle.cs_follow.specs.Pauses.{IsGettingOn, GetsOn, IsFewest, OverHonest, Moves};
ghost use Rattle.cs_follow.specs.Reads.{HasRead, StartsAtRow, NotBack};

use crate::outcome::{Outcome, Pace};
use cs_book::{Book, Claim, CommitFault, Lease, ReserveFault};
use cs_device::Disk;
use cs_fetch::{FetchFault, fetch};
use cs_link::{Batch, Breach, Ending, Limits, Link, ReadRefusal};
use cs_room::{entries_are_carried, reads_start_at_low, something_is_planned};
use cs_schedule::{
    boards_are_of_entries, boards_stay_consistent, leases_are_no_entries, rows_stay_right,
};
use cs_types::{Duplicate, Memory, Token};
use std::alloc::Global;

/// What becomes of a turn.
#[derive(Debug, Drop)]
pub(crate) enum Turn {
    /// There is no other.
    Stops(Outcome),
    /// The READ caught up with the present moment.
    CaughtUp,
    /// Something was added.
    On,
}

fn has_caught_up(ending: Ending) -> bool
    ensures { result ≡ is_caught_up ending }
{
    match ending {
        Ending::Finished => false,
        Ending::CaughtUp(_) => true,
        Ending::Cut => false,
        Ending::Full => false,
    }
}

/// The outcome by which a refusal of a READ is told.
fn refused(refusal: ReadRefusal) -> Outcome
    ensures { refused_as refusal result }
{
    match refusal {
        ReadRefusal::StartTooOld(earliest) => Outcome::RetentionPassed(earliest),
        other => Outcome::Refused(other),
    }
}

/// The outcome by which it is told that too many records of the READ of a token added nothing.
fn stalled(token: &Option<Token>, count: u32) -> Outcome
    ensures { ToldAs token.now (fetch.Stalled count) result }
{
    let Some(token) = token else {
        return Outcome::Stalled(None, count);
    };
    match token.copy() {
        Ok(token) => Outcome::Stalled(Some(token), count),
        Err(Memory) => Outcome::Memory,
    }
}

/// The outcome by which a fault of the READ of a token is told.
fn outcome_of(fault: FetchFault, token: &Option<Token>) -> Outcome
    ensures { ToldAs token.now fault result }
{
    match fault {
        FetchFault::LinkFault => Outcome::LinkFault,
        FetchFault::Refused(refusal) => refused(refusal),
        FetchFault::Breach(breach) => Outcome::Breach(breach),
        FetchFault::Stalled(count) => stalled(token, count),
        FetchFault::Memory => Outcome::Memory,
    }
}

/// The outcome by which it is told that nothing was reserved.
fn not_reserved(fault: ReserveFault) -> Outcome
    ensures { NotReservedAs fault result }
{
    match fault {
        ReserveFault::Breach(breach) => Outcome::Breach(breach),
        ReserveFault::Full(length) => Outcome::Full(length),
        ReserveFault::Memory => Outcome::Memory,
    }
}

/// The outcome by which a fault of a disk is told.
pub(crate) fn failed(fault: CommitFault) -> Outcome
    ensures { FailedAs fault result }
{
    match fault {
        CommitFault::JournalFault => Outcome::JournalFault,
        CommitFault::OutputFault => Outcome::OutputFault,
    }
}

/// Takes the batch of a lease into the book.
fn settle<J: Disk, O: Disk>(
    alloc: Global,
    book: &mut Book<J, O>,
    lease: Lease,
    batch: &Batch,
) -> Turn
    requires running { IsRunning book.old }
    requires held { IsHeld book.old lease }
    requires well { IsWellFormed lease.args lease.known batch.now }
    requires grows { Grows lease.known batch.now }
    ensures window { book.new.board.window ≡ book.old.board.window }
    ensures settles { (es : List Entry) → AreEntriesOf J.seen O.seen book.old es → Settles J.seen O.seen (DiskRose (J.faults book.old.journal.disk) (J.faults book.new.journal.disk)) (DiskRose (O.faults book.old.output) (O.faults book.new.output)) book.old book.new es batch.now result }
    ensures crashes { (es : List Entry) → AreEntriesOf J.seen O.seen book.old es → IfSome (J.seen book.old.journal.disk) (λ _. CrashesLeave (HoldsOldOrPlanned (at_rest book.old.board) batch.now es) (J.crash book.old.journal.disk) (J.crash book.new.journal.disk)) }
    ensures still { BehindTurn result (StillTells (J.seen book.old.journal.disk) (J.seen book.new.journal.disk) × StillTells (O.seen book.old.output) (O.seen book.new.output)) }
    ensures moves { Moves book.old.board lease batch.now result book.new.board.rows }
    ensures objects { (J.same book.old.journal.disk book.new.journal.disk) × (O.same book.old.output book.new.output) }
    ensures later { (J.faults book.old.journal.disk ≤ J.faults book.new.journal.disk) × (O.faults book.old.output ≤ O.faults book.new.output) }
{
    leases_are_no_entries();
    boards_are_of_entries();
    book.settled();
    let _start = book.board().window().start.us();
    let plan = match book.reserve(alloc, &lease, batch) {
        Ok(plan) => plan,
        Err(fault) => {
            book.release(lease);
            book.settled();
            return Turn::Stops(not_reserved(fault));
        }
    };
    match book.commit(lease, plan) {
        Ok(()) => {}
        Err(fault) => return Turn::Stops(failed(fault)),
    }
    book.settled();
    if has_caught_up(batch.ending) {
        return Turn::CaughtUp;
    }
    Turn::On
}

/// Makes the READ of a lease, and takes its batch into the book.
fn read_on<K: Link, J: Disk, O: Disk>(
    alloc: Global,
    book: &mut Book<J, O>,
    link: &mut K,
    lease: Lease,
    limits: &Limits,
) -> Turn
    requires records { (1 ≤ limits.now.records) × (limits.now.records ≤ 8192) }
    requires running { IsRunning book.old }
    requires held { IsHeld book.old lease }
    ensures window { book.new.board.window ≡ book.old.board.window }
    ensures turn { (es : List Entry) → AreEntriesOf J.seen O.seen book.old es → IsTurnOver J.seen O.seen J.crash limits.now (K.moment link.old) (K.present link.old) (K.present link.new) (K.caught_up link.old) (K.caught_up link.new) (Rose (K.faults link.old) (K.faults link.new)) (DiskRose (J.faults book.old.journal.disk) (J.faults book.new.journal.disk)) (DiskRose (O.faults book.old.output) (O.faults book.new.output)) (K.feed link.old book.old.board.window.stream) book.old.board.window (at_rest book.old.board) book.old.journal book.new es result }
    ensures carried { (f : Feed) (es : List Entry) → AreEntriesOf J.seen O.seen book.old es → CanCarry f book.old.board.window (K.moment link.old) (K.feed link.old book.old.board.window.stream) (K.present link.old) (K.paced link.old) book.old.journal.gate es → BehindTurn result (IsCarrying J.seen O.seen f book.old.board.window book.new es) × ((n : ℕ) → result ≢ turns.Stops (outcomes.Full n)) }
    ensures still { BehindTurn result (StillTells (J.seen book.old.journal.disk) (J.seen book.new.journal.disk) × StillTells (O.seen book.old.output) (O.seen book.new.output)) }
    ensures objects { (J.same book.old.journal.disk book.new.journal.disk) × (O.same book.old.output book.new.output) }
    ensures disks_later { (J.faults book.old.journal.disk ≤ J.faults book.new.journal.disk) × (O.faults book.old.output ≤ O.faults book.new.output) }
    ensures later { K.faults link.old ≤ K.faults link.new }
    ensures no_fault { result ≢ turns.Stops outcomes.LinkFault → K.faults link.new ≡ K.faults link.old }
    ensures moment { K.moment link.old ≤ K.moment link.new }
    ensures feed { (stream : List ℕ) → K.feed link.new stream ≡ K.feed link.old stream }
    ensures object { K.same link.old link.new }
    ensures stays_honest { (stream : List ℕ) → IsHonestFor stream (K.feed link.old stream) (K.present link.old) → IsHonestFor stream (K.feed link.new stream) (K.present link.new) }
    ensures stays_paced { K.paced link.old → K.paced link.new }
    ensures reads { HasRead (K.reads link.old) (K.reads link.new) (StartsAtRow (map fresh book.old.board.rows)) }
    ensures stays { WhereOn result (NotBack (map fresh book.old.board.rows) (map fresh book.new.board.rows)) }
    ensures gets_on { (moment count : ℕ) → OverHonest J.seen O.seen book.old.board.window (K.feed link.old book.old.board.window.stream) (K.present link.old) book.old (moment ≤ K.moment link.old → IsFewest lease.args.token book.old.board.rows → IsGettingOn moment count book.old.board.rows → GetsOn moment count result book.new.board.rows) }
{
    boards_stay_consistent();
    leases_are_no_entries();
    something_is_planned();
    entries_are_carried();
    reads_start_at_low();
    book.settled();
    let _start = book.board().window().start.us();
    match fetch(alloc, link, &lease.args, &lease.known, limits) {
        Ok(batch) => settle(alloc, book, lease, &batch),
        Err(fault) => {
            let outcome = outcome_of(fault, &lease.args.token);
            book.release(lease);
            book.settled();
            Turn::Stops(outcome)
        }
    }
}

/// One turn of a follower.
pub(crate) fn take_turn<K: Link, J: Disk, O: Disk>(
    alloc: Global,
    book: &mut Book<J, O>,
    link: &mut K,
    pace: &Pace,
) -> Turn
    requires records { (1 ≤ pace.now.limits.records) × (pace.now.limits.records ≤ 8192) }
    requires idle { IsIdle book.old }
    ensures window { book.new.board.window ≡ book.old.board.window }
    ensures turn { (es : List Entry) → AreEntriesOf J.seen O.seen book.old es → IsTurnOver J.seen O.seen J.crash pace.now.limits (K.moment link.old) (K.present link.old) (K.present link.new) (K.caught_up link.old) (K.caught_up link.new) (Rose (K.faults link.old) (K.faults link.new)) (DiskRose (J.faults book.old.journal.disk) (J.faults book.new.journal.disk)) (DiskRose (O.faults book.old.output) (O.faults book.new.output)) (K.feed link.old book.old.board.window.stream) book.old.board.window (at_rest book.old.board) book.old.journal book.new es result }
    ensures carried { (f : Feed) (es : List Entry) → AreEntriesOf J.seen O.seen book.old es → CanCarry f book.old.board.window (K.moment link.old) (K.feed link.old book.old.board.window.stream) (K.present link.old) (K.paced link.old) book.old.journal.gate es → BehindTurn result (IsCarrying J.seen O.seen f book.old.board.window book.new es) × ((n : ℕ) → result ≢ turns.Stops (outcomes.Full n)) }
    ensures still { BehindTurn result (StillTells (J.seen book.old.journal.disk) (J.seen book.new.journal.disk) × StillTells (O.seen book.old.output) (O.seen book.new.output)) }
    ensures objects { (J.same book.old.journal.disk book.new.journal.disk) × (O.same book.old.output book.new.output) }
    ensures disks_later { (J.faults book.old.journal.disk ≤ J.faults book.new.journal.disk) × (O.faults book.old.output ≤ O.faults book.new.output) }
    ensures later { K.faults link.old ≤ K.faults link.new }
    ensures no_fault { result ≢ turns.Stops outcomes.LinkFault → K.faults link.new ≡ K.faults link.old }
    ensures moment { K.moment link.old ≤ K.moment link.new }
    ensures feed { (stream : List ℕ) → K.feed link.new stream ≡ K.feed link.old stream }
    ensures object { K.same link.old link.new }
    ensures stays_honest { (stream : List ℕ) → IsHonestFor stream (K.feed link.old stream) (K.present link.old) → IsHonestFor stream (K.feed link.new stream) (K.present link.new) }
    ensures stays_paced { K.paced link.old → K.paced link.new }
    ensures reads { HasRead (K.reads link.old) (K.reads link.new) (StartsAtRow (map fresh book.old.board.rows)) }
    ensures stays { WhereOn result (NotBack (map fresh book.old.board.rows) (map fresh book.new.board.rows)) }
    ensures gets_on { (moment count : ℕ) → OverHonest J.seen O.seen book.old.board.window (K.feed link.old book.old.board.window.stream) (K.present link.old) book.old (moment ≤ K.moment link.old → IsGettingOn moment count book.old.board.rows → GetsOn moment count result book.new.board.rows) }
{
    leases_are_no_entries();
    rows_stay_right();
    book.settled();
    match book.claim(alloc, pace.order) {
        Ok(Claim::Initial(lease)) => read_on(alloc, book, link, lease, &pace.limits),
        Ok(Claim::Row(lease)) => read_on(alloc, book, link, lease, &pace.limits),
        Ok(Claim::Busy) => unreachable!(),
        Ok(Claim::Orphan(row, parent)) => {
            Turn::Stops(Outcome::Breach(Breach::Orphan(row, parent)))
        }
        Ok(Claim::Done) => Turn::Stops(Outcome::Ended),
        Err(Memory) => Turn::Stops(Outcome::Memory),
    }
}
