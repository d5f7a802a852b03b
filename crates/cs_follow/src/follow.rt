//! Following a stream, READ by READ.
ghost use Rattle.std.specs.Prelude.{◌≡◌, ◌≢◌, ◌<◌, ◌≤◌, ◌⊎◌, ℕ, List, Option, Some, true, false, IfSome};
ghost use Rattle.cs_device.specs.Causes.{Rose as DiskRose};
ghost use Rattle.cs_device.specs.Crash.{LeavesOnly};
ghost use Rattle.cs_link.specs.declared.feed.Feed.{Feed};
ghost use Rattle.cs_link.specs.Causes.{Rose};
ghost use Rattle.cs_link.specs.Honest.{IsHonestFor};
ghost use Rattle.cs_schedule.specs.declared.entry.Entry.{Entry};
ghost use Rattle.cs_schedule.specs.Follows.{IsFollowed};
ghost use Rattle.cs_follow.specs.declared.outcome.Outcome.TheVariants as outcomes;
ghost use Rattle.cs_book.specs.Book.{IsRunning, AreEntriesOf, StillTells};
ghost use Rattle.cs_book.specs.Waiting.{AreFree};
ghost use Rattle.cs_follow.specs.Carry.{CanCarry, IsCarrying};
ghost use Rattle.cs_follow.specs.Own.{AreFollowing};
ghost use Rattle.cs_follow.specs.Pauses.{HasComeTo, IsGettingOn, OverHonest};
ghost use Rattle.cs_follow.specs.Reads.{HasRead, StartsAtRow};
ghost use Rattle.cs_follow.specs.Complete.{CanEnd, OnlyEnds};
ghost use Rattle.cs_follow.specs.Rightly.{IsKeptNoLonger, StopsRightly};
ghost use Rattle.cs_follow.specs.Still.{UnlessFailed, WhereDone};
ghost use Rattle.cs_follow.specs.Turn.{HasFollowed};

use crate::outcome::{Outcome, Pace};
use crate::turn::{Turn, failed, take_turn};
use cs_book::Book;
use cs_device::Disk;
use cs_fetch::{always_well_formed, made_is_faithful};
use cs_link::Link;
use cs_room::reads_start_at_low;
use cs_schedule::boards_stay_consistent;
use std::alloc::Global;

/// Follows the stream of a book's window from where the book stands: it makes the READ that is due,
/// puts the entry of what the READ brought into the book, and goes on so until something stops it.
/// Last it makes the output durable; where that fails, the fault comes in place of `Ended` and
/// `Paused`. A book that had failed before answers its fault at once.
///
/// It ends over every link. `Memory` also stands for a text of more than 4,294,967,295 bytes, which
/// no entry can hold, and for a list of more items than that.
pub fn follow_one<K: Link, J: Disk, O: Disk>(
    alloc: Global,
    book: &mut Book<J, O>,
    link: &mut K,
    pace: &Pace,
) -> Outcome
    requires turns { 1 ≤ pace.now.turns }
    requires records { (1 ≤ pace.now.limits.records) × (pace.now.limits.records ≤ 8192) }
    requires free { AreFree book.old.board.rows × (book.old.is_opening ≡ false) }
    ensures journal_failed { book.old.journal.failed ≡ true → result ≡ outcomes.JournalFault }
    ensures output_failed { book.old.journal.failed ≡ false → book.old.output_failed ≡ true → result ≡ outcomes.OutputFault }
    ensures followed { IsRunning book.old → (es : List Entry) → AreEntriesOf J.seen O.seen book.old es → HasFollowed J.seen O.seen J.crash pace.now.limits (K.moment link.old) (K.present link.old) (K.present link.new) pace.now.turns (K.caught_up link.old) (K.caught_up link.new) (Rose (K.faults link.old) (K.faults link.new)) (DiskRose (J.faults book.old.journal.disk) (J.faults book.new.journal.disk)) (DiskRose (O.faults book.old.output) (O.faults book.new.output)) (K.feed link.old book.old.board.window.stream) book.old book.new es result }
    // Unless a disk failed, what told its bytes tells bytes still, and the journal may be written on.
    ensures still { IsRunning book.old → UnlessFailed result (StillTells (J.seen book.old.journal.disk) (J.seen book.new.journal.disk) × StillTells (O.seen book.old.output) (O.seen book.new.output)) }
    ensures running { IsRunning book.old → UnlessFailed result (book.new.journal.failed ≡ false) }
    // Behind Ended and Paused neither disk has failed, and a crash leaves the output as it is.
    ensures runs { IsRunning book.old → WhereDone result (IsRunning book.new) }
    ensures durable { IsRunning book.old → WhereDone result (IfSome (O.seen book.old.output) (λ _. IfSome (O.seen book.new.output) (LeavesOnly (O.crash book.new.output)))) }
    // Over an honest link it pauses only where the link's moment was before the window's end, whatever the entries are; and over entries that follow the link's feed every outcome is right.
    ensures paused { IsRunning book.old → (f : Feed) → K.feed link.old book.old.board.window.stream ≡ Some f → IsHonestFor book.old.board.window.stream (K.feed link.old book.old.board.window.stream) (K.present link.old) → result ≡ outcomes.Paused → K.moment link.old < book.old.board.window.end }
    ensures rightly { IsRunning book.old → (f : Feed) (es : List Entry) → IsFollowed f book.old.board.window → K.feed link.old book.old.board.window.stream ≡ Some f → IsHonestFor book.old.board.window.stream (K.feed link.old book.old.board.window.stream) (K.present link.old) → AreEntriesOf J.seen O.seen book.old es → AreFollowing f book.old.board.window es → StopsRightly f book.old.board.window (K.moment link.old) (K.present link.new) (Rose (K.faults link.old) (K.faults link.new)) result }
    // And then the low watermark has come to the moment that the link had as the call began, or at least as many rows have as the pace has turns.
    ensures pause_means { IsRunning book.old → (f : Feed) (es : List Entry) → IsFollowed f book.old.board.window → K.feed link.old book.old.board.window.stream ≡ Some f → IsHonestFor book.old.board.window.stream (K.feed link.old book.old.board.window.stream) (K.present link.old) → AreEntriesOf J.seen O.seen book.old es → AreFollowing f book.old.board.window es → result ≡ outcomes.Paused → HasComeTo book.old.board.window.end (K.moment link.old) pace.now.turns book.new.board.rows }
    // Over an honest link it never stops for records in a row that added nothing, whatever the entries are.
    ensures never_stalled { IsRunning book.old → (f : Feed) → K.feed link.old book.old.board.window.stream ≡ Some f → IsHonestFor book.old.board.window.stream (K.feed link.old book.old.board.window.stream) (K.present link.old) → (token : Option (List ℕ)) (count : ℕ) → result ≢ outcomes.Stalled token count }
    // A READ is kept no longer only where it starts before what is kept at its moment; it never starts below the least start of the rows that the book then has.
    ensures least { IsRunning book.old → (f : Feed) (es : List Entry) → IsFollowed f book.old.board.window → K.feed link.old book.old.board.window.stream ≡ Some f → IsHonestFor book.old.board.window.stream (K.feed link.old book.old.board.window.stream) (K.present link.old) → AreEntriesOf J.seen O.seen book.old es → AreFollowing f book.old.board.window es → (earliest : ℕ) → result ≡ outcomes.RetentionPassed earliest → IsKeptNoLonger f book.old.board.window book.new.board.rows (K.present link.new) earliest }
    // Over an honest link whose heartbeats are paced, whose moment is not before the window's end, and which still keeps the least start of the book's rows, with room in the journal for what is expected: it ends.
    ensures complete { IsRunning book.old → (f : Feed) (es : List Entry) → AreEntriesOf J.seen O.seen book.old es → CanEnd f book.old.board.window (K.moment link.old) (K.feed link.old book.old.board.window.stream) (K.present link.old) (K.present link.new) (K.paced link.old) book.old.journal.gate book.old.board.rows es → OnlyEnds (Rose (K.faults link.old) (K.faults link.new)) (DiskRose (J.faults book.old.journal.disk) (J.faults book.new.journal.disk)) (DiskRose (O.faults book.old.output) (O.faults book.new.output)) result }
    // Entries that follow the link's feed do so as the call returns, unless a disk failed.
    ensures consistent { IsRunning book.old → (f : Feed) (es : List Entry) → IsFollowed f book.old.board.window → K.feed link.old book.old.board.window.stream ≡ Some f → IsHonestFor book.old.board.window.stream (K.feed link.old book.old.board.window.stream) (K.present link.old) → AreEntriesOf J.seen O.seen book.old es → AreFollowing f book.old.board.window es → UnlessFailed result ((next : List Entry) × AreEntriesOf J.seen O.seen book.new next × AreFollowing f book.old.board.window next) }
    // Where the link tells the list of its READs: one of a row that was there as the call began starts where that row is read on, or above, and the row was not finished; one without a token comes only where there were no rows.
    ensures reads { HasRead (K.reads link.old) (K.reads link.new) (StartsAtRow book.old.board.rows) }
    ensures window { book.new.board.window ≡ book.old.board.window }
    ensures objects { (J.same book.old.journal.disk book.new.journal.disk) × (O.same book.old.output book.new.output) }
    ensures disks_later { (J.faults book.old.journal.disk ≤ J.faults book.new.journal.disk) × (O.faults book.old.output ≤ O.faults book.new.output) }
    ensures later { K.faults link.old ≤ K.faults link.new }
    ensures no_fault { result ≢ outcomes.LinkFault → K.faults link.new ≡ K.faults link.old }
    ensures moment { K.moment link.old ≤ K.moment link.new }
    ensures feed { (stream : List ℕ) → K.feed link.new stream ≡ K.feed link.old stream }
    ensures object { K.same link.old link.new }
    ensures stays_honest { (stream : List ℕ) → IsHonestFor stream (K.feed link.old stream) (K.present link.old) → IsHonestFor stream (K.feed link.new stream) (K.present link.new) }
    ensures stays_paced { K.paced link.old → K.paced link.new }
{
    if let Some(fault) = book.failure() {
        return failed(fault);
    }
    made_is_faithful();
    always_well_formed();
    boards_stay_consistent();
    reads_start_at_low();
    book.settled();
    let _end = book.board().window().end.us();
    let outcome = follow(alloc, book, link, pace);
    finish(book, outcome)
}

/// Makes the output durable behind an outcome.
fn finish<J: Disk, O: Disk>(book: &mut Book<J, O>, outcome: Outcome) -> Outcome
    ensures board { book.new.board ≡ book.old.board }
    ensures journal { book.new.journal ≡ book.old.journal }
    ensures entries { (es : List Entry) → AreEntriesOf J.seen O.seen book.old es → AreEntriesOf J.seen O.seen book.new es }
    ensures outcome { (result ≡ outcome) ⊎ (((outcome ≡ outcomes.Ended) ⊎ (outcome ≡ outcomes.Paused)) × (((result ≡ outcomes.JournalFault) × (book.old.journal.failed ≡ true)) ⊎ ((result ≡ outcomes.OutputFault) × ((book.new.output_failed ≡ true) × ((book.old.output_failed ≡ true) ⊎ DiskRose (O.faults book.old.output) (O.faults book.new.output)))))) }
    ensures output_failed { book.old.output_failed ≡ true → book.new.output_failed ≡ true }
    ensures still { StillTells (O.seen book.old.output) (O.seen book.new.output) }
    ensures runs { WhereDone result (IsRunning book.new) }
    ensures durable { WhereDone result (IfSome (O.seen book.old.output) (λ _. IfSome (O.seen book.new.output) (LeavesOnly (O.crash book.new.output)))) }
    ensures object { O.same book.old.output book.new.output }
    ensures later { O.faults book.old.output ≤ O.faults book.new.output }
{
    match book.finish() {
        Ok(()) => outcome,
        Err(fault) => match outcome {
            Outcome::Ended | Outcome::Paused => failed(fault),
            other => other,
        },
    }
}

/// Turn by turn, until one stops.
fn follow<K: Link, J: Disk, O: Disk>(
    alloc: Global,
    book: &mut Book<J, O>,
    link: &mut K,
    pace: &Pace,
) -> Outcome
    requires turns { 1 ≤ pace.now.turns }
    requires records { (1 ≤ pace.now.limits.records) × (pace.now.limits.records ≤ 8192) }
    requires running { IsRunning book.old }
    requires free { AreFree book.old.board.rows × (book.old.is_opening ≡ false) }
    ensures followed { (es : List Entry) → AreEntriesOf J.seen O.seen book.old es → HasFollowed J.seen O.seen J.crash pace.now.limits (K.moment link.old) (K.present link.old) (K.present link.new) pace.now.turns (K.caught_up link.old) (K.caught_up link.new) (Rose (K.faults link.old) (K.faults link.new)) (DiskRose (J.faults book.old.journal.disk) (J.faults book.new.journal.disk)) (DiskRose (O.faults book.old.output) (O.faults book.new.output)) (K.feed link.old book.old.board.window.stream) book.old book.new es result }
    ensures carried { (f : Feed) (es : List Entry) → AreEntriesOf J.seen O.seen book.old es → CanCarry f book.old.board.window (K.moment link.old) (K.feed link.old book.old.board.window.stream) (K.present link.old) (K.paced link.old) book.old.journal.gate es → UnlessFailed result (IsCarrying J.seen O.seen f book.old.board.window book.new es) × ((n : ℕ) → result ≢ outcomes.Full n) }
    ensures still { UnlessFailed result (StillTells (J.seen book.old.journal.disk) (J.seen book.new.journal.disk) × StillTells (O.seen book.old.output) (O.seen book.new.output)) }
    ensures running { UnlessFailed result (IsRunning book.new) }
    ensures reads { HasRead (K.reads link.old) (K.reads link.new) (StartsAtRow book.old.board.rows) }
    ensures gets_on { OverHonest J.seen O.seen book.old.board.window (K.feed link.old book.old.board.window.stream) (K.present link.old) book.old (result ≡ outcomes.Paused → IsGettingOn (K.moment link.old) pace.now.turns book.new.board.rows) }
    ensures window { book.new.board.window ≡ book.old.board.window }
    ensures objects { (J.same book.old.journal.disk book.new.journal.disk) × (O.same book.old.output book.new.output) }
    ensures disks_later { (J.faults book.old.journal.disk ≤ J.faults book.new.journal.disk) × (O.faults book.old.output ≤ O.faults book.new.output) }
    ensures later { K.faults link.old ≤ K.faults link.new }
    ensures no_fault { result ≢ outcomes.LinkFault → K.faults link.new ≡ K.faults link.old }
    ensures moment { K.moment link.old ≤ K.moment link.new }
    ensures feed { (stream : List ℕ) → K.feed link.new stream ≡ K.feed link.old stream }
    ensures object { K.same link.old link.new }
    ensures stays_honest { (stream : List ℕ) → IsHonestFor stream (K.feed link.old stream) (K.present link.old) → IsHonestFor stream (K.feed link.new stream) (K.present link.new) }
    ensures stays_paced { K.paced link.old → K.paced link.new }
{
    book.settled();
    book.fresh();
    let mut left = pace.turns;
    'turns: loop {
        book.settled();
        match take_turn(alloc, book, link, pace) {
            Turn::Stops(outcome) => return outcome,
            Turn::CaughtUp => {
                if left <= 1 {
                    return Outcome::Paused;
                }
                left -= 1;
            }
            Turn::On => {}
        }
    }
}
