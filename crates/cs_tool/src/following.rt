// What a follower makes of a window of a scripted stream.
ghost use Rattle.std.specs.Prelude.{◌≡◌, ◌≤◌, List, false, ⊤};
ghost use Rattle.cs_device.specs.Causes.{Rose};
ghost use Rattle.cs_schedule.specs.declared.entry.Entry.{Entry};
ghost use Rattle.cs_book.specs.Book.{IsRunning, AreEntriesOf, StillTells};
ghost use Rattle.cs_book.specs.Waiting.{AreFree};
ghost use Rattle.cs_tool.specs.Complete.{GoesOn};
ghost use Rattle.cs_tool.specs.Database.{IsStreamIn};
ghost use Rattle.cs_tool.specs.Following.{IsSaidOf, IsFollowStatus, IsFollowedIn, DisksTell};
ghost use Rattle.cs_tool.specs.Journal.{IsDurable};

use crate::Status;
use crate::database::stream_of;
use cs_book::Book;
use cs_device::Disk;
use cs_follow::{Outcome, Pace, ended_texts_are_complete, follow_one};
use cs_link::ReadRefusal;
use cs_read::{states_are_kept, streams_are_sound};
use cs_room::{reads_start_at_low, room_is_enough};
use cs_schema::Stream;
use cs_script::ServerState;
use cs_server::{ServerLink, feeds_are_told_by_name};
use cs_text::consistent_texts_are_good;
use cs_types::{Stamp, Window};
use std::alloc::Global;

/// How a replay goes.
#[derive(Clone, Copy, Debug)]
pub(crate) struct Going {
    /// In what order it reads, when it pauses, and how much it takes at once.
    pub pace: Pace,
    /// The present moment of the server.
    pub moment: Stamp,
}

/// Follows the window of a book over the server of a state, and gives how it stopped. It is not begun
/// where there is no such stream, or where the stream was created after the start.
pub(crate) fn follow_window<J: Disk, O: Disk>(
    alloc: Global,
    state: &ServerState,
    book: &mut Book<J, O>,
    window: &Window,
    going: &Going,
) -> Status
    requires turns { 1 ≤ going.now.pace.turns }
    requires records { (1 ≤ going.now.pace.limits.records) × (going.now.pace.limits.records ≤ 8192) }
    requires running { IsRunning book.old }
    requires free { AreFree book.old.board.rows × (book.old.is_opening ≡ false) }
    requires window { book.old.board.window ≡ window.now }
    ensures followed { (es : List Entry) → AreEntriesOf J.seen O.seen book.old es → IsFollowedIn J.seen O.seen J.crash (Rose (J.faults book.old.journal.disk) (J.faults book.new.journal.disk)) (Rose (O.faults book.old.output) (O.faults book.new.output)) state.now book.old.board.window going.now.pace going.now.moment book.old book.new es result }
    ensures complete { (es : List Entry) → AreEntriesOf J.seen O.seen book.old es → GoesOn (Rose (J.faults book.old.journal.disk) (J.faults book.new.journal.disk)) (Rose (O.faults book.old.output) (O.faults book.new.output)) state.now book.old.board.window going.now.moment book.old.journal.gate es result }
    ensures answers { IsFollowStatus result }
    ensures durable { IsDurable (O.seen book.new.output) (O.crash book.new.output) result }
    ensures still { DisksTell result (StillTells (J.seen book.old.journal.disk) (J.seen book.new.journal.disk) × StillTells (O.seen book.old.output) (O.seen book.new.output)) }
    ensures window { book.new.board.window ≡ book.old.board.window }
    ensures objects { (J.same book.old.journal.disk book.new.journal.disk) × (O.same book.old.output book.new.output) }
    ensures later { (J.faults book.old.journal.disk ≤ J.faults book.new.journal.disk) × (O.faults book.old.output ≤ O.faults book.new.output) }
{
    states_are_kept(state);
    streams_are_sound();
    feeds_are_told_by_name();
    book.settled();
    let Some(stream) = stream_of(state, &window.stream) else {
        return Status::Refused(ReadRefusal::UnknownFunction);
    };
    if window.start.us() < stream.created.us() {
        return Status::Refused(ReadRefusal::StartBeforeCreation);
    }
    follow_stream(alloc, state, stream, book, going)
}

/// Follows the stream over the server of its state.
fn follow_stream<J: Disk, O: Disk>(
    alloc: Global,
    state: &ServerState,
    stream: &Stream,
    book: &mut Book<J, O>,
    going: &Going,
) -> Status
    requires turns { 1 ≤ going.now.pace.turns }
    requires records { (1 ≤ going.now.pace.limits.records) × (going.now.pace.limits.records ≤ 8192) }
    requires running { IsRunning book.old }
    requires free { AreFree book.old.board.rows × (book.old.is_opening ≡ false) }
    requires there { IsStreamIn state.now book.old.board.window.stream stream.now }
    requires created { stream.now.created ≤ book.old.board.window.start }
    ensures followed { (es : List Entry) → AreEntriesOf J.seen O.seen book.old es → IsFollowedIn J.seen O.seen J.crash (Rose (J.faults book.old.journal.disk) (J.faults book.new.journal.disk)) (Rose (O.faults book.old.output) (O.faults book.new.output)) state.now book.old.board.window going.now.pace going.now.moment book.old book.new es result }
    ensures complete { (es : List Entry) → AreEntriesOf J.seen O.seen book.old es → GoesOn (Rose (J.faults book.old.journal.disk) (J.faults book.new.journal.disk)) (Rose (O.faults book.old.output) (O.faults book.new.output)) state.now book.old.board.window going.now.moment book.old.journal.gate es result }
    ensures answers { IsFollowStatus result }
    ensures durable { IsDurable (O.seen book.new.output) (O.crash book.new.output) result }
    ensures still { DisksTell result (StillTells (J.seen book.old.journal.disk) (J.seen book.new.journal.disk) × StillTells (O.seen book.old.output) (O.seen book.new.output)) }
    ensures window { book.new.board.window ≡ book.old.board.window }
    ensures objects { (J.same book.old.journal.disk book.new.journal.disk) × (O.same book.old.output book.new.output) }
    ensures later { (J.faults book.old.journal.disk ≤ J.faults book.new.journal.disk) × (O.faults book.old.output ≤ O.faults book.new.output) }
{
    states_are_kept(state);
    streams_are_sound();
    feeds_are_told_by_name();
    consistent_texts_are_good();
    ended_texts_are_complete();
    room_is_enough();
    reads_start_at_low();
    book.settled();
    let _start = book.board().window().start.us();
    let mut link = ServerLink::new(alloc, state, going.moment);
    let outcome = follow_one(alloc, book, &mut link, &going.pace);
    book.settled();
    status_of(outcome)
}

/// The status that says an outcome.
fn status_of(outcome: Outcome) -> Status
    ensures { IsSaidOf outcome result }
{
    match outcome {
        Outcome::Ended => Status::Ended,
        Outcome::Paused => Status::Paused,
        Outcome::RetentionPassed(earliest) => Status::RetentionPassed(earliest),
        Outcome::Refused(refusal) => Status::Refused(refusal),
        Outcome::LinkFault => Status::LinkFault,
        Outcome::Breach(breach) => Status::Breach(breach),
        Outcome::Stalled(token, count) => Status::Stalled(token, count),
        Outcome::JournalFault => Status::JournalFault,
        Outcome::OutputFault => Status::OutputFault,
        Outcome::Full(length) => Status::Full(length),
        Outcome::Memory => Status::Memory,
    }
}
