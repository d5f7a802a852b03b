// The generator's script, replayed and audited in memory.
ghost use Rattle.std.specs.Prelude.{◌≡◌, ◌≢◌, ◌≤◌, ◌++◌, ℕ, List, [], codes, length, slice_get, false, Some, Ok, IfOk, IfErr, OnOk, MatchOption, Contains, string_bytes};
ghost use Rattle.cs_device.specs.Memory.{seen_of};
ghost use Rattle.cs_generator.specs.Generated.{IsSize, script_text as generated_text};
ghost use Rattle.cs_script.specs.Script.{Makes};
ghost use Rattle.cs_schema.specs.declared.types.Stream.{Stream as StreamValue};
ghost use Rattle.cs_partitions.specs.Layout.{StreamParts};
ghost use Rattle.cs_link.specs.declared.feed.Feed.{Feed};
ghost use Rattle.cs_schedule.specs.declared.entry.Entry.{Entry};
ghost use Rattle.cs_book.specs.Book.{IsRunning, AreEntriesOf};
ghost use Rattle.cs_book.specs.Waiting.{AreFree};
ghost use Rattle.cs_follow.specs.Own.{AreFollowing};
ghost use Rattle.cs_tool.specs.Database.{IsStreamIn, HasNoStream};
ghost use Rattle.cs_tool.specs.Gen.{generated_window, IsPlacedIn, IsSummary, IsGenStatus, IsAudited, IsAuditFault, IsLeftAtEnd, summary_text};
ghost use Rattle.cs_tool.specs.Said.{IsMemory};

use crate::Status;
use crate::check::judge;
use crate::database::{changes_in, database_of};
use crate::following::{Going, follow_window};
use crate::sure::SureSource;
use cs_book::Book;
use cs_device::{Disk, MemDisk};
use cs_follow::Pace;
use cs_generator::{STREAM, script_text, window_end, window_start};
use cs_link::{Limits, ReadRefusal};
use cs_partitions::Layout;
use cs_read::{states_are_kept, streams_are_sound};
use cs_schedule::journals_stay_consistent;
use cs_schema::Stream;
use cs_script::ServerState;
use cs_server::feeds_are_told_by_name;
use cs_types::{Items, Memory, Text, Window};
use std::alloc::Global;

/// How many records a READ of the audited followers takes at once, and of what weight.
const LIMITS: Limits = Limits {
    records: 1024,
    bytes: 1_048_576,
};

/// How many bytes the disk of an audited follower takes.
const ROOM: u64 = 33_554_432;

/// How many calls it takes.
const CALLS: u64 = 1_000_000;

/// What is printed of the script of so many commits: how many commits, wanted changes and parts it
/// has, and for each of three orders that its output was audited as complete; then the last line.
pub(crate) fn summary(alloc: Global, commits: u64) -> Result<String, Status>
    requires { IsSize commits }
    ensures summary { IfOk result (λ s. IsSummary commits (string_bytes s)) }
    ensures refused { IfErr result (IsGenStatus commits) }
{
    let state = made(alloc, commits)?;
    let window = window(alloc)?;
    let Some((stream, layout)) = placed(&state, &window.stream) else {
        return Err(Status::Refused(ReadRefusal::UnknownFunction));
    };
    if window.start.us() < stream.created.us() {
        return Err(Status::Refused(ReadRefusal::StartBeforeCreation));
    }
    let changes = changes_in(alloc, &state, stream, window.start, window.end)?;
    let changes = changes.as_slice().len();
    let parts = layout.parts().len();
    match all_audited(alloc, &state, stream, &window) {
        Ok(()) => (),
        Err(status) => return Err(status),
    }
    let text = summary_text(alloc, commits, changes, parts)?;
    Ok(text)
}

/// What the generated script makes.
fn made(alloc: Global, commits: u64) -> Result<ServerState, Status>
    requires { IsSize commits }
    ensures made { IfOk result (λ state. Makes (generated_text commits) (Ok state)) }
    ensures refused { IfErr result (IsGenStatus commits) }
{
    let text = script_text(alloc, commits)?;
    let mut source = SureSource::new(alloc, Items::from_vec(text.into_bytes()))?;
    database_of(alloc, &mut source)
}

/// The window of all commits.
fn window(alloc: Global) -> Result<Window, Memory>
    ensures { IfOk result (λ w. w ≡ generated_window) }
{
    Ok(Window {
        stream: Text::of(alloc, STREAM)?,
        start: window_start(),
        end: window_end(),
    })
}

/// The stream of a name, and its layout.
fn placed<'a>(state: &'a ServerState, name: &Text) -> Option<(&'a Stream, &'a Layout)>
    ensures { MatchOption result (HasNoStream state.now name.now) (λ p. IsPlacedIn state.now name.now p.0.now p.1.now) }
{
    states_are_kept(state);
    let streams = state.catalog().streams();
    let Some(place) = place_of(streams, name) else {
        return None;
    };
    let Some(stream) = streams.get(place) else {
        unreachable!();
    };
    let Some(layout) = state.layouts().get(place) else {
        unreachable!();
    };
    Some((stream, layout))
}

/// The place of the stream of a name.
fn place_of(streams: &[Stream], name: &Text) -> Option<usize>
    ensures { MatchOption result ((s : StreamValue) → Contains streams.now s → s.name ≢ name.now) (λ i. (s : StreamValue) × (slice_get streams.now i ≡ Some s) × (s.name ≡ name.now)) }
{
    streams.iter().position(|s| s.name.is(name))
}

/// That the outputs of all three orders are complete.
fn all_audited(
    alloc: Global,
    state: &ServerState,
    stream: &Stream,
    window: &Window,
) -> Result<(), Status>
    requires there { IsStreamIn state.now window.now.stream stream.now }
    requires created { stream.now.created ≤ window.now.start }
    requires order { window.now.start ≤ window.now.end }
    requires name { length window.now.stream ≤ 128 }
    ensures complete { OnOk result (IsAudited state.now window.now stream.now) }
    ensures refused { IfErr result (IsAuditFault state.now window.now stream.now) }
{
    audited(alloc, state, stream, window, 0)?;
    audited(alloc, state, stream, window, 1)?;
    audited(alloc, state, stream, window, 2)
}

/// That a follower that reads in this order leaves a complete output.
fn audited(
    alloc: Global,
    state: &ServerState,
    stream: &Stream,
    window: &Window,
    order: u64,
) -> Result<(), Status>
    requires there { IsStreamIn state.now window.now.stream stream.now }
    requires created { stream.now.created ≤ window.now.start }
    requires order { window.now.start ≤ window.now.end }
    requires name { length window.now.stream ≤ 128 }
    ensures complete { OnOk result (IsAudited state.now window.now stream.now) }
    ensures refused { IfErr result (IsAuditFault state.now window.now stream.now) }
{
    let output = followed(alloc, state, stream, window, order)?;
    match judge(alloc, state, stream, window, output.bytes()) {
        Status::Ended => Ok(()),
        status => Err(status),
    }
}

/// The output that such a follower leaves where it has ended.
fn followed(
    alloc: Global,
    state: &ServerState,
    stream: &Stream,
    window: &Window,
    order: u64,
) -> Result<MemDisk, Status>
    requires there { IsStreamIn state.now window.now.stream stream.now }
    requires created { stream.now.created ≤ window.now.start }
    requires order { window.now.start ≤ window.now.end }
    requires name { length window.now.stream ≤ 128 }
    ensures ended { IfOk result (λ output. IsLeftAtEnd state.now window.now stream.now (seen_of output)) }
    ensures refused { IfErr result (IsAuditFault state.now window.now stream.now) }
{
    states_are_kept(state);
    streams_are_sound();
    feeds_are_told_by_name();
    let mut book = book_in_memory(alloc, window)?;
    let going = Going {
        pace: Pace {
            order,
            turns: 1,
            limits: LIMITS,
        },
        moment: window.end,
    };
    let status = follow_window(alloc, state, &mut book, window, &going);
    let (_journal, output) = book.close();
    match status {
        Status::Ended => Ok(output),
        Status::JournalFault => Err(Status::Memory),
        Status::OutputFault => Err(Status::Memory),
        Status::Full(_) => Err(Status::Memory),
        status => Err(status),
    }
}

/// A book of the window over disks in memory that were empty; its entries follow each feed.
fn book_in_memory(alloc: Global, window: &Window) -> Result<Book<MemDisk, MemDisk>, Status>
    requires order { window.now.start ≤ window.now.end }
    requires name { length window.now.stream ≤ 128 }
    ensures running { IfOk result IsRunning }
    ensures free { IfOk result (λ b. AreFree b.board.rows × (b.is_opening ≡ false)) }
    ensures window { IfOk result (λ b. b.board.window ≡ window.now) }
    ensures entries { IfOk result (λ b. (es : List Entry) × AreEntriesOf ⟦<MemDisk as Disk>⟧.seen ⟦<MemDisk as Disk>⟧.seen b es × ((f : Feed) → AreFollowing f window.now es)) }
    ensures refused { IfErr result IsMemory }
{
    journals_stay_consistent();
    let journal = disk_in_memory(alloc)?;
    let output = disk_in_memory(alloc)?;
    match Book::open(alloc, journal, output, window) {
        Ok(book) => Ok(book),
        Err((_fault, _journal, _output)) => Err(Status::Memory),
    }
}

/// An empty disk in memory.
fn disk_in_memory(alloc: Global) -> Result<MemDisk, Memory>
    ensures { IfOk result (λ disk. seen_of disk ≡ []) }
{
    MemDisk::new(alloc, Items::new(alloc), ROOM, CALLS, Items::new(alloc))
}

fn summary_text(alloc: Global, commits: u64, changes: usize, parts: usize) -> Result<String, Memory>
    ensures { IfOk result (λ s. string_bytes s ≡ summary_text commits changes parts) }
{
    let front = format!(in alloc; "gen {commits} commits {commits} changes ")?;
    Ok(format!(in alloc;
        "{front}{changes} parts {parts}\norder 0 Complete\norder 1 Complete\norder 2 Complete\n0 Ended\n"
    )?)
}
