ghost use Rattle.std.specs.Prelude.{◌≡◌, ◌≢◌, [], ◌<◌, List, None, Some, IfOk, IfSome, OnErr, length};
ghost use Rattle.cs_link.specs.declared.reading.ReadArgs.{ReadArgs as AnArgs};
ghost use Rattle.cs_link.specs.declared.reading.Step.{Step as AStep};
ghost use Rattle.cs_server.specs.Going.{IsKeptIndex, IsGoing, HasMore, HasGiven, IsBegun, content_at};
ghost use Rattle.cs_server.specs.Typed.{read_at, refusal_to};

use crate::kept::Kept;
use crate::places::{layout_at, stream_at};
use cs_index::stream_index;
use cs_link::{ReadArgs, Step};
use cs_read::{IndexedStream, Reading};
use cs_script::ServerState;
use cs_steps::ReadFault;
use cs_types::{Memory, Stamp};
use std::alloc::Global;

/// The index of the stream at a place.
pub(crate) fn indexed(alloc: Global, state: &ServerState, place: usize) -> Result<Kept, Memory>
    requires { place < length state.now.streams }
    ensures index { IfOk result (IsKeptIndex state.now) }
    ensures place { IfOk result (λ k. k.place ≡ place) }
{
    let index = stream_index(
        alloc,
        state.catalog(),
        stream_at(state, place),
        layout_at(state, place),
        state.history(),
    )?;
    Ok(Kept { place, index })
}

/// The stream of an index, as READs of it see it.
fn stream_of<'a>(state: &'a ServerState, kept: &'a Kept) -> IndexedStream<'a>
    requires { IsKeptIndex state.now kept.now }
    ensures { result ≡ content_at state.now kept.now.place }
{
    IndexedStream::of(
        state.catalog(),
        stream_at(state, kept.place),
        layout_at(state, kept.place),
        state.history().modifications(),
        &kept.index,
    )
}

/// Begins a READ that is not refused, over the index of its stream.
pub(crate) fn begun(
    alloc: Global,
    state: &ServerState,
    kept: &Kept,
    args: &ReadArgs,
    moment: Stamp,
) -> Result<Reading, Memory>
    requires index { IsKeptIndex state.now kept.now }
    requires taken { refusal_to (read_at state.now (Some kept.now.place) args.now) moment ≡ None }
    ensures { IfOk result (IsBegun state.now kept.now.place args.now moment kept.now) }
{
    let of = stream_of(state, kept);
    match Reading::open(alloc, &of, args, moment) {
        Ok(reading) => Ok(reading),
        Err(ReadFault::Memory) => Err(Memory),
        Err(ReadFault::Refused(_refusal)) => unreachable!(),
    }
}

/// The next step of a READ that has one. After `Memory` the READ is what it was.
pub(crate) fn next_of(
    alloc: Global,
    state: &ServerState,
    kept: &Option<Kept>,
    going: &mut Option<Reading>,
) -> Result<Step, Memory>
    requires index { IfSome kept.now (IsKeptIndex state.now) }
    requires more { (all : List AStep) × HasMore state.now all kept.now going.old }
    ensures gives { (all : List AStep) → IsGoing state.now all kept.now going.old → IfOk result (HasGiven state.now all kept.now going.old going.new) }
    ensures err { OnErr result (going.new ≡ going.old) }
{
    let Some(kept) = kept else {
        unreachable!();
    };
    let Some(reading) = going else {
        unreachable!();
    };
    let of = stream_of(state, kept);
    match reading.next(alloc, &of)? {
        Some(step) => Ok(step),
        None => unreachable!(),
    }
}
