ghost use Rattle.std.specs.Prelude.{◌≡◌, ◌≢◌, ◌<◌, Option, None, Some, IfOk, IfSome, MatchOption, length};
ghost use Rattle.cs_server.specs.declared.kept.Kept.{Kept as AKept};
ghost use Rattle.cs_server.specs.Going.{IsKeptIndex, IsOpening, IsBegun};
ghost use Rattle.cs_server.specs.Typed.{place_named, read_at, refusal_to};

use crate::going::{begun, indexed};
use crate::kept::{Kept, Opening};
use crate::places::{layout_at, place_named, stream_at};
use cs_link::{ReadArgs, ReadRefusal};
use cs_script::ServerState;
use cs_steps::refusal;
use cs_types::{Memory, Stamp};
use std::alloc::Global;

/// What an `open` with these arguments makes, where this index is kept.
pub(crate) fn prepare(
    alloc: Global,
    state: &ServerState,
    kept: &Option<Kept>,
    args: &ReadArgs,
    moment: Stamp,
) -> Result<Opening, Memory>
    requires { IfSome kept.now (IsKeptIndex state.now) }
    ensures { IfOk result (IsOpening state.now (place_named args.now.stream state.now.streams) args.now moment kept.now) }
{
    match place_named(&args.stream, state.catalog().streams()) {
        None => Ok(Opening::Refused(ReadRefusal::UnknownFunction)),
        Some(place) => prepare_at(alloc, state, kept, place, args, moment),
    }
}

/// The same of the stream at a place.
fn prepare_at(
    alloc: Global,
    state: &ServerState,
    kept: &Option<Kept>,
    place: usize,
    args: &ReadArgs,
    moment: Stamp,
) -> Result<Opening, Memory>
    requires index { IfSome kept.now (IsKeptIndex state.now) }
    requires inside { place < length state.now.streams }
    ensures { IfOk result (IsOpening state.now (Some place) args.now moment kept.now) }
{
    if let Some(refusal) = refusal_at(state, place, args, moment) {
        return Ok(Opening::Refused(refusal));
    }
    match index_of(kept, place) {
        Some(kept) => Ok(Opening::Again(begun(alloc, state, kept, args, moment)?)),
        None => anew(alloc, state, place, args, moment),
    }
}

/// Why a READ of the stream at a place is refused.
fn refusal_at(
    state: &ServerState,
    place: usize,
    args: &ReadArgs,
    moment: Stamp,
) -> Option<ReadRefusal>
    requires { place < length state.now.streams }
    ensures { result ≡ refusal_to (read_at state.now (Some place) args.now) moment }
{
    refusal(
        args,
        stream_at(state, place),
        layout_at(state, place),
        moment,
    )
}

/// The index that is kept, where it is that of the stream at a place.
fn index_of(kept: &Option<Kept>, place: usize) -> Option<&Kept>
    ensures { MatchOption result (IfSome kept.now (λ k. k.place ≢ place)) (λ k. (kept.now ≡ Some k.now) × (k.now.place ≡ place)) }
{
    let Some(kept) = kept else {
        return None;
    };
    if kept.place == place {
        Some(kept)
    } else {
        None
    }
}

/// Begins a READ of the stream at a place over an index that it makes.
fn anew(
    alloc: Global,
    state: &ServerState,
    place: usize,
    args: &ReadArgs,
    moment: Stamp,
) -> Result<Opening, Memory>
    requires inside { place < length state.now.streams }
    requires taken { refusal_to (read_at state.now (Some place) args.now) moment ≡ None }
    ensures { (kept : Option AKept) → IfOk result (IsOpening state.now (Some place) args.now moment kept) }
{
    let kept = indexed(alloc, state, place)?;
    let reading = begun(alloc, state, &kept, args, moment)?;
    Ok(Opening::Anew(kept, reading))
}
