// A script's database, and what a window wants of it.
ghost use Rattle.std.specs.Prelude.{◌≡◌, ◌≢◌, ◌≤◌, ℕ, List, Ok, IfOk, IfErr, IfSome, MatchOption, Contains};
ghost use Rattle.cs_schema.specs.Sound.{IsSoundCatalog};
ghost use Rattle.cs_schema.specs.declared.types.Stream.{Stream as StreamValue};
ghost use Rattle.cs_audit.specs.Audit.{HaveOwnLines, AreApart};
ghost use Rattle.cs_script.specs.Script.{Makes};
ghost use Rattle.cs_tool.specs.Database.{IsStreamIn, HasNoStream, wanted_in};
ghost use Rattle.cs_tool.specs.Answers.{IsLoadStatus};

use crate::Status;
use cs_audit::changes_of_one_database_have_own_lines;
use cs_capture::{changes_are_of_one_database, wanted};
use cs_device::Source;
use cs_schema::Stream;
use cs_script::{ScriptFault, ServerState, load};
use cs_types::{Change, Items, Memory, Stamp, Text};
use std::alloc::Global;

/// What a script makes.
pub(crate) fn database_of<S: Source>(alloc: Global, script: &mut S) -> Result<ServerState, Status>
    ensures made { IfOk result (λ state. IfSome (S.left script.old) (λ bytes. Makes bytes (Ok state))) }
    ensures refused { IfErr result (IsLoadStatus (S.left script.old) (S.faults script.old) (S.faults script.new)) }
    ensures object { S.same script.old script.new }
    ensures later { S.faults script.old ≤ S.faults script.new }
{
    match load(alloc, script) {
        Ok(state) => Ok(state),
        Err(ScriptFault::SourceFault) => Err(Status::SourceFault),
        Err(ScriptFault::Line(line, cause)) => Err(Status::BadScript(line, Some(cause))),
        Err(ScriptFault::TooLong) => Err(Status::BadScript(0, None)),
        Err(ScriptFault::Memory) => Err(Status::Memory),
    }
}

/// The stream of a name.
pub(crate) fn stream_of<'a>(state: &'a ServerState, name: &Text) -> Option<&'a Stream>
    ensures { MatchOption result (HasNoStream state.now name.now) (λ s. IsStreamIn state.now name.now s.now) }
{
    match stream_named(state.catalog().streams(), name) {
        Some(stream) => Some(stream),
        None => None,
    }
}

fn stream_named<'a>(streams: &'a [Stream], name: &Text) -> Option<&'a Stream>
    ensures { MatchOption result ((s : StreamValue) → Contains streams.now s → s.name ≢ name.now) (λ s. Contains streams.now s.now × (s.now.name ≡ name.now)) }
{
    streams.iter().find(|s| s.name.is(name))
}

/// The changes that a stream captures of the history, from a start to an end.
pub(crate) fn changes_in(
    alloc: Global,
    state: &ServerState,
    stream: &Stream,
    start: Stamp,
    end: Stamp,
) -> Result<Items<Change>, Memory>
    ensures changes { IfOk result (λ changes. changes ≡ wanted_in state.now stream.now start end) }
    ensures own_lines { HaveOwnLines (wanted_in state.now stream.now start end) }
    ensures apart { AreApart (wanted_in state.now stream.now start end) }
{
    changes_are_of_one_database();
    changes_of_one_database_have_own_lines();
    let _first = start.us();
    let _last = end.us();
    let _rules = state.history().modifications();
    let _sound = state.catalog().streams();
    wanted(alloc, state.history(), state.catalog(), stream, start, end)
}
