// The check of an output.
ghost use Rattle.std.specs.Prelude.{◌≡◌, ◌≢◌, ◌≤◌, ℕ, List, Ok, IfOk, IfErr, IfSome, length};
ghost use Rattle.std.specs.Io.KnownBytes.{Keeps};
ghost use Rattle.cs_device.specs.Causes.{Rose};
ghost use Rattle.cs_tool.specs.Database.{IsBadScript, HasNoStream, IsStreamIn, OnScript};
ghost use Rattle.cs_tool.specs.Answers.{IsCompleteIn, IsJudgedIn, IsBadTextIn, IsReadStatus, IsAuditStatus, IsRefusedHere, IsCheckStatus, IsPastScript};
ghost use Rattle.cs_tool.specs.Run.{IsBeforeFiles};
ghost use Rattle.cs_tool.specs.declared.status.Status.TheVariants as status;

use crate::Status;
use crate::database::{changes_in, database_of, stream_of};
use cs_audit::{Verdict, audit};
use cs_device::{Disk, Source};
use cs_link::ReadRefusal;
use cs_output::{TextFault, read_lines};
use cs_schema::Stream;
use cs_script::ServerState;
use cs_types::{Memory, Window};
use std::alloc::Global;

/// Reads the script and the output, and judges the output against what the window wants.
pub(crate) fn check<S: Source, O: Disk>(
    alloc: Global,
    script: &mut S,
    output: &mut O,
    window: &Window,
) -> Status
    ensures ended { result ≡ status.Ended → OnScript (S.left script.old) (λ db. IfSome (O.seen output.old) (IsCompleteIn db window.now)) }
    ensures verdict { (v : _) → result ≡ status.Verdict v → OnScript (S.left script.old) (λ db. IfSome (O.seen output.old) (IsJudgedIn db window.now v)) }
    ensures refused { (refusal : _) → result ≡ status.Refused refusal → OnScript (S.left script.old) (λ db. IsRefusedHere db window.now refusal) }
    ensures bad_output { (line : ℕ) → result ≡ status.BadOutput line → OnScript (S.left script.old) (λ db. IfSome (O.seen output.old) (IsBadTextIn db window.now line)) }
    ensures output_fault { result ≡ status.OutputFault → Rose (O.faults output.old) (O.faults output.new) }
    ensures source_fault { result ≡ status.SourceFault → Rose (S.faults script.old) (S.faults script.new) }
    ensures bad_script { (line : ℕ) (cause : _) → result ≡ status.BadScript line cause → IfSome (S.left script.old) (IsBadScript line cause) }
    ensures answers { IsCheckStatus result }
    ensures untouched { IsBeforeFiles result → output.new ≡ output.old }
    ensures next { IsPastScript result → OnScript (S.left script.old) (λ db. Unit {0}) }
    ensures kept { Keeps (O.seen output.old) (O.seen output.new) }
    ensures script_object { S.same script.old script.new }
    ensures output_object { O.same output.old output.new }
    ensures script_later { S.faults script.old ≤ S.faults script.new }
    ensures output_later { O.faults output.old ≤ O.faults output.new }
{
    let state = match database_of(alloc, script) {
        Ok(state) => state,
        Err(status) => return status,
    };
    let Some(stream) = stream_of(&state, &window.stream) else {
        return Status::Refused(ReadRefusal::UnknownFunction);
    };
    match bytes_of(alloc, output) {
        Ok(bytes) => judge(alloc, &state, stream, window, &bytes),
        Err(status) => status,
    }
}

/// All bytes of the output.
fn bytes_of<O: Disk>(alloc: Global, output: &mut O) -> Result<Vec<u8>, Status>
    ensures bytes { IfOk result (λ v. IfSome (O.seen output.old) (λ bytes. v.items ≡ bytes)) }
    ensures refused { IfErr result (IsReadStatus (O.faults output.old) (O.faults output.new)) }
    ensures kept { Keeps (O.seen output.old) (O.seen output.new) }
    ensures object { O.same output.old output.new }
    ensures later { O.faults output.old ≤ O.faults output.new }
{
    let Ok(count) = output.len() else {
        return Err(Status::OutputFault);
    };
    let Ok(count) = usize::try_from(count) else {
        return Err(Status::Memory);
    };
    let mut bytes = room_for(alloc, count)?;
    let Ok(()) = output.read(0, &mut bytes) else {
        return Err(Status::OutputFault);
    };
    Ok(bytes)
}

/// Room for so many bytes.
fn room_for(alloc: Global, count: usize) -> Result<Vec<u8>, Memory>
    ensures { IfOk result (λ v. length v.items ≡ count) }
{
    Ok(Vec::from_elem(alloc, 0, count)?)
}

/// What a text is found to be against what the window wants of a stream.
pub(crate) fn judge(
    alloc: Global,
    state: &ServerState,
    stream: &Stream,
    window: &Window,
    text: &[u8],
) -> Status
    ensures { IsAuditStatus state.now window.now stream.now text.now result }
{
    let lines = match read_lines(alloc, text) {
        Ok(lines) => lines,
        Err(TextFault::BadLine(line)) => return Status::BadOutput(line),
        Err(TextFault::NoEnd(line)) => return Status::BadOutput(line),
        Err(TextFault::Memory) => return Status::Memory,
    };
    let Ok(wanted) = changes_in(alloc, state, stream, window.start, window.end) else {
        return Status::Memory;
    };
    match audit(alloc, lines.as_slice(), wanted.as_slice(), window.end) {
        Ok(Verdict::Complete) => Status::Ended,
        Ok(verdict) => Status::Verdict(verdict),
        Err(Memory) => Status::Memory,
    }
}
