// The answer to a query at a moment.
ghost use Rattle.std.specs.Prelude.{◌≤◌, IfOk, IfErr};
ghost use Rattle.cs_tool.specs.Said.{IsShown};
ghost use Rattle.cs_tool.specs.Show.{AreShown, IsReadFault, IsStatusOf};

use crate::Status;
use crate::database::database_of;
use crate::top::Said;
use cs_ddl::ReadQuery;
use cs_device::Source;
use cs_link::ReadRefusal;
use cs_script::ServerState;
use cs_show::Shown;
use cs_steps::ReadFault;
use cs_types::Stamp;
use std::alloc::Global;

/// A query, and the moment at which it is taken.
#[derive(Drop)]
pub(crate) struct Asked {
    pub query: ReadQuery,
    pub moment: Stamp,
}

/// Reads the script, and finds the steps that answer a query at a moment.
pub(crate) fn show<S: Source>(alloc: Global, script: &mut S, asked: Asked) -> Said
    ensures said { IsShown (S.left script.old) (S.faults script.old) (S.faults script.new) asked.query asked.moment result }
    ensures script_object { S.same script.old script.new }
    ensures script_later { S.faults script.old ≤ S.faults script.new }
{
    let state = match database_of(alloc, script) {
        Ok(state) => state,
        Err(status) => return Said::Line(status),
    };
    let Asked { query, moment } = asked;
    match answer_in(alloc, state, query, moment) {
        Ok(shown) => Said::Steps(shown),
        Err(status) => Said::Line(status),
    }
}

/// The steps that answer a query over a database.
fn answer_in(
    alloc: Global,
    state: ServerState,
    query: ReadQuery,
    moment: Stamp,
) -> Result<Shown, Status>
    ensures shown { IfOk result (λ steps. AreShown query moment steps state) }
    ensures refused { IfErr result (IsReadFault state query moment) }
{
    match Shown::of(alloc, state, query, moment) {
        Ok(shown) => Ok(shown),
        Err(ReadFault::Refused(refusal)) => Err(refused(refusal)),
        Err(ReadFault::Memory) => Err(Status::Memory),
    }
}

/// The status of a READ that is refused.
fn refused(refusal: ReadRefusal) -> Status
    ensures { IsStatusOf refusal result }
{
    match refusal {
        ReadRefusal::StartTooOld(earliest) => Status::RetentionPassed(earliest),
        refusal => Status::Refused(refusal),
    }
}
