ghost use Rattle.std.specs.Prelude.{◌≡◌, ◌≤◌, None, IfOk, IfSome, MatchResult, length};
ghost use Rattle.cs_answer_lines.specs.StepLine.{CanStandAs};
ghost use Rattle.cs_read.specs.Answers.{read_refusal, answer_steps};
ghost use Rattle.cs_read.specs.Content.{GivesNext};
ghost use Rattle.cs_steps.specs.Cursor.{IsAt};
ghost use Rattle.cs_steps.specs.Query.{Tells};
ghost use Rattle.cs_serve.specs.Sending.{CanStandAll};

use cs_answer_lines::{answers_can_stand, scripts_can_stand};
use cs_ddl::ReadQuery;
use cs_link::Step;
use cs_read::{Answer, read, states_are_kept};
use cs_script::ServerState;
use cs_steps::ReadFault;
use cs_types::{Memory, Stamp};
use std::alloc::Global;
use std::marker::Model;

/// A query that is taken at a moment over a scripted database, and is not refused. Contracts see
/// the steps of its answer that are left.
#[derive(Drop)]
pub(crate) struct Taken<'a> {
    state: &'a ServerState,
    query: &'a ReadQuery,
    moment: Stamp,
    answer: Answer,
    /// How many steps were given.
    given: usize,
}

impl<'a> Model for Taken<'a> {
    ghost use Rattle.std.specs.Prelude.{◌≤◌, List, drop, length};
    ghost use Rattle.cs_link.specs.declared.reading.Step.{Step};
    ghost use Rattle.cs_read.specs.Answers.{answer_steps};
    ghost use Rattle.cs_read.specs.Whole.{IsAnswer};
    ghost use Rattle.cs_serve.specs.Sending.{CanStandAll};

    ghost Value = { List Step };

    ghost view = { λ t. drop t.given (answer_steps t.state.now t.query.now t.moment) };

    ghost invariant = { λ t. IsAnswer t.state.now (answer_steps t.state.now t.query.now t.moment) t.answer × CanStandAll (answer_steps t.state.now t.query.now t.moment) × (t.given ≤ length (answer_steps t.state.now t.query.now t.moment)) };
}

impl<'a> Taken<'a> {
    /// Takes a query at a moment over a database, or refuses it, by the first of the refusals, or
    /// with `Memory`, which may come before any. It costs the index of the stream and the places of
    /// the steps.
    pub(crate) fn of(
        alloc: Global,
        state: &'a ServerState,
        query: &'a ReadQuery,
        moment: Stamp,
    ) -> Result<Taken<'a>, ReadFault>
        ensures refused { MatchResult result (λ _. read_refusal state.now query.now moment ≡ None) (λ e. Tells (read_refusal state.now query.now moment) e) }
        ensures taken { IfOk result (λ t. t ≡ answer_steps state.now query.now moment) }
    {
        lines_stand(state, query, moment);
        match read(alloc, state, query, moment) {
            Ok(answer) => Ok(Taken {
                state,
                query,
                moment,
                answer,
                given: 0,
            }),
            Err(fault) => Err(fault),
        }
    }

    /// The next step, for which a line can stand; None exactly where none is left. After `Memory`
    /// as many are left as before.
    pub(crate) fn next(&mut self, alloc: Global) -> Result<Option<Step>, Memory>
        ensures gives { GivesNext result self.old self.new }
        ensures stands { IfOk result (λ o. IfSome o CanStandAs) }
    {
        if self.given >= self.answer.steps() {
            return Ok(None);
        }
        let _each = answers_can_stand();
        let step = self.answer.step(alloc, self.state, self.given)?;
        self.given += 1;
        Ok(Some(step))
    }
}

/// A line can stand for each step that answers a query over a database.
fn lines_stand(state: &ServerState, query: &ReadQuery, moment: Stamp)
    ensures { CanStandAll (answer_steps state.now query.now moment) }
{
    let _answers = answers_can_stand();
    let _script = scripts_can_stand();
    states_are_kept(state);
}
