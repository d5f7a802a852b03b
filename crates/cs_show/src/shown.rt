ghost use Rattle.std.specs.Prelude.{◌≡◌, ◌≤◌, ◌<◌, None, IfOk, IfErr, OnOk, MatchResult, length, string_bytes};
ghost use Rattle.std.specs.Io.KnownBytes.{Appends};
ghost use Rattle.cs_link.specs.declared.reading.Step.{Step as AStep};
ghost use Rattle.cs_read.specs.Answers.{read_refusal, answer_steps};
ghost use Rattle.cs_steps.specs.Cursor.{IsAt};
ghost use Rattle.cs_steps.specs.Query.{Tells};
ghost use Rattle.cs_answer_lines.specs.StepLine.{CanStandAs};
ghost use Rattle.cs_show.specs.Lines.{line_text, lines_text};
ghost use Rattle.cs_show.specs.Written.{CanStandAll, IsUnwritten, IsStepFault};

use cs_answer_lines::{answers_can_stand, scripts_can_stand, step_line};
use cs_ddl::ReadQuery;
use cs_device::Sink;
use cs_link::Step;
use cs_read::{Answer, read, states_are_kept};
use cs_script::ServerState;
use cs_steps::ReadFault;
use cs_types::{Memory, Stamp};
use std::alloc::Global;
use std::marker::Model;

/// Why not all lines were written.
#[derive(Clone, Copy, Debug, PartialEq, Eq)]
pub enum ShowFault {
    /// The console failed. Its count of faults rose.
    Console,
    /// There was not enough memory. The lines of the first steps were written, but not all.
    Memory,
}

impl From<Memory> for ShowFault {
    ghost use Rattle.std.specs.Prelude.{◌≡◌};
    ghost use Rattle.cs_show.specs.declared.shown.ShowFault.TheVariants.{Memory as memory};

    ghost from_gives = { λ _ e. e ≡ memory };

    fn from(_: Memory) -> ShowFault {
        ShowFault::Memory
    }
}

/// A query that is taken at a moment over a scripted database, and is not refused. Contracts see
/// the steps that answer it.
#[derive(Drop)]
pub struct Shown {
    state: ServerState,
    query: ReadQuery,
    moment: Stamp,
    answer: Answer,
}

impl Model for Shown {
    ghost use Rattle.std.specs.Prelude.{List};
    ghost use Rattle.cs_link.specs.declared.reading.Step.{Step};
    ghost use Rattle.cs_read.specs.Answers.{answer_steps};
    ghost use Rattle.cs_read.specs.Whole.{IsAnswer};
    ghost use Rattle.cs_show.specs.Written.{CanStandAll};

    ghost Value = { List Step };

    ghost view = { λ s. answer_steps s.state s.query s.moment };

    ghost invariant = { λ s. IsAnswer s.state (answer_steps s.state s.query s.moment) s.answer × CanStandAll (answer_steps s.state s.query s.moment) };
}

impl Shown {
    /// Takes a query at a moment over a database, or refuses it, by the first of the refusals, or
    /// with `Memory`, which may come before any. It costs the index of the stream and the places of
    /// the steps.
    pub fn of(
        alloc: Global,
        state: ServerState,
        query: ReadQuery,
        moment: Stamp,
    ) -> Result<Shown, ReadFault>
        ensures refused { MatchResult result (λ _. read_refusal state query moment ≡ None) (λ e. Tells (read_refusal state query moment) e) }
        ensures shown { IfOk result (λ s. s ≡ answer_steps state query moment) }
    {
        lines_stand(&state, &query, moment);
        match read(alloc, &state, &query, moment) {
            Ok(answer) => Ok(Shown {
                state,
                query,
                moment,
                answer,
            }),
            Err(fault) => Err(fault),
        }
    }

    /// Writes the line of each step, with its end, as the step is made. No more than one step is
    /// held. It takes the time of the steps and of their lines.
    pub fn write<W: Sink>(&self, alloc: Global, console: &mut W) -> Result<(), ShowFault>
        ensures written { OnOk result (Appends (W.taken console.old) (W.taken console.new) (lines_text self.now)) }
        ensures calm { OnOk result (W.faults console.new ≡ W.faults console.old) }
        ensures cause { IfErr result (IsUnwritten self.now (W.taken console.old) (W.taken console.new) (W.faults console.old) (W.faults console.new)) }
        ensures object { W.same console.old console.new }
        ensures later { W.faults console.old ≤ W.faults console.new }
    {
        let count = self.answer.steps();
        for index in 0..count {
            match self.write_step(alloc, console, index) {
                Ok(()) => (),
                Err(fault) => return Err(fault),
            }
        }
        Ok(())
    }

    /// Writes the line of the step at a place.
    fn write_step<W: Sink>(
        &self,
        alloc: Global,
        console: &mut W,
        index: usize,
    ) -> Result<(), ShowFault>
        requires { index < length self.now }
        ensures written { OnOk result ((step : AStep) × IsAt self.now index step × Appends (W.taken console.old) (W.taken console.new) (line_text step)) }
        ensures calm { OnOk result (W.faults console.new ≡ W.faults console.old) }
        ensures cause { IfErr result (IsStepFault (W.taken console.old) (W.taken console.new) (W.faults console.old) (W.faults console.new)) }
        ensures object { W.same console.old console.new }
        ensures later { W.faults console.old ≤ W.faults console.new }
    {
        let step = self.step(alloc, index)?;
        let line = line_of(alloc, &step)?;
        match console.write(line.as_bytes()) {
            Ok(()) => Ok(()),
            Err(_) => Err(ShowFault::Console),
        }
    }

    /// The step at a place, for which a line can stand.
    fn step(&self, alloc: Global, index: usize) -> Result<Step, Memory>
        requires { index < length self.now }
        ensures step { IfOk result (IsAt self.now index) }
        ensures stands { IfOk result CanStandAs }
    {
        let _each = answers_can_stand();
        self.answer.step(alloc, &self.state, index)
    }
}

/// A line can stand for each step that answers a query over a database.
fn lines_stand(state: &ServerState, query: &ReadQuery, moment: Stamp)
    ensures { CanStandAll (answer_steps state.now query.now moment) }
{
    let _answers = answers_can_stand();
    let _script = scripts_can_stand();
    states_are_kept(state);
}

/// The line of a step, with its end.
fn line_of(alloc: Global, step: &Step) -> Result<String, Memory>
    requires { CanStandAs step.now }
    ensures { IfOk result (λ s. string_bytes s ≡ line_text step.now) }
{
    let line = step_line(alloc, step)?;
    let mut text = String::from_str(alloc, line.as_str())?;
    text.push_str("\n")?;
    Ok(text)
}
