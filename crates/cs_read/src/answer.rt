ghost use Rattle.std.specs.Prelude.{◌≡◌, ◌<◌, List, None, IfOk, MatchResult, length};
ghost use Rattle.cs_link.specs.declared.reading.Step.{Step as AStep};
ghost use Rattle.cs_steps.specs.Cursor.{IsAt};
ghost use Rattle.cs_steps.specs.Query.{Tells};
ghost use Rattle.cs_steps.specs.Refusals.{refusal_by};
ghost use Rattle.cs_index.specs.Index.{IsStreamIndex};
ghost use Rattle.cs_script.specs.Database.{Database};
ghost use Rattle.cs_read.specs.Answers.{read_refusal, answer_steps};
ghost use Rattle.cs_read.specs.Asked.{steps_asked};
ghost use Rattle.cs_read.specs.Content.{IsReading, source_read};
ghost use Rattle.cs_read.specs.declared.laying.LaidStep.{LaidStep as ALaid};
ghost use Rattle.cs_read.specs.Laid.{AreSteps, place_of};
ghost use Rattle.cs_read.specs.Whole.{IsAnswer, content_of};

use crate::laying::{LaidStep, place_of};
use crate::{IndexedStream, Reading};
use cs_ddl::ReadQuery;
use cs_index::{StreamIndex, stream_index};
use cs_link::{ReadArgs, Step};
use cs_partitions::Layout;
use cs_schema::Stream;
use cs_script::ServerState;
use cs_steps::{ReadFault, StepPlace, read_args, refusal};
use cs_types::{Items, Memory, Stamp};
use std::alloc::Global;

/// The answer to a READ: the places of all of its steps, and not the steps themselves.
#[derive(Debug, Drop)]
pub struct Answer {
    /// The place of the stream that is read.
    stream: usize,
    index: StreamIndex,
    reading: Reading,
    laid: Items<LaidStep>,
}

/// Answers a query at a moment, or refuses it: by the first refusal of those from `UnknownFunction`
/// to `StartPastPartition` that holds, or with `Memory`, which may come before any other. It makes
/// the index of the stream, which costs a capture of each modification, and lays out the places of
/// at most 8,192 records, of the child records and of a closing.
pub fn read(
    alloc: Global,
    state: &ServerState,
    query: &ReadQuery,
    moment: Stamp,
) -> Result<Answer, ReadFault>
    ensures refused { MatchResult result (λ _. read_refusal state.now query.now moment ≡ None) (λ e. Tells (read_refusal state.now query.now moment) e) }
    ensures answer { IfOk result (λ a. IsAnswer state.now (answer_steps state.now query.now moment) a) }
{
    let (place, args) = read_args(alloc, state.catalog().streams(), query)?;
    let stream = &state.catalog().streams()[place];
    let layout = &state.layouts()[place];
    answer_over(alloc, state, place, stream, layout, &args, moment)
}

impl Answer {
    /// The number of steps.
    pub fn steps(&self) -> usize
        ensures { (db : Database) (all : List AStep) → IsAnswer db all self.now → result ≡ length all }
    {
        self.laid.as_slice().len()
    }

    /// The step at an index, over the state that the answer was made of. It takes time in the size
    /// of the step.
    pub fn step(&self, alloc: Global, state: &ServerState, index: usize) -> Result<Step, Memory>
        requires { (all : List AStep) × IsAnswer state.now all self.now × (index < length all) }
        ensures { (all : List AStep) → IsAnswer state.now all self.now → IfOk result (λ step. IsAt all index step) }
    {
        let of = IndexedStream::of(
            state.catalog(),
            &state.catalog().streams()[self.stream],
            &state.layouts()[self.stream],
            state.history().modifications(),
            &self.index,
        );
        let place = place_at(self.laid.as_slice(), index);
        self.reading.step_at(alloc, &of, &place)
    }
}

/// The place of the step at an index.
fn place_at(laid: &[LaidStep], index: usize) -> StepPlace
    requires { index < length laid.now }
    ensures { (step : ALaid) → IsAt laid.now index step → result ≡ place_of step }
{
    place_of(laid[index])
}

/// The answer to a READ of the stream at a place.
fn answer_over(
    alloc: Global,
    state: &ServerState,
    place: usize,
    stream: &Stream,
    layout: &Layout,
    args: &ReadArgs,
    moment: Stamp,
) -> Result<Answer, ReadFault>
    requires stream { IsAt state.now.streams place stream.now }
    requires layout { IsAt state.now.layouts place layout.now }
    ensures refused { MatchResult result (λ _. refusal_by layout.now.parts stream.now.created stream.now.retention_us args.now moment ≡ None) (λ e. Tells (refusal_by layout.now.parts stream.now.created stream.now.retention_us args.now moment) e) }
    ensures answer { IfOk result (λ a. IsAnswer state.now (steps_asked layout.now.parts (content_of state.now stream.now layout.now).items args.now moment) a) }
{
    if let Some(refusal) = refusal(args, stream, layout, moment) {
        return Err(ReadFault::Refused(refusal));
    }
    let index = stream_index(alloc, state.catalog(), stream, layout, state.history())?;
    let (reading, laid) = laid_over(alloc, state, stream, layout, &index, args, moment)?;
    Ok(Answer {
        stream: place,
        index,
        reading,
        laid,
    })
}

fn laid_over(
    alloc: Global,
    state: &ServerState,
    stream: &Stream,
    layout: &Layout,
    index: &StreamIndex,
    args: &ReadArgs,
    moment: Stamp,
) -> Result<(Reading, Items<LaidStep>), ReadFault>
    requires { IsStreamIndex state.now.tables stream.now layout.now.parts state.now.modifications index.now }
    ensures refused { MatchResult result (λ _. refusal_by layout.now.parts stream.now.created stream.now.retention_us args.now moment ≡ None) (λ e. Tells (refusal_by layout.now.parts stream.now.created stream.now.retention_us args.now moment) e) }
    ensures reading { IfOk result (λ x. IsReading (content_of state.now stream.now layout.now) x.0) }
    ensures steps { IfOk result (λ x. AreSteps (source_read (content_of state.now stream.now layout.now) x.0) x.1 (steps_asked layout.now.parts (content_of state.now stream.now layout.now).items args.now moment)) }
{
    let of = IndexedStream::of(
        state.catalog(),
        stream,
        layout,
        state.history().modifications(),
        index,
    );
    opened(alloc, &of, args, moment)
}

/// A READ of a stream, with the places of all of its steps.
fn opened(
    alloc: Global,
    of: &IndexedStream<'_>,
    args: &ReadArgs,
    moment: Stamp,
) -> Result<(Reading, Items<LaidStep>), ReadFault>
    ensures refused { MatchResult result (λ _. refusal_by of.now.parts of.now.created of.now.retention_us args.now moment ≡ None) (λ e. Tells (refusal_by of.now.parts of.now.created of.now.retention_us args.now moment) e) }
    ensures reading { IfOk result (λ x. IsReading of.now x.0) }
    ensures steps { IfOk result (λ x. AreSteps (source_read of.now x.0) x.1 (steps_asked of.now.parts of.now.items args.now moment)) }
{
    let reading = Reading::open(alloc, of, args, moment)?;
    let laid = reading.laid(alloc, of)?;
    Ok((reading, laid))
}
