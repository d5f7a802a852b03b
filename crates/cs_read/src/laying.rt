ghost use Rattle.std.specs.Prelude.{◌≡◌, ◌≤◌, IfOk, length};
ghost use Rattle.cs_steps.specs.declared.cursor.StepPlace.{StepPlace as APlace};
ghost use Rattle.cs_steps.specs.Cursor.{Source, HaveStamps, IsCursor, steps_left};
ghost use Rattle.cs_read.specs.Laid.{AreSteps, place_of};

use cs_link::Closing;
use cs_steps::{Cursor, RecordPlace, StepPlace};
use cs_types::{Items, Memory, Stamp};
use std::alloc::Global;

/// One step of an answer that was laid out, by its place.
#[derive(Clone, Copy, Debug, PartialEq, Eq)]
pub(crate) enum LaidStep {
    /// The data record at this place among those of the part.
    Record(usize),
    Heartbeat(Stamp),
    /// The child record at this place among those of the answer.
    Children(usize),
    Finished,
    CaughtUp(Stamp),
    Cut,
}

fn laid_closing(closing: Closing) -> LaidStep
    ensures { place_of result ≡ APlace.Closing closing }
{
    match closing {
        Closing::Finished => LaidStep::Finished,
        Closing::CaughtUp(moment) => LaidStep::CaughtUp(moment),
        Closing::Cut => LaidStep::Cut,
    }
}

fn laid(place: StepPlace) -> LaidStep
    ensures { place_of result ≡ place }
{
    match place {
        StepPlace::Record(place) => LaidStep::Record(place),
        StepPlace::Heartbeat(at) => LaidStep::Heartbeat(at),
        StepPlace::Children(place) => LaidStep::Children(place),
        StepPlace::Closing(closing) => laid_closing(closing),
    }
}

/// The place of a step.
pub(crate) fn place_of(step: LaidStep) -> StepPlace
    ensures { result ≡ place_of step }
{
    match step {
        LaidStep::Record(place) => StepPlace::Record(place),
        LaidStep::Heartbeat(at) => StepPlace::Heartbeat(at),
        LaidStep::Children(place) => StepPlace::Children(place),
        LaidStep::Finished => StepPlace::Closing(Closing::Finished),
        LaidStep::CaughtUp(moment) => StepPlace::Closing(Closing::CaughtUp(moment)),
        LaidStep::Cut => StepPlace::Closing(Closing::Cut),
    }
}

/// The places of all steps that are left, in their order. It takes time in their number.
pub(crate) fn steps_laid(
    alloc: Global,
    cursor: Cursor,
    records: &[RecordPlace],
) -> Result<Items<LaidStep>, Memory>
    requires within { cursor.end ≤ length records.now }
    requires gap { 1 ≤ cursor.gap }
    ensures { (s : Source) → IsCursor s cursor → HaveStamps records.now s.records → IfOk result (λ steps. AreSteps s steps (steps_left s cursor)) }
{
    let mut cursor = cursor;
    let mut steps = Items::new(alloc);
    while let Some(place) = cursor.advance(records) {
        steps.push(laid(place))?;
    }
    Ok(steps)
}
