ghost use Rattle.std.specs.Prelude.{◌≡◌, ◌<◌, ◌≤◌, [], None, Some, IfOk, MatchResult, OnErr, cond, length};
ghost use Rattle.cs_place.specs.declared.part.Part.{Part as part};
ghost use Rattle.cs_link.specs.declared.reading.Step.{Step as AStep};
ghost use Rattle.cs_steps.specs.Cursor.{IsAt, IsStep};
ghost use Rattle.cs_steps.specs.Honest.{IsAccepted};
ghost use Rattle.cs_steps.specs.Query.{Tells};
ghost use Rattle.cs_steps.specs.Refusals.{refusal_by};
ghost use Rattle.cs_steps.specs.Steps.{children_of, steps_of_part, steps_of_start};
ghost use Rattle.cs_read.specs.Asked.{asked_of, steps_asked};
ghost use Rattle.cs_read.specs.Content.{IsReading, GivesNext, source_read, steps_ahead};
ghost use Rattle.cs_read.specs.Laid.{AreSteps};

use crate::IndexedStream;
use crate::children::{children, list_count, live_at};
use crate::laying::{LaidStep, steps_laid};
use crate::spans::{children_from, closing_of, has_ended, span_of, top_of};
use crate::steps::{Material, step};
use cs_link::{Closing, ReadArgs, Step};
use cs_partitions::Layout;
use cs_place::Part;
use cs_records::Child;
use cs_steps::{Cursor, ReadFault, StepPlace, steps_are_those_of_the_records};
use cs_types::{Items, Memory, Stamp, Token};
use std::alloc::Global;

/// A READ of a stream that is being answered. It holds how far its steps were given, and the
/// children that it lists; so a READ which is not read to its end costs no more than what was read
/// of it.
#[derive(Debug, Drop)]
pub struct Reading {
    cursor: Cursor,
    /// The place of the part that is read; none where the parts are listed that are live.
    part: Option<usize>,
    /// From when on the children are live.
    start: Stamp,
    /// The children that are listed at the end.
    children: Items<Child>,
}

impl Reading {
    /// Begins a READ of a stream at a moment, or refuses it: by the first of the refusals from
    /// `Heartbeat` to `StartPastPartition`, or with `Memory`, which may come before any other. It
    /// costs a search for the start and for the end among the records of the part, and the children
    /// that are listed.
    pub fn open(
        alloc: Global,
        of: &IndexedStream<'_>,
        args: &ReadArgs,
        moment: Stamp,
    ) -> Result<Reading, ReadFault>
        ensures refused { MatchResult result (λ _. refusal_by of.now.parts of.now.created of.now.retention_us args.now moment ≡ None) (λ e. Tells (refusal_by of.now.parts of.now.created of.now.retention_us args.now moment) e) }
        ensures reading { IfOk result (λ r. IsReading of.now r) }
        ensures steps { IfOk result (λ r. steps_ahead of.now r ≡ steps_asked of.now.parts of.now.items args.now moment) }
    {
        if let Some(refusal) = of.refusal(args, moment) {
            return Err(ReadFault::Refused(refusal));
        }
        match &args.token {
            None => Ok(of_start(alloc, of, args.start)?),
            Some(token) => Ok(of_token(alloc, of, token, args, moment)?),
        }
    }

    /// The next step; None exactly where none is left. After `Memory` the READ is what it was. It
    /// takes the time of a few comparisons, and what the step costs itself.
    pub fn next(&mut self, alloc: Global, of: &IndexedStream<'_>) -> Result<Option<Step>, Memory>
        requires { IsReading of.now self.old }
        ensures reading { IsReading of.now self.new }
        ensures gives { GivesNext result (steps_ahead of.now self.old) (steps_ahead of.now self.new) }
        ensures err { OnErr result (self.new ≡ self.old) }
    {
        let mut cursor = self.cursor;
        let Some(place) = cursor.advance(of.lines(self.part).records) else {
            return Ok(None);
        };
        let step = self.step_at(alloc, of, &place)?;
        self.cursor = cursor;
        Ok(Some(step))
    }

    /// The step at a place of the answer.
    pub(crate) fn step_at(
        &self,
        alloc: Global,
        of: &IndexedStream<'_>,
        place: &StepPlace,
    ) -> Result<Step, Memory>
        requires reading { IsReading of.now self.now }
        requires there { (x : AStep) × IsStep (source_read of.now self.now) place.now x }
        ensures { (x : AStep) → IsStep (source_read of.now self.now) place.now x → IfOk result (λ y. y ≡ x) }
    {
        let material = Material {
            of,
            lines: of.lines(self.part),
            start: self.start,
            children: self.children.as_slice(),
        };
        step(alloc, &material, place)
    }

    /// The places of all steps that are left.
    pub(crate) fn laid(
        &self,
        alloc: Global,
        of: &IndexedStream<'_>,
    ) -> Result<Items<LaidStep>, Memory>
        requires { IsReading of.now self.now }
        ensures { IfOk result (λ laid. AreSteps (source_read of.now self.now) laid (steps_ahead of.now self.now)) }
    {
        steps_laid(alloc, self.cursor, of.lines(self.part).records)
    }
}

/// A READ without a part.
fn of_start(alloc: Global, of: &IndexedStream<'_>, start: Stamp) -> Result<Reading, Memory>
    ensures reading { IfOk result (λ r. IsReading of.now r) }
    ensures steps { IfOk result (λ r. steps_ahead of.now r ≡ steps_of_start of.now.parts start) }
{
    let children = live_at(alloc, of.layout(), start)?;
    let lists = list_count(children.as_slice());
    let cursor = Cursor::over(&[], start, start, 1, lists, Closing::Finished);
    Ok(Reading {
        cursor,
        part: None,
        start,
        children,
    })
}

/// A READ of the part of a token, which is not refused.
fn of_token(
    alloc: Global,
    of: &IndexedStream<'_>,
    token: &Token,
    args: &ReadArgs,
    moment: Stamp,
) -> Result<Reading, Memory>
    requires token { args.now.token ≡ Some token.now }
    requires accepted { refusal_by of.now.parts of.now.created of.now.retention_us args.now moment ≡ None }
    ensures reading { IfOk result (λ r. IsReading of.now r) }
    ensures steps { IfOk result (λ r. steps_ahead of.now r ≡ steps_asked of.now.parts of.now.items args.now moment) }
{
    let Some(place) = of.layout().index_of(token) else {
        unreachable!();
    };
    let part = &of.layout().parts()[place];
    let _us = moment.us();
    of_part(alloc, of, place, part, args, moment)
}

/// A READ of the part at a place.
fn of_part(
    alloc: Global,
    of: &IndexedStream<'_>,
    place: usize,
    part: &Part,
    args: &ReadArgs,
    moment: Stamp,
) -> Result<Reading, Memory>
    requires at { IsAt of.now.parts place part.now }
    requires accepted { IsAccepted of.now.parts (asked_of args.now moment part.now) }
    ensures reading { IfOk result (λ r. IsReading of.now r) }
    ensures steps { IfOk result (λ r. steps_ahead of.now r ≡ steps_of_part of.now.parts of.now.items (asked_of args.now moment part.now)) }
{
    let _steps = steps_are_those_of_the_records();
    let span = span_of(args, moment);
    let children = children_where(alloc, has_ended(&span, part), of.layout(), place)?;
    let lists = list_count(children.as_slice());
    let top = top_of(&span, part);
    let closing = closing_of(&span, part);
    let lines = of.lines(Some(place));
    let cursor = Cursor::over(lines.records, span.start, top, span.gap, lists, closing);
    Ok(Reading {
        cursor,
        part: Some(place),
        start: children_from(part, span.start),
        children,
    })
}

/// The children of the part at a place, where it has ended.
fn children_where(
    alloc: Global,
    ended: bool,
    layout: &Layout,
    place: usize,
) -> Result<Items<Child>, Memory>
    requires { place < length layout.now.parts }
    ensures children { (p : part) → IsAt layout.now.parts place p → IfOk result (λ l. l ≡ cond ended (children_of layout.now.parts p) []) }
    ensures few { IfOk result (λ l. length l ≤ 65536) }
{
    if ended {
        return children(alloc, layout, place);
    }
    Ok(Items::new(alloc))
}
