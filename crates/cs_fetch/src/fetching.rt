ghost use Rattle.std.specs.Prelude.{◌≡◌, None, IfOk, OnOk};
ghost use Rattle.cs_fetch.specs.Breach.{record_breach, end_breach};
ghost use Rattle.cs_fetch.specs.Fetch.{none_counted, counted_in, idled, is_past, is_full, finish, closed_by, filled, most_calls};
ghost use Rattle.cs_link.specs.Reading.{end_of};
ghost use Rattle.cs_fetch.specs.SoFar.{adds, with_record};
ghost use Rattle.cs_fetch.specs.Turn.{IsRecordTurn, IsEndTurn, IsTurn};
ghost use Rattle.cs_fetch.specs.Went.{went_of};

use crate::FetchFault;
use crate::judging::{end_breach, end_of};
use crate::kept::SeenSet;
use crate::so_far::{SoFar, Tally};
use crate::taken::{Taken, Turn, Went};
use cs_link::{Batch, Closing, Ending, Known, Limits, NewChild, ReadArgs, Step};
use cs_records::Record;
use cs_types::{Change, Duplicate, Items, Memory};
use std::alloc::Global;

/// How many records in a row may add nothing.
const MOST_IDLE: u32 = 8192;

impl Tally {
    pub(crate) fn none() -> Tally
        ensures { result ≡ none_counted }
    {
        Tally {
            count: 0,
            weight: 0,
            idle: 0,
        }
    }

    /// After a record that adds something. Child records count for no limit.
    fn counted_in(&self, item: &Record) -> Tally
        ensures { result ≡ counted_in self.now item.now }
    {
        let weight = self.weight.saturating_add(item.weight());
        match item {
            Record::Children(_) => Tally {
                count: self.count,
                weight: self.weight,
                idle: 0,
            },
            Record::Change(_) | Record::Heartbeat(_) => Tally {
                count: self.count.saturating_add(1),
                weight,
                idle: 0,
            },
        }
    }

    /// After a record that adds nothing.
    fn idled(&self) -> Tally
        ensures { result ≡ idled self.now }
    {
        Tally {
            count: self.count,
            weight: self.weight,
            idle: self.idle.saturating_add(1),
        }
    }

    /// Whether a batch is full with a record that adds something.
    fn is_full(&self, limits: &Limits, item: &Record) -> bool
        ensures { result ≡ is_full limits.now self.now item.now }
    {
        match item {
            Record::Children(_) => false,
            Record::Change(_) | Record::Heartbeat(_) => self.is_past(limits),
        }
    }

    fn is_past(&self, limits: &Limits) -> bool
        ensures { result ≡ is_past limits.now self.now }
    {
        if u64::from(limits.records) <= self.count {
            return true;
        }
        u64::from(limits.bytes) < self.weight
    }
}

/// The most calls of `next` that one READ makes.
pub(crate) fn most_calls(limits: &Limits) -> u64
    ensures { result ≡ most_calls limits.now }
{
    8192 * (u64::from(limits.records) + 8193)
}

/// Up to where all is known at the end of a READ, in microseconds since 1970.
fn finish(args: &ReadArgs, children: &[NewChild]) -> u64
    ensures { result ≡ finish (end_of args.now) children.now }
{
    let [first, ..] = children else {
        return end_of(args).us();
    };
    first.start.us() - 1
}

fn batch_of(
    args: &ReadArgs,
    through: u64,
    changes: Items<Change>,
    children: Items<NewChild>,
    ending: Ending,
) -> Result<Batch, Memory>
    ensures { IfOk result (λ batch. batch ≡ record { token = args.now.token; start = args.now.start; through = through; changes = changes; children = children; ending = ending }) }
{
    let token = match &args.token {
        None => None,
        Some(token) => Some(token.copy()?),
    };
    Ok(Batch {
        token,
        start: args.start,
        through,
        changes,
        children,
        ending,
    })
}

/// The batch at the end of a READ. It takes the changes and the children out.
fn closed(
    alloc: Global,
    args: &ReadArgs,
    so_far: &mut SoFar,
    closing: &Closing,
) -> Result<Batch, Memory>
    ensures { IfOk result (λ batch. batch ≡ closed_by args.now so_far.old closing.now) }
{
    let marks = so_far.marks;
    let changes = so_far.changes.take(alloc);
    match closing {
        Closing::Finished => {
            let through = marks.through.max(finish(args, so_far.children.as_slice()));
            let children = so_far.children.take(alloc);
            batch_of(args, through, changes, children, Ending::Finished)
        }
        Closing::CaughtUp(at) => {
            let through = marks.through.max(at.us());
            batch_of(
                args,
                through,
                changes,
                Items::new(alloc),
                Ending::CaughtUp(*at),
            )
        }
        Closing::Cut => batch_of(args, marks.through, changes, Items::new(alloc), Ending::Cut),
    }
}

/// The batch of which no more is taken. It takes the changes out.
fn filled(alloc: Global, args: &ReadArgs, so_far: &mut SoFar) -> Result<Batch, Memory>
    ensures { IfOk result (λ batch. batch ≡ filled args.now so_far.old) }
{
    let changes = so_far.changes.take(alloc);
    batch_of(
        args,
        so_far.marks.through,
        changes,
        Items::new(alloc),
        Ending::Full,
    )
}

impl SoFar {
    /// Takes one more record, and says how the READ goes on with it.
    fn go(
        &mut self,
        alloc: Global,
        args: &ReadArgs,
        known: &Known,
        seen: &SeenSet,
        limits: &Limits,
        tally: &Tally,
        item: &Record,
    ) -> Result<Went, Memory>
        requires { seen.now ≡ known.now.seen }
        ensures went { IfOk result (λ went. went ≡ went_of limits.now tally.now item.now (record_breach args.now self.old item.now) (adds known.now self.old item.now)) }
        ensures so_far { OnOk result (record_breach args.now self.old item.now ≡ None → self.new ≡ with_record known.now self.old item.now) }
    {
        let adds = match self.take(alloc, args, known, seen, item)? {
            Taken::Breaks(breach) => return Ok(Went::Breaks(breach)),
            Taken::Took(adds) => adds,
        };
        if !adds {
            let idled = tally.idled();
            if u64::from(MOST_IDLE) <= idled.idle {
                return Ok(Went::Stalls);
            }
            return Ok(Went::On(idled));
        }
        let counted = tally.counted_in(item);
        if counted.is_full(limits, item) {
            return Ok(Went::Fills);
        }
        Ok(Went::On(counted))
    }

    /// Takes one more record, and gives the batch where it fills it.
    fn turn_record(
        &mut self,
        alloc: Global,
        args: &ReadArgs,
        known: &Known,
        seen: &SeenSet,
        limits: &Limits,
        tally: &Tally,
        item: &Record,
    ) -> Result<Turn, FetchFault>
        requires { seen.now ≡ known.now.seen }
        ensures { IsRecordTurn args.now (with_record known.now self.old item.now) self.new (went_of limits.now tally.now item.now (record_breach args.now self.old item.now) (adds known.now self.old item.now)) result }
    {
        match self.go(alloc, args, known, seen, limits, tally, item)? {
            Went::Breaks(breach) => Err(FetchFault::Breach(breach)),
            Went::Fills => Ok(Turn::Gives(filled(alloc, args, self)?)),
            Went::Stalls => Err(FetchFault::Stalled(MOST_IDLE)),
            Went::On(counted) => Ok(Turn::On(counted)),
        }
    }

    /// Takes one more step, and gives the batch where it is the last.
    pub(crate) fn turn(
        &mut self,
        alloc: Global,
        args: &ReadArgs,
        known: &Known,
        seen: &SeenSet,
        limits: &Limits,
        tally: &Tally,
        step: &Step,
    ) -> Result<Turn, FetchFault>
        requires { seen.now ≡ known.now.seen }
        ensures { IsTurn args.now known.now limits.now self.old self.new tally.now step.now result }
    {
        match step {
            Step::Record(item) => self.turn_record(alloc, args, known, seen, limits, tally, item),
            Step::Closing(closing) => end(alloc, args, known, self, closing),
        }
    }
}

/// Gives the batch at the end of a READ.
fn end(
    alloc: Global,
    args: &ReadArgs,
    known: &Known,
    so_far: &mut SoFar,
    closing: &Closing,
) -> Result<Turn, FetchFault>
    ensures { IsEndTurn (end_breach args.now known.now so_far.old closing.now) (closed_by args.now so_far.old closing.now) result }
{
    if let Some(breach) = end_breach(
        args,
        known,
        &so_far.marks,
        so_far.children.as_slice(),
        closing,
    ) {
        return Err(FetchFault::Breach(breach));
    }
    Ok(Turn::Gives(closed(alloc, args, so_far, closing)?))
}
