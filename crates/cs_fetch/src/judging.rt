ghost use Rattle.std.specs.Prelude.{◌≡◌, [], nat_lt, nat_le};
ghost use Rattle.cs_fetch.specs.Breach.{offended, outside_of, crowded, stamp_breach, beat_offends, beat_breach, part_start_offends, start_breach, moment_offends, part_end_breach, first_end_breach, end_breach};
ghost use Rattle.cs_link.specs.Reading.{end_of};
ghost use Rattle.cs_fetch.specs.SoFar.{count_at};

use crate::so_far::Marks;
use cs_link::{Breach, Closing, Known, NewChild, ReadArgs};
use cs_types::Stamp;

/// The most data records of one stamp.
const MOST_AT_STAMP: u64 = 1024;

/// How many records there are before a READ may be cut.
const LEAST_BEFORE_CUT: u64 = 8192;

/// The last moment that is read.
pub(crate) fn end_of(args: &ReadArgs) -> Stamp
    ensures { result ≡ end_of args.now }
{
    match args.end {
        Some(end) => end,
        None => match Stamp::of(Stamp::GREATEST) {
            Some(end) => end,
            None => unreachable!(),
        },
    }
}

/// The value, where the stamp is below it.
fn above(stamp: Stamp, value: Option<Stamp>) -> Option<Stamp>
    ensures { result ≡ offended (nat_lt stamp) value }
{
    let Some(value) = value else {
        return None;
    };
    if stamp < value { Some(value) } else { None }
}

/// The value, where the stamp is not above it.
fn not_below(stamp: Stamp, value: Option<Stamp>) -> Option<Stamp>
    ensures { result ≡ offended (nat_le stamp) value }
{
    let Some(value) = value else {
        return None;
    };
    if stamp <= value { Some(value) } else { None }
}

/// The start, where the stamp is below it, or else the end, where it is above it.
fn outside(args: &ReadArgs, stamp: Stamp) -> Option<Stamp>
    ensures { result ≡ outside_of args.now stamp }
{
    if stamp < args.start {
        return Some(args.start);
    }
    let end = end_of(args);
    if end < stamp { Some(end) } else { None }
}

/// How many data records so far have the stamp.
pub(crate) fn count_at(marks: &Marks, stamp: Stamp) -> u64
    ensures { result ≡ count_at marks.now stamp }
{
    match marks.last {
        None => 0,
        Some(last) => { if last == stamp { marks.at_last } else { 0 } }
    }
}

/// What a data record of this stamp breaks.
pub(crate) fn stamp_breach(args: &ReadArgs, marks: &Marks, stamp: Stamp) -> Option<Breach>
    ensures { result ≡ stamp_breach args.now marks.now stamp }
{
    if let Some(last) = above(stamp, marks.last) {
        return Some(Breach::StampFell(last, stamp));
    }
    if let Some(bound) = outside(args, stamp) {
        return Some(Breach::OutOfWindow(stamp, bound));
    }
    if let Some(beat) = not_below(stamp, marks.beat) {
        return Some(Breach::BelowHeartbeat(stamp, beat));
    }
    if let Some(start) = marks.listed {
        return Some(Breach::AfterChildren(stamp, start));
    }
    let None = &args.token else {
        return crowded(marks, stamp);
    };
    let count = marks.records.saturating_add(1);
    Some(Breach::InitialWrong(count, count))
}

fn crowded(marks: &Marks, stamp: Stamp) -> Option<Breach>
    ensures { result ≡ crowded marks.now stamp }
{
    if MOST_AT_STAMP < count_at(marks, stamp).saturating_add(1) {
        return Some(Breach::TooManyAtStamp(stamp, MOST_AT_STAMP));
    }
    None
}

/// The first value that a heartbeat offends.
fn beat_offends(args: &ReadArgs, marks: &Marks, at: Stamp) -> Option<Stamp>
    ensures { result ≡ beat_offends args.now marks.now at }
{
    if let Some(bound) = outside(args, at) {
        return Some(bound);
    }
    if let Some(beat) = not_below(at, marks.beat) {
        return Some(beat);
    }
    above(at, marks.last)
}

/// What a heartbeat breaks.
pub(crate) fn beat_breach(args: &ReadArgs, marks: &Marks, at: Stamp) -> Option<Breach>
    ensures { result ≡ beat_breach args.now marks.now at }
{
    if let Some(value) = beat_offends(args, marks, at) {
        return Some(Breach::HeartbeatWrong(at, value));
    }
    if let Some(start) = marks.listed {
        return Some(Breach::AfterChildren(at, start));
    }
    let None = &args.token else {
        return None;
    };
    let count = marks.records.saturating_add(1);
    Some(Breach::InitialWrong(count, count))
}

/// The first value that the start of a child record of a part offends.
fn part_start_offends(args: &ReadArgs, marks: &Marks, start: Stamp) -> Option<Stamp>
    ensures { result ≡ part_start_offends args.now marks.now start }
{
    if start <= args.start {
        return Some(args.start);
    }
    if let Some(last) = not_below(start, marks.last) {
        return Some(last);
    }
    if let Some(beat) = not_below(start, marks.beat) {
        return Some(beat);
    }
    let end = end_of(args);
    if end < start {
        return Some(end);
    }
    match marks.listed {
        None => None,
        Some(earlier) => {
            if earlier == start {
                None
            } else {
                Some(earlier)
            }
        }
    }
}

/// What the start of a child record breaks.
pub(crate) fn start_breach(args: &ReadArgs, marks: &Marks, start: Stamp) -> Option<Breach>
    ensures { result ≡ start_breach args.now marks.now start }
{
    let value = match &args.token {
        Some(_) => part_start_offends(args, marks, start),
        None => {
            if start == args.start {
                None
            } else {
                Some(args.start)
            }
        }
    };
    match value {
        None => None,
        Some(value) => Some(Breach::ChildStart(start, value)),
    }
}

/// The first value that a moment offends that a READ of a part caught up with, in microseconds.
fn moment_offends(args: &ReadArgs, known: &Known, marks: &Marks, at: Stamp) -> Option<u64>
    ensures { result ≡ moment_offends args.now known.now marks.now at }
{
    let end = end_of(args);
    if end <= at {
        return Some(end.us());
    }
    if at.us() < known.through {
        return Some(known.through);
    }
    if let Some(last) = above(at, marks.last) {
        return Some(last.us());
    }
    if let Some(beat) = above(at, marks.beat) {
        return Some(beat.us());
    }
    match marks.listed {
        None => None,
        Some(start) => Some(start.us()),
    }
}

/// What the end of a READ of a part breaks.
fn part_end_breach(
    args: &ReadArgs,
    known: &Known,
    marks: &Marks,
    closing: &Closing,
) -> Option<Breach>
    ensures { result ≡ part_end_breach args.now known.now marks.now closing.now }
{
    match closing {
        Closing::Finished => None,
        Closing::CaughtUp(at) => match moment_offends(args, known, marks, *at) {
            None => None,
            Some(value) => Some(Breach::CaughtUpWrong(*at, value)),
        },
        Closing::Cut => {
            if marks.records < LEAST_BEFORE_CUT {
                return Some(Breach::CutEarly(marks.records, LEAST_BEFORE_CUT));
            }
            match marks.listed {
                None => None,
                Some(_) => Some(Breach::CutEarly(marks.records, LEAST_BEFORE_CUT)),
            }
        }
    }
}

/// What the end of a READ without a part breaks.
fn first_end_breach(marks: &Marks, children: &[NewChild], closing: &Closing) -> Option<Breach>
    ensures { result ≡ first_end_breach (record { marks = marks.now; changes = []; children = children.now }) closing.now }
{
    let count = marks.records;
    match closing {
        Closing::Finished => {
            if children.is_empty() {
                return Some(Breach::InitialWrong(count, count));
            }
            None
        }
        Closing::CaughtUp(_) | Closing::Cut => Some(Breach::InitialWrong(count, count)),
    }
}

/// What the end of a READ breaks.
pub(crate) fn end_breach(
    args: &ReadArgs,
    known: &Known,
    marks: &Marks,
    children: &[NewChild],
    closing: &Closing,
) -> Option<Breach>
    ensures { result ≡ end_breach args.now known.now (record { marks = marks.now; changes = []; children = children.now }) closing.now }
{
    match &args.token {
        Some(_) => part_end_breach(args, known, marks, closing),
        None => first_end_breach(marks, children, closing),
    }
}
