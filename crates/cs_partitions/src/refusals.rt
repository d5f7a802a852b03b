ghost use Rattle.std.specs.Prelude.{◌≡◌, ◌<◌, ◌≤◌, ◌^◌, suc, None, Some, IfOk, MatchResult};
ghost use Rattle.cs_partitions.specs.Fault.{not_memory, ended, goes_on, go_on, are_neighbours, divides, all_divide, rise_from, are_rising, begin_before, shape_fault, number_fault};
ghost use Rattle.cs_partitions.specs.Reshape.{joined_range, last_high};

use crate::LayoutFault;
use cs_place::{Part, Place, Range};
use cs_types::{Duplicate, Items, Memory, Stamp};
use std::alloc::Global;
use std::cmp::Ordering;

fn none_ended(named: &[Part]) -> Result<(), LayoutFault>
    ensures { MatchResult result (λ _. ended named.now ≡ None) (λ e. not_memory e → ended named.now ≡ Some e) }
{
    for part in named {
        if let Some(_) = part.until {
            return Err(LayoutFault::NotLive(part.token.copy()?));
        }
    }
    Ok(())
}

fn goes_on(high: &Option<Place>, low: &Place) -> bool
    ensures { result ≡ goes_on high.now low.now }
{
    match high {
        Some(high) => match high.bytes.cmp(&low.bytes) {
            Ordering::Equal => true,
            _ => false,
        },
        None => false,
    }
}

fn go_on(first: &Part, rest: &[Part]) -> bool
    ensures { result ≡ go_on first.now.range.high rest.now }
{
    let mut last = first;
    for part in rest {
        if !goes_on(&last.range.high, &part.range.low) {
            return false;
        }
        last = part;
    }
    true
}

fn are_neighbours(named: &[Part]) -> bool
    ensures { result ≡ are_neighbours named.now }
{
    match named {
        [first, rest @ ..] => go_on(first, rest),
        [] => false,
    }
}

/// The range of neighbours: from the low of the first to the end of the last.
pub(crate) fn joined_range(alloc: Global, named: &[Part]) -> Result<Range, Memory>
    ensures { IfOk result (λ range. range ≡ joined_range named.now) }
{
    match named {
        [first, rest @ ..] => range_from(first, rest),
        [] => Ok(Range {
            low: Place {
                bytes: Items::new(alloc),
            },
            high: None,
        }),
    }
}

fn range_from(first: &Part, rest: &[Part]) -> Result<Range, Memory>
    ensures { IfOk result (λ range. (range.low ≡ first.now.range.low) × (range.high ≡ last_high first.now.range.high rest.now)) }
{
    let mut last = first;
    for part in rest {
        last = part;
    }
    let high = match &last.range.high {
        Some(high) => Some(high.copy()?),
        None => None,
    };
    Ok(Range {
        low: first.range.low.copy()?,
        high,
    })
}

fn divides(range: &Range, place: &Place) -> bool
    ensures { result ≡ divides range.now place.now }
{
    range.low < *place && range.is_below_high(place)
}

fn all_divide(range: &Range, borders: &[Place]) -> bool
    ensures { result ≡ all_divide range.now borders.now }
{
    for border in borders {
        if !divides(range, border) {
            return false;
        }
    }
    true
}

fn rise_from(first: &Place, rest: &[Place]) -> bool
    ensures { result ≡ rise_from first.now rest.now }
{
    let mut last = first;
    for border in rest {
        if !(*last < *border) {
            return false;
        }
        last = border;
    }
    true
}

fn are_rising(borders: &[Place]) -> bool
    ensures { result ≡ are_rising borders.now }
{
    match borders {
        [first, rest @ ..] => rise_from(first, rest),
        [] => true,
    }
}

fn begin_before(at: Stamp, named: &[Part]) -> bool
    ensures { result ≡ begin_before at named.now }
{
    for part in named {
        if !(part.from < at) {
            return false;
        }
    }
    true
}

/// The refusals of the parts that are named, whose range is given, and of the borders.
pub(crate) fn check_shape(
    named: &[Part],
    range: &Range,
    at: Stamp,
    borders: &[Place],
) -> Result<(), LayoutFault>
    requires { range.now ≡ joined_range named.now }
    ensures { MatchResult result (λ _. shape_fault named.now at borders.now ≡ None) (λ e. not_memory e → shape_fault named.now at borders.now ≡ Some e) }
{
    none_ended(named)?;
    if !are_neighbours(named) {
        return Err(LayoutFault::NotNeighbours);
    }
    if !all_divide(range, borders) {
        return Err(LayoutFault::BorderOutside);
    }
    if !are_rising(borders) {
        return Err(LayoutFault::BordersNotRising);
    }
    if !begin_before(at, named) {
        return Err(LayoutFault::StampNotAfter);
    }
    Ok(())
}

/// The most parts of a stream.
const MOST_PARTS: usize = 65_536;
/// The most parts that a reshape names or makes.
const MOST_WIDE: usize = 64;

/// The refusals of numbers, where there are so many parts, so many are named, and there are so
/// many borders.
pub(crate) fn check_numbers(parts: usize, named: usize, borders: usize) -> Result<(), LayoutFault>
    requires parts { parts ≤ 65536 }
    requires borders { borders < 2 ^ 63 }
    ensures { MatchResult result (λ _. number_fault parts named (suc borders) ≡ None) (λ e. not_memory e → number_fault parts named (suc borders) ≡ Some e) }
{
    if MOST_PARTS < parts + borders + 1 {
        return Err(LayoutFault::TooManyParts(65_536));
    }
    if MOST_WIDE < named {
        return Err(LayoutFault::TooWide(64));
    }
    if MOST_WIDE < borders + 1 {
        return Err(LayoutFault::TooWide(64));
    }
    Ok(())
}
