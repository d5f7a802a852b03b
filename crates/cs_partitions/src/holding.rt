ghost use Rattle.cs_place.specs.Layout.{HasOnePart};
ghost use Rattle.cs_partitions.specs.Tokens.{AreOfOneStream};
ghost use Rattle.cs_partitions.specs.Views.{IsHolder};

use crate::finding::{index_named, part_at, part_named};
use cs_place::{Part, Place};
use cs_types::{Duplicate, Memory, Stamp, Token};
use std::collections::BTreeMap;

/// The index of the parent that has a place, where one of these tokens is of such a part.
fn parent_with(parts: &[Part], parents: &[Token], place: &Place) -> Option<usize>
    requires { AreOfOneStream parts.now }
{
    for token in parents {
        if let Some(part) = part_named(parts, token) {
            if part.range.holds(place) {
                return index_named(parts, token);
            }
        }
    }
    None
}

/// The index of a part that may have a place at a moment, which is left to be checked: from the
/// live part that the starts lead to, back along the parents that have the place.
fn guess(
    parts: &[Part],
    starts: &BTreeMap<Place, usize>,
    place: &Place,
    moment: Stamp,
) -> Option<usize>
    requires { AreOfOneStream parts.now }
{
    let (_, start) = starts.range(..=place).next_back()?;
    let mut index = *start;
    for _ in 0..parts.len() {
        let part = part_at(parts, index)?;
        if part.from <= moment {
            return Some(index);
        }
        index = parent_with(parts, part.parents.as_slice(), place)?;
    }
    None
}

fn first_holder(parts: &[Part], place: &Place, moment: Stamp) -> usize
    requires { HasOnePart parts.now place.now moment }
    ensures { IsHolder parts.now place.now moment result }
{
    for index in 0..parts.len() {
        if parts[index].holds(place, moment) {
            return index;
        }
    }
    unreachable!()
}

/// The index of the part that has a place at a moment. The starts are a hint: each part that they
/// lead to is checked, and all parts are looked at where it is another.
pub(crate) fn holder(
    parts: &[Part],
    starts: &BTreeMap<Place, usize>,
    place: &Place,
    moment: Stamp,
) -> usize
    requires stream { AreOfOneStream parts.now }
    requires one { HasOnePart parts.now place.now moment }
    ensures { IsHolder parts.now place.now moment result }
{
    let Some(index) = guess(parts, starts, place, moment) else {
        return first_holder(parts, place, moment);
    };
    if index >= parts.len() {
        return first_holder(parts, place, moment);
    }
    if !parts[index].holds(place, moment) {
        return first_holder(parts, place, moment);
    }
    index
}

/// Leads to the new parts from their lows, and no more from those of the parts that they follow.
pub(crate) fn put_starts(
    starts: &mut BTreeMap<Place, usize>,
    parts: &[Part],
    tokens: &[Token],
    added: &[Part],
) -> Result<(), Memory>
    requires { AreOfOneStream parts.now }
{
    for token in tokens {
        if let Some(part) = part_named(parts, token) {
            starts.remove(&part.range.low);
        }
    }
    for index in 0..added.len() {
        starts.insert(added[index].range.low.copy()?, parts.len() + index)?;
    }
    Ok(())
}
