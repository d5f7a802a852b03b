use cs_place::{Part, Place, Range, table_place};
use cs_types::{Duplicate, Items, Memory, Stamp, Text, Token};
use std::alloc::Global;
use std::test::Fail;

fn place(alloc: Global, table: &str) -> Result<Place, Memory> {
    let table = Text::of(alloc, table)?;
    table_place(alloc, &table)
}

fn range(alloc: Global) -> Result<Range, Memory> {
    Ok(Range {
        low: place(alloc, "M")?,
        high: Some(place(alloc, "T")?),
    })
}

/// A part of the tables from M to before T, from one stamp to before another.
fn part(alloc: Global, from: Stamp, until: Stamp) -> Result<Option<Part>, Memory> {
    let Some(token) = Token::of(alloc, b"p1")? else {
        return Ok(None);
    };
    let part = Part {
        token,
        parents: Items::new(alloc),
        range: range(alloc)?,
        from,
        until: Some(until),
    };
    Ok(Some(part.copy()?))
}

/// Whether the part from 5 to 9 holds the place of a table at a moment.
fn holds(alloc: Global, table: &str, moment: u64) -> Result<Option<bool>, Memory> {
    let (Some(from), Some(until)) = (Stamp::of(5), Stamp::of(9)) else {
        return Ok(None);
    };
    let (Some(moment), Some(part)) = (Stamp::of(moment), part(alloc, from, until)?) else {
        return Ok(None);
    };
    let place = place(alloc, table)?;
    Ok(Some(part.holds(&place, moment)))
}

#[test]
fn a_part_holds_its_low_place_at_its_beginning(rt: HostRuntime) -> Result<(), Fail> {
    assert_eq!(rt; holds(rt.alloc(), "M", 5)?, Some(true));
    Ok(())
}

#[test]
fn its_high_place_is_outside(rt: HostRuntime) -> Result<(), Fail> {
    assert_eq!(rt; holds(rt.alloc(), "T", 5)?, Some(false));
    Ok(())
}

#[test]
fn it_holds_nothing_at_its_end(rt: HostRuntime) -> Result<(), Fail> {
    assert_eq!(rt; holds(rt.alloc(), "M", 9)?, Some(false));
    Ok(())
}
