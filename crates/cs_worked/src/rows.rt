use crate::making::{cells_of, insert, row};
use cs_types::{Cells, CellsFault, Change, Duplicate, Memory, Stamp, Text, Value};
use std::alloc::Global;
use std::cmp::Ordering;
use std::test::Fail;

fn is_same(one: &Change, other: &Change) -> bool {
    one.stamp == other.stamp && one.tx == other.tx && one.row == other.row
}

fn is_copied(alloc: Global, stamp: Stamp) -> Result<bool, CellsFault> {
    let change = insert(alloc, stamp, 1)?;
    let copy = change.copy()?;
    Ok(is_same(&copy, &change) && copy.new == change.new && copy.kind == change.kind)
}

#[test]
fn a_change_is_copied(rt: HostRuntime) -> Result<(), Fail> {
    let Some(stamp) = Stamp::of(7) else {
        panic!(rt; "no stamp");
    };
    assert!(rt; is_copied(rt.alloc(), stamp)?);
    Ok(())
}

fn is_row(alloc: Global, one: i64, other: i64) -> Result<bool, CellsFault> {
    let one = row(alloc, one)?;
    let other = row(alloc, other)?;
    Ok(one.is(&other))
}

#[test]
fn a_row_is_the_row_of_its_key(rt: HostRuntime) -> Result<(), Fail> {
    assert!(rt; is_row(rt.alloc(), 1, 1)?);
    Ok(())
}

#[test]
fn a_row_of_another_key_is_another(rt: HostRuntime) -> Result<(), Fail> {
    assert!(rt; !is_row(rt.alloc(), 1, 2)?);
    Ok(())
}

fn ordered(alloc: Global, one: i64, other: i64) -> Result<Ordering, CellsFault> {
    let one = row(alloc, one)?;
    let other = row(alloc, other)?;
    Ok(one.cmp(&other))
}

#[test]
fn rows_are_in_the_order_of_their_keys(rt: HostRuntime) -> Result<(), Fail> {
    assert_eq!(rt; ordered(rt.alloc(), -1, 1)?, Ordering::Less);
    Ok(())
}

/// The first column of cells, or the column at fault.
fn told(alloc: Global, cells: Result<Cells, CellsFault>) -> Result<String, Memory> {
    match cells {
        Ok(cells) => match cells.items() {
            [first, ..] => Ok(String::from_str(alloc, first.column.as_str())?),
            [] => Ok(String::from_str(alloc, "none")?),
        },
        Err(CellsFault::ColumnTwice(column)) => {
            Ok(format!(in alloc; "twice {}", column.as_str())?)
        }
        Err(CellsFault::OutOfRange(column)) => {
            Ok(format!(in alloc; "outside {}", column.as_str())?)
        }
        Err(CellsFault::Memory) => Err(Memory),
    }
}

/// What cells of these columns, each with this value, are put to.
fn first_of(alloc: Global, columns: &[&str], value: &Value) -> Result<String, Memory> {
    let cells = Cells::of(cells_of(alloc, columns, value)?);
    told(alloc, cells)
}

#[test]
fn cells_are_put_in_order(rt: HostRuntime) -> Result<(), Fail> {
    let first = first_of(rt.alloc(), &["B", "A"], &Value::Null)?;
    assert_eq!(rt; first.as_str(), "A");
    Ok(())
}

#[test]
fn a_column_twice_is_named_first(rt: HostRuntime) -> Result<(), Fail> {
    let outside = Value::Numeric(Value::NUMERIC_END);
    let first = first_of(rt.alloc(), &["A", "B", "B", "A"], &outside)?;
    assert_eq!(rt; first.as_str(), "twice B");
    Ok(())
}

#[test]
fn the_first_value_out_of_range_is_named(rt: HostRuntime) -> Result<(), Fail> {
    let outside = Value::Numeric(Value::NUMERIC_END);
    let first = first_of(rt.alloc(), &["B", "A"], &outside)?;
    assert_eq!(rt; first.as_str(), "outside B");
    Ok(())
}

fn is_fault_copied(alloc: Global) -> Result<bool, Memory> {
    let fault = CellsFault::ColumnTwice(Text::of(alloc, "A")?);
    match fault.copy()? {
        CellsFault::ColumnTwice(column) => Ok(column.as_str() == "A"),
        _ => Ok(false),
    }
}

#[test]
fn a_fault_of_cells_is_copied(rt: HostRuntime) -> Result<(), Fail> {
    assert!(rt; is_fault_copied(rt.alloc())?);
    Ok(())
}
