use crate::making::{data_record, insert};
use cs_records::{Child, ChildRecord, LineFault, Record, RecordFault};
use cs_types::{CellsFault, Duplicate, Items, Memory, Stamp, Text, Token};
use std::alloc::Global;
use std::test::Fail;

fn columns_of_copy(alloc: Global, stamp: Stamp) -> Result<usize, Memory> {
    let item = insert(alloc, stamp, 1)?;
    let copy = item.copy()?;
    Ok(copy.columns.as_slice().len())
}

#[test]
fn a_captured_change_is_copied(rt: HostRuntime) -> Result<(), Fail> {
    let Some(stamp) = Stamp::of(1) else {
        panic!(rt; "no stamp");
    };
    assert_eq!(rt; columns_of_copy(rt.alloc(), stamp)?, 1);
    Ok(())
}

fn weight_of_copy(alloc: Global, stamp: Stamp) -> Result<u64, CellsFault> {
    let record = Record::Change(data_record(alloc, stamp, 1)?);
    let copy = record.copy()?;
    Ok(copy.weight())
}

#[test]
fn a_data_record_is_copied(rt: HostRuntime) -> Result<(), Fail> {
    let Some(stamp) = Stamp::of(1) else {
        panic!(rt; "no stamp");
    };
    assert_eq!(rt; weight_of_copy(rt.alloc(), stamp)?, 2);
    Ok(())
}

fn child(alloc: Global, token: Token) -> Result<Child, Memory> {
    let mut parents = Items::new(alloc);
    parents.push(token.copy()?)?;
    Ok(Child { token, parents })
}

fn child_record(alloc: Global, start: Stamp, token: Token) -> Result<ChildRecord, Memory> {
    let mut children = Items::new(alloc);
    children.push(child(alloc, token)?)?;
    Ok(ChildRecord {
        start,
        sequence: 0,
        children,
    })
}

/// The children of a copy of a record of one child.
fn children_of_copy(alloc: Global, start: Stamp) -> Result<Option<usize>, Memory> {
    let Some(token) = Token::of(alloc, b"p")? else {
        return Ok(None);
    };
    let record = Record::Children(child_record(alloc, start, token)?);
    match record.copy()? {
        Record::Children(item) => Ok(Some(item.children.as_slice().len())),
        _ => Ok(None),
    }
}

#[test]
fn a_child_record_is_copied(rt: HostRuntime) -> Result<(), Fail> {
    let Some(start) = Stamp::of(1) else {
        panic!(rt; "no stamp");
    };
    assert_eq!(rt; children_of_copy(rt.alloc(), start)?, Some(1));
    Ok(())
}

fn is_line_fault_copied(alloc: Global) -> Result<bool, Memory> {
    let fault = LineFault::Member(Text::of(alloc, "mods")?);
    match fault.copy()? {
        LineFault::Member(name) => Ok(name.as_str() == "mods"),
        _ => Ok(false),
    }
}

#[test]
fn a_fault_of_a_line_is_copied(rt: HostRuntime) -> Result<(), Fail> {
    assert!(rt; is_line_fault_copied(rt.alloc())?);
    Ok(())
}

fn is_record_fault_copied(alloc: Global) -> Result<bool, Memory> {
    let fault = RecordFault::KeyMissing(Text::of(alloc, "K")?);
    match fault.copy()? {
        RecordFault::KeyMissing(name) => Ok(name.as_str() == "K"),
        _ => Ok(false),
    }
}

#[test]
fn a_fault_of_a_record_is_copied(rt: HostRuntime) -> Result<(), Fail> {
    assert!(rt; is_record_fault_copied(rt.alloc())?);
    Ok(())
}
