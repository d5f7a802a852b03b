use crate::making::data_record;
use cs_records::{DataRecord, RecordFault, changes_of};
use cs_types::{CellsFault, Memory, Stamp};
use std::alloc::Global;
use std::test::Fail;

/// How many changes a record tells, or the table of the row that stands twice.
fn told(alloc: Global, record: &DataRecord) -> Result<String, Memory> {
    let changes = changes_of(alloc, record);
    match changes {
        Ok(changes) => {
            let count = changes.as_slice().len();
            Ok(format!(in alloc; "{count}")?)
        }
        Err(RecordFault::KeyTwice(row)) => Ok(format!(in alloc; "twice {}", row.table.as_str())?),
        Err(RecordFault::KeyMissing(_)) => Ok(format!(in alloc; "missing")?),
        Err(RecordFault::Memory) => Err(Memory),
    }
}

fn told_by(alloc: Global, stamp: Stamp, mods: u32) -> Result<String, CellsFault> {
    let record = data_record(alloc, stamp, mods)?;
    Ok(told(alloc, &record)?)
}

#[test]
fn a_record_tells_its_changes(rt: HostRuntime) -> Result<(), Fail> {
    let Some(stamp) = Stamp::of(1) else {
        panic!(rt; "no stamp");
    };
    assert_eq!(rt; told_by(rt.alloc(), stamp, 1)?.as_str(), "1");
    Ok(())
}

#[test]
fn a_key_twice_is_named(rt: HostRuntime) -> Result<(), Fail> {
    let Some(stamp) = Stamp::of(1) else {
        panic!(rt; "no stamp");
    };
    assert_eq!(rt; told_by(rt.alloc(), stamp, 2)?.as_str(), "twice T");
    Ok(())
}
