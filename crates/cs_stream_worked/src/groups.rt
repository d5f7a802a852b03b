use crate::making::inserts;
use cs_records::{DataRecord, group};
use cs_types::{Memory, Stamp};
use std::alloc::Global;
use std::test::Fail;

/// The mods, the sequence and whether it is the last, of each record.
fn told(alloc: Global, records: &[DataRecord]) -> Result<String, Memory> {
    let mut told = String::new(alloc);
    for record in records {
        let mods = record.mods.as_slice().len();
        let sequence = record.sequence;
        let one = format!(in alloc; "{mods} {sequence}")?;
        told.push_str(one.as_str())?;
        told.push_str(if record.is_last { " last" } else { ", " })?;
    }
    Ok(told)
}

fn grouped(alloc: Global, stamp: Stamp) -> Result<String, Memory> {
    let items = inserts(alloc, stamp)?;
    let records = group(alloc, items.as_slice(), 4)?;
    told(alloc, records.as_slice())
}

#[test]
fn thirty_three_inserts_are_two_records(rt: HostRuntime) -> Result<(), Fail> {
    let Some(stamp) = Stamp::of(1) else {
        panic!(rt; "no stamp");
    };
    assert_eq!(rt; grouped(rt.alloc(), stamp)?.as_str(), "32 4, 1 5 last");
    Ok(())
}
