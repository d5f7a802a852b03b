// Journals and outputs that fail, or have no room.

use crate::objects::{Objects, disk, objects_behind, sound_disk, sound_objects, told};
use crate::scripts::{ENDED, INSERT, ONE};
use cs_device::MemDisk;
use cs_types::Memory;
use std::alloc::Global;
use std::test::Fail;

/// The objects of the insert's run over these disks.
fn objects_over(alloc: Global, journal: MemDisk, output: MemDisk) -> Result<Objects, Memory> {
    let mut all = sound_objects(alloc, INSERT, b"", b"")?;
    all.journal = journal;
    all.output = output;
    Ok(all)
}

/// What a run over these disks tells, and then what one over what it left tells.
fn told_twice(alloc: Global, journal: MemDisk, output: MemDisk) -> Result<String, Memory> {
    let mut all = objects_over(alloc, journal, output)?;
    let mut both = told(alloc, ONE, &mut all)?;
    let mut next = objects_behind(alloc, INSERT, &all)?;
    let second = told(alloc, ONE, &mut next)?;
    both.push_str(second.as_str())?;
    Ok(both)
}

fn over_a_full_journal(alloc: Global) -> Result<String, Memory> {
    let journal = disk(alloc, b"", 60, &[])?;
    told_twice(alloc, journal, sound_disk(alloc, b"")?)
}

/// The journal has no room for its third entry, and the first two are whole; then it has.
const FULL_JOURNAL: &str =
    "40|40 JournalFault\n|50||0|0 Ended\n|154|{\"key\":{\"K\":\"1\"},\"kind\":\"INSERT\",\"new\":{\"A\":\"5\",\"B\":\"x\"},\"old\":{},\"stamp\":\"2024-05-01T00:00:01Z\",\"table\":\"T\",\"tx\":\"t1\"}\n{\"watermark\":\"2024-05-01T00:00:01Z\"}\n|";

#[test]
fn a_run_goes_on_behind_a_full_journal(rt: HostRuntime) -> Result<(), Fail> {
    assert_eq!(rt; over_a_full_journal(rt.alloc())?.as_str(), FULL_JOURNAL);
    Ok(())
}

fn over_a_full_output(alloc: Global) -> Result<String, Memory> {
    let output = disk(alloc, b"", 100, &[])?;
    told_twice(alloc, sound_disk(alloc, b"")?, output)
}

/// The output has no room for the lines of an entry, which the journal has; then it has.
const FULL_OUTPUT: &str =
    "41|41 OutputFault\n|154||0|0 Ended\n|154|{\"key\":{\"K\":\"1\"},\"kind\":\"INSERT\",\"new\":{\"A\":\"5\",\"B\":\"x\"},\"old\":{},\"stamp\":\"2024-05-01T00:00:01Z\",\"table\":\"T\",\"tx\":\"t1\"}\n{\"watermark\":\"2024-05-01T00:00:01Z\"}\n|";

#[test]
fn a_run_goes_on_behind_a_full_output(rt: HostRuntime) -> Result<(), Fail> {
    assert_eq!(rt; over_a_full_output(rt.alloc())?.as_str(), FULL_OUTPUT);
    Ok(())
}

/// What runs over disks tell of which the journal fails at one call, or the output does.
fn failing(alloc: Global, of_output: bool, call: u64) -> Result<String, Memory> {
    let failing = disk(alloc, b"", 2000, &[call])?;
    let sound = sound_disk(alloc, b"")?;
    if of_output {
        return told_twice(alloc, sound, failing);
    }
    told_twice(alloc, failing, sound)
}

/// Of the first so many calls: how many of those that fail are told by this status, and behind how many
/// the next run ends.
fn tell_faults(alloc: Global, of_output: bool, calls: u64, status: &str) -> Result<String, Memory> {
    let mut faults = 0u64;
    let mut ends = 0u64;
    for call in 0..calls {
        let told = failing(alloc, of_output, call)?;
        if told.as_str().starts_with(status) {
            faults = faults.saturating_add(1);
        }
        if told.as_str().ends_with(ENDED) {
            ends = ends.saturating_add(1);
        }
    }
    Ok(format!(in alloc; "{faults} {ends}")?)
}

#[test]
fn a_run_goes_on_behind_each_failed_call_of_the_journal(rt: HostRuntime) -> Result<(), Fail> {
    let told = tell_faults(rt.alloc(), false, 40, "40|40 JournalFault\n|")?;
    assert_eq!(rt; told.as_str(), "16 40");
    Ok(())
}

#[test]
fn a_run_goes_on_behind_each_failed_call_of_the_output(rt: HostRuntime) -> Result<(), Fail> {
    let told = tell_faults(rt.alloc(), true, 20, "41|41 OutputFault\n|")?;
    assert_eq!(rt; told.as_str(), "6 20");
    Ok(())
}
