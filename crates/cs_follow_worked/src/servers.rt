ghost use Rattle.std.specs.Prelude.{◌≤◌};

use crate::answers::second;
use crate::following::{tell_run, window};
use crate::reading::read_once;
use crate::scripts::{split_server, two_inserts};
use crate::telling::{tell_moment, tell_number, tell_token};
use cs_link::Batch;
use cs_script::{LineCause, ServerState};
use cs_server::ServerLink;
use cs_types::Memory;
use std::alloc::Global;
use std::test::Fail;

/// How a run over a server, at the tenth second, stops, and its output.
fn tell(
    alloc: Global,
    told: &mut String,
    state: &ServerState,
    start: u32,
    end: u32,
    records: u32,
) -> Result<(), Memory>
    requires { (1 ≤ records) × (records ≤ 8192) }
{
    let window = window(alloc, start, end)?;
    let mut link = ServerLink::new(alloc, state, second(10)?);
    tell_run(alloc, told, &mut link, &window, records)
}

fn pages(alloc: Global) -> Result<String, LineCause> {
    let mut told = String::new(alloc);
    let state = two_inserts(alloc)?;
    tell(alloc, &mut told, &state, 1_000_000, 3_000_000, 1)?;
    tell(alloc, &mut told, &state, 1_000_000, 3_000_000, 1_024)?;
    Ok(told)
}

const PAGES: &str =
    "Ended\n{\"key\":{\"K\":\"1\"},\"kind\":\"INSERT\",\"new\":{\"A\":\"5\",\"B\":\"x\"},\"old\":{},\"stamp\":\"2024-05-01T00:00:01Z\",\"table\":\"T\",\"tx\":\"a\"}\n{\"key\":{\"K\":\"2\"},\"kind\":\"INSERT\",\"new\":{\"A\":\"5\",\"B\":\"x\"},\"old\":{},\"stamp\":\"2024-05-01T00:00:02Z\",\"table\":\"T\",\"tx\":\"b\"}\n{\"watermark\":\"2024-05-01T00:00:01.999999Z\"}\n{\"watermark\":\"2024-05-01T00:00:03Z\"}\nEnded\n{\"key\":{\"K\":\"1\"},\"kind\":\"INSERT\",\"new\":{\"A\":\"5\",\"B\":\"x\"},\"old\":{},\"stamp\":\"2024-05-01T00:00:01Z\",\"table\":\"T\",\"tx\":\"a\"}\n{\"key\":{\"K\":\"2\"},\"kind\":\"INSERT\",\"new\":{\"A\":\"5\",\"B\":\"x\"},\"old\":{},\"stamp\":\"2024-05-01T00:00:02Z\",\"table\":\"T\",\"tx\":\"b\"}\n{\"watermark\":\"2024-05-01T00:00:03Z\"}\n";

#[test]
fn a_page_has_its_watermark(rt: HostRuntime) -> Result<(), Fail> {
    assert_eq!(rt; pages(rt.alloc())?.as_str(), PAGES);
    Ok(())
}

fn splits(alloc: Global) -> Result<String, LineCause> {
    let mut told = String::new(alloc);
    let state = split_server(alloc, 100)?;
    tell(alloc, &mut told, &state, 1_000_000, 10_000_000, 1_024)?;
    let state = split_server(alloc, 1)?;
    tell(alloc, &mut told, &state, 1_000_000, 5_000_000, 1_024)?;
    tell(alloc, &mut told, &state, 1_000_000, 4_999_999, 1_024)?;
    Ok(told)
}

const SPLITS: &str =
    "Ended\n{\"watermark\":\"2024-05-01T00:00:04.999999Z\"}\n{\"key\":{\"K\":\"100\"},\"kind\":\"INSERT\",\"new\":{\"A\":\"5\",\"B\":\"x\"},\"old\":{},\"stamp\":\"2024-05-01T00:00:05Z\",\"table\":\"T\",\"tx\":\"t1\"}\n{\"watermark\":\"2024-05-01T00:00:10Z\"}\nEnded\n{\"watermark\":\"2024-05-01T00:00:04.999999Z\"}\n{\"key\":{\"K\":\"1\"},\"kind\":\"INSERT\",\"new\":{\"A\":\"5\",\"B\":\"x\"},\"old\":{},\"stamp\":\"2024-05-01T00:00:05Z\",\"table\":\"T\",\"tx\":\"t1\"}\n{\"watermark\":\"2024-05-01T00:00:05Z\"}\nEnded\n{\"watermark\":\"2024-05-01T00:00:04.999999Z\"}\n";

#[test]
fn a_split_at_the_moment_of_a_change_stands_before_it(rt: HostRuntime) -> Result<(), Fail> {
    assert_eq!(rt; splits(rt.alloc())?.as_str(), SPLITS);
    Ok(())
}

/// The children of a batch, each with its start and the number of its parents.
fn tell_children(alloc: Global, told: &mut String, batch: &Batch) -> Result<(), Memory> {
    for child in batch.children.as_slice() {
        tell_token(told, &child.token)?;
        tell_moment(alloc, told, child.start.us())?;
        tell_number(alloc, told, child.parents.as_slice().len() as u64)?;
    }
    Ok(())
}

/// The parts that a server lists at the fifth second.
fn listed(alloc: Global, state: &ServerState) -> Result<String, Memory> {
    let mut told = String::new(alloc);
    let mut link = ServerLink::new(alloc, state, second(10)?);
    if let Ok(batch) = read_once(alloc, &mut link, second(5)?, None)? {
        tell_children(alloc, &mut told, &batch)?;
    }
    Ok(told)
}

fn parts(alloc: Global) -> Result<String, LineCause> {
    let state = split_server(alloc, 1)?;
    Ok(listed(alloc, &state)?)
}

#[test]
fn the_parts_at_a_split_are_those_behind_it(rt: HostRuntime) -> Result<(), Fail> {
    assert_eq!(rt; parts(rt.alloc())?.as_str(), " S-00001 +5 0 S-00002 +5 0");
    Ok(())
}
