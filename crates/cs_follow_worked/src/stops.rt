use crate::answers::{Say, answer, link, step};
use crate::following::{tell_run, window};
use cs_link::MemRead;
use cs_types::{CellsFault, Duplicate, Items, Memory};
use std::alloc::Global;
use std::test::Fail;

/// The answers to the READ of the parts at the start, of which there is one, and to those after it.
pub fn reads(alloc: Global, answers: &[&[Say<'_>]]) -> Result<Items<MemRead>, CellsFault> {
    let mut reads = Items::new(alloc);
    reads.push(answer(alloc, &[Say::Child(1, 0, &[]), Say::Finished])?)?;
    for says in answers {
        reads.push(answer(alloc, says)?)?;
    }
    Ok(reads)
}

/// A line of how a run of ten seconds over these answers stops, and its output.
fn tell(alloc: Global, told: &mut String, reads: Items<MemRead>) -> Result<(), Memory> {
    let mut link = link(alloc, reads)?;
    let window = window(alloc, 1_000_000, 10_000_000)?;
    tell_run(alloc, told, &mut link, &window, 1_024)
}

/// One child, told again and again.
fn again(alloc: Global) -> Result<MemRead, CellsFault> {
    let child = step(alloc, Say::Child(2, 1, &[0]))?;
    let mut steps = Items::new(alloc);
    for _ in 0..9_000u32 {
        steps.push(child.copy()?)?;
    }
    Ok(MemRead::Steps(steps))
}

fn stops(alloc: Global) -> Result<String, CellsFault> {
    let mut told = String::new(alloc);
    let mut endless = reads(alloc, &[])?;
    endless.push(again(alloc)?)?;
    tell(alloc, &mut told, endless)?;
    let falling = reads(alloc, &[&[Say::Data(3, 1), Say::Data(2, 2)]])?;
    tell(alloc, &mut told, falling)?;
    let waiting = reads(alloc, &[&[Say::Child(5, 1, &[0, 9]), Say::Finished]])?;
    tell(alloc, &mut told, waiting)?;
    Ok(told)
}

const STOPS: &str =
    "Stalled S-00000 8192\nBreach StampFell +3 +2\nBreach Orphan S-00001 S-00009\n{\"watermark\":\"2024-05-01T00:00:04.999999Z\"}\n";

#[test]
fn a_follower_stops_where_it_cannot_go_on(rt: HostRuntime) -> Result<(), Fail> {
    assert_eq!(rt; stops(rt.alloc())?.as_str(), STOPS);
    Ok(())
}

/// How a run of two seconds, one record a batch, over these answers stops, and its output.
fn paged(alloc: Global, told: &mut String, reads: Items<MemRead>) -> Result<(), Memory> {
    let mut link = link(alloc, reads)?;
    let window = window(alloc, 1_000_000, 2_000_000)?;
    tell_run(alloc, told, &mut link, &window, 1)
}

fn ties(alloc: Global) -> Result<String, CellsFault> {
    let mut told = String::new(alloc);
    let first = [Say::Data(1, 1), Say::Data(1, 2), Say::Finished];
    let turned = [Say::Data(1, 2), Say::Data(1, 1), Say::Finished];
    let begun = reads(alloc, &[&first])?;
    paged(alloc, &mut told, begun)?;
    let whole = reads(alloc, &[&first, &turned, &turned])?;
    paged(alloc, &mut told, whole)?;
    Ok(told)
}

const TIES: &str =
    "LinkFault\n{\"key\":{\"K\":\"1\"},\"kind\":\"INSERT\",\"new\":{\"A\":\"5\",\"B\":\"x\"},\"old\":{},\"stamp\":\"2024-05-01T00:00:01Z\",\"table\":\"T\",\"tx\":\"t1\"}\nEnded\n{\"key\":{\"K\":\"1\"},\"kind\":\"INSERT\",\"new\":{\"A\":\"5\",\"B\":\"x\"},\"old\":{},\"stamp\":\"2024-05-01T00:00:01Z\",\"table\":\"T\",\"tx\":\"t1\"}\n{\"key\":{\"K\":\"2\"},\"kind\":\"INSERT\",\"new\":{\"A\":\"5\",\"B\":\"x\"},\"old\":{},\"stamp\":\"2024-05-01T00:00:01Z\",\"table\":\"T\",\"tx\":\"t2\"}\n{\"watermark\":\"2024-05-01T00:00:02Z\"}\n";

#[test]
fn changes_of_one_stamp_come_page_by_page(rt: HostRuntime) -> Result<(), Fail> {
    assert_eq!(rt; ties(rt.alloc())?.as_str(), TIES);
    Ok(())
}
