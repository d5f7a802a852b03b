// Runs over what earlier ones left.

use crate::answers::{Say, answer, link, second};
use crate::books::{Disks, after_crash, empty_disks, tell_bytes};
use crate::following::{followed, tell_run_over, window};
use crate::scripts::merged_server;
use crate::stops::reads;
use crate::telling::tell_number;
use cs_follow::Outcome;
use cs_link::MemRead;
use cs_script::{LineCause, ServerState};
use cs_server::ServerLink;
use cs_types::{CellsFault, Items, Memory};
use std::alloc::Global;
use std::test::Fail;

/// The answer to one READ and no other.
fn one_read(alloc: Global, says: &[Say<'_>]) -> Result<Items<MemRead>, CellsFault> {
    let mut reads = Items::new(alloc);
    reads.push(answer(alloc, says)?)?;
    Ok(reads)
}

/// How a run of two seconds, one record a batch, over disks and these answers stops, and its output.
fn paged(
    alloc: Global,
    told: &mut String,
    disks: Disks,
    reads: Items<MemRead>,
) -> Result<Disks, Memory> {
    let mut link = link(alloc, reads)?;
    let window = window(alloc, 1_000_000, 2_000_000)?;
    tell_run_over(alloc, told, &mut link, disks, &window, 1)
}

/// Three runs behind each other: the first two have one READ of the part each, which tell its changes in
/// another order.
fn ties(alloc: Global) -> Result<String, CellsFault> {
    let mut told = String::new(alloc);
    let begun = reads(alloc, &[&[Say::Data(1, 1), Say::Data(1, 2), Say::Finished]])?;
    let disks = empty_disks(alloc)?;
    let disks = paged(alloc, &mut told, disks, begun)?;
    let turned = [Say::Data(1, 2), Say::Data(1, 1), Say::Finished];
    let next = one_read(alloc, &turned)?;
    let disks = paged(alloc, &mut told, disks, next)?;
    let last = one_read(alloc, &turned)?;
    let _disks = paged(alloc, &mut told, disks, last)?;
    Ok(told)
}

const TIES: &str =
    "LinkFault\n{\"key\":{\"K\":\"1\"},\"kind\":\"INSERT\",\"new\":{\"A\":\"5\",\"B\":\"x\"},\"old\":{},\"stamp\":\"2024-05-01T00:00:01Z\",\"table\":\"T\",\"tx\":\"t1\"}\nLinkFault\n{\"key\":{\"K\":\"1\"},\"kind\":\"INSERT\",\"new\":{\"A\":\"5\",\"B\":\"x\"},\"old\":{},\"stamp\":\"2024-05-01T00:00:01Z\",\"table\":\"T\",\"tx\":\"t1\"}\n{\"key\":{\"K\":\"2\"},\"kind\":\"INSERT\",\"new\":{\"A\":\"5\",\"B\":\"x\"},\"old\":{},\"stamp\":\"2024-05-01T00:00:01Z\",\"table\":\"T\",\"tx\":\"t2\"}\nEnded\n{\"key\":{\"K\":\"1\"},\"kind\":\"INSERT\",\"new\":{\"A\":\"5\",\"B\":\"x\"},\"old\":{},\"stamp\":\"2024-05-01T00:00:01Z\",\"table\":\"T\",\"tx\":\"t1\"}\n{\"key\":{\"K\":\"2\"},\"kind\":\"INSERT\",\"new\":{\"A\":\"5\",\"B\":\"x\"},\"old\":{},\"stamp\":\"2024-05-01T00:00:01Z\",\"table\":\"T\",\"tx\":\"t2\"}\n{\"watermark\":\"2024-05-01T00:00:02Z\"}\n";

#[test]
fn changes_of_one_stamp_stand_once_over_restarts(rt: HostRuntime) -> Result<(), Fail> {
    assert_eq!(rt; ties(rt.alloc())?.as_str(), TIES);
    Ok(())
}

/// A run over disks in the window of the merge, and whether it ended.
fn merging(alloc: Global, disks: Disks, state: &ServerState) -> Result<(bool, Disks), Memory> {
    let window = window(alloc, 3_000_000, 8_000_000)?;
    let mut link = ServerLink::new(alloc, state, second(10)?);
    let (outcome, disks) = followed(alloc, &mut link, disks, &window, 0, 1_024)?;
    match outcome {
        Some(Outcome::Ended) => Ok((true, disks)),
        _ => Ok((false, disks)),
    }
}

/// Empty disks, of which one stops at a call.
fn stopping(alloc: Global, of_output: bool, stop: u64, image: u64) -> Result<Disks, Memory> {
    let Disks { journal, output } = empty_disks(alloc)?;
    if of_output {
        return Ok(Disks {
            journal,
            output: output.fused(stop, image),
        });
    }
    Ok(Disks {
        journal: journal.fused(stop, image),
        output,
    })
}

/// Two runs with a crash between them.
#[derive(Drop)]
struct Pair {
    /// Whether the first one ended.
    had_ended: bool,
    /// The output behind the second one.
    output: String,
}

/// A run over disks of which one stops at this call, and one over what a crash then leaves.
fn over_a_crash(
    alloc: Global,
    state: &ServerState,
    of_output: bool,
    stop: u64,
    image: u64,
) -> Result<Pair, Memory> {
    let disks = stopping(alloc, of_output, stop, image)?;
    let (had_ended, disks) = merging(alloc, disks, state)?;
    let disks = after_crash(disks)?;
    let (_has_ended, disks) = merging(alloc, disks, state)?;
    let mut output = String::new(alloc);
    tell_bytes(&mut output, &disks.output)?;
    Ok(Pair { had_ended, output })
}

/// Of the crashes at the first so many calls of a disk: how many runs had ended before, and how many
/// outputs are the merge's behind the next run.
fn tell_crashes(
    alloc: Global,
    told: &mut String,
    of_output: bool,
    calls: u64,
    image: u64,
) -> Result<(), LineCause> {
    let state = merged_server(alloc)?;
    let mut ended = 0u64;
    let mut right = 0u64;
    for stop in 0..calls {
        let pair = over_a_crash(alloc, &state, of_output, stop, image)?;
        if pair.had_ended {
            ended = ended.saturating_add(1);
        }
        if pair.output.as_str() == MERGED {
            right = right.saturating_add(1);
        }
    }
    tell_number(alloc, told, ended)?;
    Ok(tell_number(alloc, told, right)?)
}

const MERGED: &str =
    "{\"key\":{\"K\":\"1\"},\"kind\":\"INSERT\",\"new\":{\"A\":\"5\",\"B\":\"x\"},\"old\":{},\"stamp\":\"2024-05-01T00:00:03Z\",\"table\":\"T\",\"tx\":\"a\"}\n{\"key\":{\"K\":\"200\"},\"kind\":\"INSERT\",\"new\":{\"A\":\"5\",\"B\":\"x\"},\"old\":{},\"stamp\":\"2024-05-01T00:00:04Z\",\"table\":\"T\",\"tx\":\"b\"}\n{\"watermark\":\"2024-05-01T00:00:05.999999Z\"}\n{\"key\":{\"K\":\"2\"},\"kind\":\"INSERT\",\"new\":{\"A\":\"5\",\"B\":\"x\"},\"old\":{},\"stamp\":\"2024-05-01T00:00:07Z\",\"table\":\"T\",\"tx\":\"c\"}\n{\"watermark\":\"2024-05-01T00:00:08Z\"}\n";

/// A crash image in which of all calls since the last sync nothing is left, all, the front half, or sevens.
const IMAGES: [u64; 4] = [0, 0x5555_5500, 0xaaaa_aa00, 0xffff_ff07];

/// What crashes at 30 calls of the journal and at 20 of the output do, for each image.
fn crashes(alloc: Global) -> Result<String, LineCause> {
    let mut told = String::new(alloc);
    for image in IMAGES {
        tell_crashes(alloc, &mut told, false, 30, image)?;
        tell_crashes(alloc, &mut told, true, 20, image)?;
    }
    Ok(told)
}

/// The run makes 24 calls of the journal and 10 of the output.
const CRASHES: &str = " 6 30 10 20 6 30 10 20 6 30 10 20 6 30 10 20";

#[test]
fn a_run_goes_on_behind_a_crash_at_any_call(rt: HostRuntime) -> Result<(), Fail> {
    assert_eq!(rt; crashes(rt.alloc())?.as_str(), CRASHES);
    Ok(())
}
