use crate::answers::{Say, answer, children, link, second, step, token, tokens};
use crate::reading::read_once;
use crate::telling::tell_fault;
use cs_link::MemRead;
use cs_types::{CellsFault, Items, Memory, Token};
use std::alloc::Global;
use std::test::Fail;

/// What is told of a READ of a part, or of none, of which nothing is known so far.
fn tell_read(
    alloc: Global,
    told: &mut String,
    token: Option<Token>,
    read: MemRead,
) -> Result<(), Memory> {
    let mut reads = Items::new(alloc);
    reads.push(read)?;
    let mut link = link(alloc, reads)?;
    match read_once(alloc, &mut link, second(1)?, token)? {
        Ok(_batch) => told.push_str("a batch")?,
        Err(fault) => tell_fault(alloc, told, &fault)?,
    }
    told.push_str("\n")?;
    Ok(())
}

/// A line of what is told of a READ of the first part that is answered so.
fn tell(alloc: Global, told: &mut String, says: &[Say<'_>]) -> Result<(), CellsFault> {
    let token = token(alloc, 0)?;
    let read = answer(alloc, says)?;
    Ok(tell_read(alloc, told, Some(token), read)?)
}

/// What is told of stamps that do not fit.
fn tell_stamps(alloc: Global, told: &mut String) -> Result<(), CellsFault> {
    tell(alloc, told, &[Say::Data(3, 1), Say::Data(2, 2)])?;
    tell(alloc, told, &[Say::Data(11, 1)])?;
    tell(alloc, told, &[Say::Heartbeat(4), Say::Heartbeat(4)])?;
    tell(alloc, told, &[Say::Heartbeat(4), Say::Data(4, 1)])
}

/// What is told of children that do not fit.
fn tell_children(alloc: Global, told: &mut String) -> Result<(), CellsFault> {
    tell(alloc, told, &[Say::Child(5, 1, &[0]), Say::Data(6, 1)])?;
    tell(alloc, told, &[Say::Data(5, 1), Say::Child(5, 1, &[0])])?;
    tell(
        alloc,
        told,
        &[Say::Child(5, 1, &[0]), Say::Child(5, 1, &[0, 2])],
    )?;
    tell(alloc, told, &[Say::Child(5, 1, &[9])])
}

/// What is told of ends that do not fit, and of a record that tells no changes.
fn tell_ends(alloc: Global, told: &mut String) -> Result<(), CellsFault> {
    let read = answer(alloc, &[Say::Finished])?;
    tell_read(alloc, told, None, read)?;
    tell(alloc, told, &[Say::CaughtUp(10)])?;
    tell(alloc, told, &[Say::Data(3, 1), Say::Cut])?;
    tell(alloc, told, &[Say::Twice(3, 1)])
}

fn lies(alloc: Global) -> Result<String, CellsFault> {
    let mut told = String::new(alloc);
    tell_stamps(alloc, &mut told)?;
    tell_children(alloc, &mut told)?;
    tell_ends(alloc, &mut told)?;
    Ok(told)
}

const LIES: &str =
    "StampFell +3 +2\nOutOfWindow +11 +10\nHeartbeatWrong +4 +4\nBelowHeartbeat +4 +4\nAfterChildren +6 +5\nChildStart +5 +5\nChildDiffers S-00001 S-00001\nParentMissing S-00001 S-00000\nInitialWrong 0 0\nCaughtUpWrong +10 +10\nCutEarly 1 8192\nBadRecord 1 KeyTwice\n";

#[test]
fn a_lie_is_told_by_its_breach(rt: HostRuntime) -> Result<(), Fail> {
    assert_eq!(rt; lies(rt.alloc())?.as_str(), LIES);
    Ok(())
}

/// So many inserts of one moment, each of a row and a transaction of its own.
fn inserts(alloc: Global, count: u32) -> Result<MemRead, CellsFault> {
    let mut steps = Items::new(alloc);
    for number in 0..count {
        steps.push(step(alloc, Say::Data(3, number))?)?;
    }
    Ok(MemRead::Steps(steps))
}

/// The tokens from a number on that one record of children names.
fn a_thousand(alloc: Global, record: u32) -> Result<Items<Token>, Memory> {
    let mut tokens = Items::new(alloc);
    for number in 0..1024u32 {
        tokens.push(token(alloc, record.saturating_mul(1024).saturating_add(number))?)?;
    }
    Ok(tokens)
}

/// So many records of children, each of other ones.
fn crowds(alloc: Global, count: u32) -> Result<MemRead, Memory> {
    let parents = tokens(alloc, &[0])?;
    let mut steps = Items::new(alloc);
    for record in 0..count {
        steps.push(children(alloc, 5, a_thousand(alloc, record)?, &parents)?)?;
    }
    Ok(MemRead::Steps(steps))
}

fn told_of(alloc: Global, read: MemRead) -> Result<String, Memory> {
    let mut told = String::new(alloc);
    tell_read(alloc, &mut told, Some(token(alloc, 0)?), read)?;
    Ok(told)
}

fn too_many_inserts(alloc: Global) -> Result<String, CellsFault> {
    let read = inserts(alloc, 1_025)?;
    Ok(told_of(alloc, read)?)
}

#[test]
fn too_many_records_of_one_moment_are_a_breach(rt: HostRuntime) -> Result<(), Fail> {
    assert_eq!(rt;
        too_many_inserts(rt.alloc())?.as_str(),
        "TooManyAtStamp +3 1024\n"
    );
    Ok(())
}

fn too_many_children(alloc: Global) -> Result<String, Memory> {
    let read = crowds(alloc, 65)?;
    told_of(alloc, read)
}

#[test]
fn too_many_children_of_one_read_are_a_breach(rt: HostRuntime) -> Result<(), Fail> {
    assert_eq!(rt;
        too_many_children(rt.alloc())?.as_str(),
        "TooManyChildren 66560 65536\n"
    );
    Ok(())
}
