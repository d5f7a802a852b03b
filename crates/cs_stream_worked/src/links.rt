ghost use Rattle.std.specs.Prelude.{◌≡◌, ◌≤◌, IfOk};

use crate::making::data_record;
use cs_fetch::{FetchFault, fetch};
use cs_link::{
    Batch, Breach, Closing, Ending, Known, Limits, MemLink, MemRead, ReadArgs, ReadRefusal, Seen,
    Step,
};
use cs_records::Record;
use cs_types::{CellsFault, Duplicate, Items, Memory, Stamp, Text, Token};
use std::alloc::Global;
use std::test::Fail;

/// The stamp of these microseconds.
fn at(us: u64) -> Result<Stamp, Memory> {
    Stamp::of(us).ok_or(Memory)
}

fn token(alloc: Global) -> Result<Token, Memory> {
    Token::of(alloc, b"S-00000")?.ok_or(Memory)
}

/// What a READ of one part asks for, from this start to the ninth microsecond.
fn args(alloc: Global, start: Stamp) -> Result<ReadArgs, Memory>
    ensures { IfOk result (λ args. args.start ≡ start) }
{
    Ok(ReadArgs {
        stream: Text::of(alloc, "S")?,
        start,
        end: Some(at(9)?),
        token: Some(token(alloc)?),
        heartbeat_ms: 10_000,
    })
}

/// What a READ brings that takes so many records, where these changes at its start are known.
fn page(
    alloc: Global,
    link: &mut MemLink,
    seen: Items<Seen>,
    records: u32,
) -> Result<Result<Batch, FetchFault>, Memory>
    requires { (1 ≤ records) × (records ≤ 8192) }
{
    let start = at(1)?;
    let known = Known {
        through: start.us() - 1,
        seen,
    };
    let limits = Limits {
        records,
        bytes: 1_024,
    };
    let args = args(alloc, start)?;
    Ok(fetch(alloc, link, &args, &known, &limits))
}

fn data_step(alloc: Global, us: u64) -> Result<Step, CellsFault> {
    let item = data_record(alloc, at(us)?, 1)?;
    Ok(Step::Record(Record::Change(item)))
}

/// A change at each of two moments, and the end.
fn two(alloc: Global, first: u64, second: u64) -> Result<MemRead, CellsFault> {
    let mut steps = Items::new(alloc);
    steps.push(data_step(alloc, first)?)?;
    steps.push(data_step(alloc, second)?)?;
    steps.push(Step::Closing(Closing::Finished))?;
    Ok(MemRead::Steps(steps))
}

/// A link that answers its one READ so, of whose calls the listed ones fail.
fn link(alloc: Global, read: MemRead, fails: Items<u64>) -> Result<MemLink, Memory> {
    let mut reads = Items::new(alloc);
    reads.push(read.copy()?)?;
    reads.push(read)?;
    MemLink::new(alloc, reads, at(9)?, fails)
}

fn seen_of(alloc: Global, batch: &Batch) -> Result<Items<Seen>, Memory> {
    let mut seen = Items::new(alloc);
    for change in batch.changes.as_slice() {
        seen.push(Seen {
            tx: change.tx.copy()?,
            row: change.row.copy()?,
        })?;
    }
    Ok(seen)
}

/// The number of changes, the moment up to which all is known, and whether the batch is full.
fn told(batch: &Batch) -> (usize, u64, bool) {
    let is_full = match batch.ending {
        Ending::Full => true,
        _ => false,
    };
    (batch.changes.as_slice().len(), batch.through, is_full)
}

/// Two pages of one record each, of which the second knows what the first brought.
fn pages(alloc: Global) -> Result<Option<(usize, u64, bool)>, CellsFault> {
    let mut link = link(alloc, two(alloc, 1, 2)?, Items::new(alloc))?;
    let Ok(first) = page(alloc, &mut link, Items::new(alloc), 1)? else {
        return Ok(None);
    };
    let seen = seen_of(alloc, &first)?;
    match page(alloc, &mut link, seen, 1)? {
        Ok(second) => Ok(Some(told(&second.copy()?))),
        Err(_) => Ok(None),
    }
}

#[test]
fn a_page_goes_on_behind_the_one_before(rt: HostRuntime) -> Result<(), Fail> {
    assert_eq!(rt; pages(rt.alloc())?, Some((1, 1, true)));
    Ok(())
}

/// The two stamps of which the second is below the first, where a READ was refused for them.
fn fall_of(alloc: Global) -> Result<Option<(u64, u64)>, CellsFault> {
    let mut link = link(alloc, two(alloc, 3, 2)?, Items::new(alloc))?;
    let Err(FetchFault::Breach(breach)) = page(alloc, &mut link, Items::new(alloc), 2)? else {
        return Ok(None);
    };
    match breach {
        Breach::StampFell(earlier, later) => Ok(Some((earlier.us(), later.us()))),
        _ => Ok(None),
    }
}

#[test]
fn a_stamp_that_falls_is_told(rt: HostRuntime) -> Result<(), Fail> {
    assert_eq!(rt; fall_of(rt.alloc())?, Some((3, 2)));
    Ok(())
}

fn is_refused(alloc: Global) -> Result<bool, Memory> {
    let read = MemRead::Refused(ReadRefusal::UnknownToken);
    let mut link = link(alloc, read, Items::new(alloc))?;
    match page(alloc, &mut link, Items::new(alloc), 2)? {
        Err(FetchFault::Refused(ReadRefusal::UnknownToken)) => Ok(true),
        _ => Ok(false),
    }
}

#[test]
fn a_refusal_is_handed_on(rt: HostRuntime) -> Result<(), Fail> {
    assert!(rt; is_refused(rt.alloc())?);
    Ok(())
}

fn is_fault(alloc: Global) -> Result<bool, CellsFault> {
    let mut fails = Items::new(alloc);
    fails.push(1)?;
    let mut link = link(alloc, two(alloc, 1, 2)?, fails)?;
    match page(alloc, &mut link, Items::new(alloc), 2)? {
        Err(FetchFault::LinkFault) => Ok(true),
        _ => Ok(false),
    }
}

#[test]
fn a_failing_call_is_a_fault_of_the_link(rt: HostRuntime) -> Result<(), Fail> {
    assert!(rt; is_fault(rt.alloc())?);
    Ok(())
}
