use crate::answers::second;
use crate::books::{empty_disks, tell_bytes};
use crate::following::{followed, window};
use crate::scripts::merged_server;
use crate::telling::{tell_moment, tell_number, tell_token};
use cs_device::MemDisk;
use cs_journal::{Journal, Stored};
use cs_link::NewChild;
use cs_schedule::{Board, Entry};
use cs_script::{LineCause, ServerState};
use cs_server::ServerLink;
use cs_types::{Memory, Token};
use std::alloc::Global;
use std::test::Fail;

/// The name of an entry, and its part.
fn tell_name(told: &mut String, name: &str, token: &Token) -> Result<(), Memory> {
    told.push_str(name)?;
    tell_token(told, token)
}

fn tell_tokens(told: &mut String, tokens: &[Token]) -> Result<(), Memory> {
    for token in tokens {
        tell_token(told, token)?;
    }
    Ok(())
}

fn tell_children(told: &mut String, children: &[NewChild]) -> Result<(), Memory> {
    for child in children {
        tell_token(told, &child.token)?;
    }
    Ok(())
}

/// An entry: its part, up to where all is known, how many changes it has, and its children.
fn tell_entry(alloc: Global, told: &mut String, entry: &Entry) -> Result<(), Memory> {
    match entry {
        Entry::Begin(_) => Ok(told.push_str("Begin")?),
        Entry::Opened(tokens) => {
            told.push_str("Opened")?;
            tell_tokens(told, tokens.as_slice())
        }
        Entry::Progress {
            token,
            through,
            changes,
        } => {
            tell_name(told, "Progress", token)?;
            tell_moment(alloc, told, *through)?;
            tell_number(alloc, told, changes.as_slice().len() as u64)
        }
        Entry::Finished {
            token,
            through,
            changes,
            children,
        } => {
            tell_name(told, "Finished", token)?;
            tell_moment(alloc, told, *through)?;
            tell_number(alloc, told, changes.as_slice().len() as u64)?;
            tell_children(told, children.as_slice())
        }
    }
}

/// What is complete of the part that is furthest behind, and this part.
fn tell_lowest(alloc: Global, told: &mut String, board: &Board) -> Result<(), Memory> {
    told.push_str(" lowest")?;
    if let Some((through, token)) = board.lowest() {
        tell_moment(alloc, told, through)?;
        tell_token(told, token)?;
    }
    told.push_str("\n")?;
    Ok(())
}

/// The board of the first entry, which begins a window.
fn begun(alloc: Global, payload: &[u8]) -> Result<Board, Memory> {
    let Some(entry) = Entry::decode(alloc, payload)? else {
        return Err(Memory);
    };
    match &entry {
        Entry::Begin(window) => Board::begin(alloc, window),
        _ => Err(Memory),
    }
}

/// The entry of a payload, and what is furthest behind after it.
fn tell_next(
    alloc: Global,
    told: &mut String,
    board: &mut Board,
    payload: &[u8],
) -> Result<(), Memory> {
    let Some(entry) = Entry::decode(alloc, payload)? else {
        return Err(Memory);
    };
    if board.fold_entry(alloc, &entry)? {
        tell_entry(alloc, told, &entry)?;
        tell_lowest(alloc, told, board)?;
    }
    Ok(())
}

/// The entries behind the first one, each with what is furthest behind after it.
fn tell_stored(alloc: Global, told: &mut String, stored: &[Stored]) -> Result<(), Memory> {
    let [first, rest @ ..] = stored else {
        return Err(Memory);
    };
    let mut board = begun(alloc, first.payload.as_slice())?;
    for next in rest {
        tell_next(alloc, told, &mut board, next.payload.as_slice())?;
    }
    Ok(())
}

/// The entries of a journal, each with what is furthest behind after it.
fn tell_journal(alloc: Global, told: &mut String, disk: MemDisk) -> Result<(), Memory> {
    match Journal::open(alloc, disk) {
        Ok((_journal, stored)) => tell_stored(alloc, told, stored.as_slice()),
        Err((_fault, _disk)) => Err(Memory),
    }
}

/// The entries and the output of a run in this order.
fn tell(alloc: Global, told: &mut String, state: &ServerState, order: u64) -> Result<(), Memory> {
    let window = window(alloc, 3_000_000, 8_000_000)?;
    let mut link = ServerLink::new(alloc, state, second(10)?);
    let disks = empty_disks(alloc)?;
    let (_outcome, disks) = followed(alloc, &mut link, disks, &window, order, 1_024)?;
    tell_journal(alloc, told, disks.journal)?;
    tell_bytes(told, &disks.output)
}

fn merges(alloc: Global) -> Result<String, LineCause> {
    let mut told = String::new(alloc);
    let state = merged_server(alloc)?;
    tell(alloc, &mut told, &state, 0)?;
    tell(alloc, &mut told, &state, 1)?;
    Ok(told)
}

const MERGES: &str =
    "Opened S-00001 S-00002 lowest +2.999999 S-00001\nFinished S-00001 +5.999999 1 S-00003 lowest +2.999999 S-00002\nFinished S-00002 +5.999999 1 S-00003 lowest +5.999999 S-00003\nFinished S-00003 +8 1 lowest\n{\"key\":{\"K\":\"1\"},\"kind\":\"INSERT\",\"new\":{\"A\":\"5\",\"B\":\"x\"},\"old\":{},\"stamp\":\"2024-05-01T00:00:03Z\",\"table\":\"T\",\"tx\":\"a\"}\n{\"key\":{\"K\":\"200\"},\"kind\":\"INSERT\",\"new\":{\"A\":\"5\",\"B\":\"x\"},\"old\":{},\"stamp\":\"2024-05-01T00:00:04Z\",\"table\":\"T\",\"tx\":\"b\"}\n{\"watermark\":\"2024-05-01T00:00:05.999999Z\"}\n{\"key\":{\"K\":\"2\"},\"kind\":\"INSERT\",\"new\":{\"A\":\"5\",\"B\":\"x\"},\"old\":{},\"stamp\":\"2024-05-01T00:00:07Z\",\"table\":\"T\",\"tx\":\"c\"}\n{\"watermark\":\"2024-05-01T00:00:08Z\"}\nOpened S-00001 S-00002 lowest +2.999999 S-00001\nFinished S-00002 +5.999999 1 S-00003 lowest +2.999999 S-00001\nFinished S-00001 +5.999999 1 S-00003 lowest +5.999999 S-00003\nFinished S-00003 +8 1 lowest\n{\"key\":{\"K\":\"200\"},\"kind\":\"INSERT\",\"new\":{\"A\":\"5\",\"B\":\"x\"},\"old\":{},\"stamp\":\"2024-05-01T00:00:04Z\",\"table\":\"T\",\"tx\":\"b\"}\n{\"key\":{\"K\":\"1\"},\"kind\":\"INSERT\",\"new\":{\"A\":\"5\",\"B\":\"x\"},\"old\":{},\"stamp\":\"2024-05-01T00:00:03Z\",\"table\":\"T\",\"tx\":\"a\"}\n{\"watermark\":\"2024-05-01T00:00:05.999999Z\"}\n{\"key\":{\"K\":\"2\"},\"kind\":\"INSERT\",\"new\":{\"A\":\"5\",\"B\":\"x\"},\"old\":{},\"stamp\":\"2024-05-01T00:00:07Z\",\"table\":\"T\",\"tx\":\"c\"}\n{\"watermark\":\"2024-05-01T00:00:08Z\"}\n";

#[test]
fn a_merged_part_is_read_once_and_behind_its_parents(rt: HostRuntime) -> Result<(), Fail> {
    assert_eq!(rt; merges(rt.alloc())?.as_str(), MERGES);
    Ok(())
}
