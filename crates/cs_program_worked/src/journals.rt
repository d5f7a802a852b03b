// Journals that no run leaves, whose entries follow each other and tell another story than the script.

use crate::objects::{sound_objects, told};
use crate::scripts::MERGE;
use cs_link::NewChild;
use cs_schedule::Entry;
use cs_types::{Items, Memory, Stamp, Text, Token, Window};
use std::alloc::Global;
use std::test::Fail;

/// 2024-05-01T00:00:00Z.
const MIDNIGHT: u64 = 1_714_521_600_000_000;

/// The replay over the merge.
const WORDS: &str = "replay a b c S 2024-05-01T00:00:03Z 2024-05-01T00:00:08Z";

/// The moment so many microseconds after midnight.
fn moment(us: u32) -> Result<Stamp, Memory> {
    Stamp::of(MIDNIGHT + u64::from(us)).ok_or(Memory)
}

/// The token of the part of S with this number.
fn token(alloc: Global, number: u32) -> Result<Token, Memory> {
    let text = format!(in alloc; "S-{number:05}")?;
    Token::of(alloc, text.as_bytes())?.ok_or(Memory)
}

fn tokens(alloc: Global, numbers: &[u32]) -> Result<Items<Token>, Memory> {
    let mut tokens = Items::new(alloc);
    for number in numbers {
        tokens.push(token(alloc, *number)?)?;
    }
    Ok(tokens)
}

fn begin(alloc: Global) -> Result<Entry, Memory> {
    Ok(Entry::Begin(Window {
        stream: Text::of(alloc, "S")?,
        start: moment(3_000_000)?,
        end: moment(8_000_000)?,
    }))
}

fn opened(alloc: Global, numbers: &[u32]) -> Result<Entry, Memory> {
    Ok(Entry::Opened(tokens(alloc, numbers)?))
}

/// The part S-00003 as a child of S-00001 and S-00002, from this moment on.
fn child(alloc: Global, start: u32) -> Result<Items<NewChild>, Memory> {
    let mut children = Items::new(alloc);
    children.push(NewChild {
        token: token(alloc, 3)?,
        parents: tokens(alloc, &[1, 2])?,
        start: moment(start)?,
    })?;
    Ok(children)
}

/// That S-00001 ended before the sixth second, with a child from this moment on.
fn finished(alloc: Global, start: u32) -> Result<Entry, Memory> {
    Ok(Entry::Finished {
        token: token(alloc, 1)?,
        through: moment(5_999_999)?.us(),
        changes: Items::new(alloc),
        children: child(alloc, start)?,
    })
}

/// Puts an entry behind an open gate.
fn put(alloc: Global, bytes: &mut Vec<u8>, entry: &Entry) -> Result<(), Memory> {
    let payload = entry.encode(alloc)?;
    let payload = payload.as_slice();
    let Ok(length) = u32::try_from(payload.len()) else {
        return Err(Memory);
    };
    bytes.push(1)?;
    bytes.extend_from_slice(&length.to_le_bytes())?;
    bytes.extend_from_slice(payload)?;
    Ok(())
}

/// The journal in which S-00001 and these were opened, and S-00001 ended with a child from this moment on.
fn journal(alloc: Global, live: &[u32], start: u32) -> Result<Vec<u8>, Memory> {
    let mut bytes = Vec::new(alloc);
    put(alloc, &mut bytes, &begin(alloc)?)?;
    put(alloc, &mut bytes, &opened(alloc, live)?)?;
    put(alloc, &mut bytes, &finished(alloc, start)?)?;
    bytes.push(0)?;
    Ok(bytes)
}

/// What a run over such a journal tells.
fn told_over(alloc: Global, journal: &[u8]) -> Result<String, Memory> {
    let mut all = sound_objects(alloc, MERGE, journal, b"")?;
    told(alloc, WORDS, &mut all)
}

fn orphan(alloc: Global) -> Result<String, Memory> {
    let journal = journal(alloc, &[1], 6_000_000)?;
    told_over(alloc, &journal)
}

/// The child waits for a parent that was never opened.
#[test]
fn a_part_that_waits_for_no_one_is_a_breach(rt: HostRuntime) -> Result<(), Fail> {
    assert_eq!(rt;
        orphan(rt.alloc())?.as_str(),
        "31|31 Breach Orphan S-00003 S-00002\n|128|{\"watermark\":\"2024-05-01T00:00:05.999999Z\"}\n|"
    );
    Ok(())
}

fn differing(alloc: Global) -> Result<String, Memory> {
    let journal = journal(alloc, &[1, 2], 6_000_001)?;
    told_over(alloc, &journal)
}

/// The child begins a microsecond later than the script has it.
#[test]
fn a_child_that_begins_later_is_a_breach(rt: HostRuntime) -> Result<(), Fail> {
    assert_eq!(rt;
        differing(rt.alloc())?.as_str(),
        "31|31 Breach ChildDiffers S-00003 S-00003\n|139||"
    );
    Ok(())
}

fn unknown(alloc: Global) -> Result<String, Memory> {
    let mut bytes = Vec::new(alloc);
    put(alloc, &mut bytes, &begin(alloc)?)?;
    put(alloc, &mut bytes, &opened(alloc, &[9])?)?;
    bytes.push(0)?;
    told_over(alloc, &bytes)
}

#[test]
fn a_part_that_is_none_is_refused(rt: HostRuntime) -> Result<(), Fail> {
    assert_eq!(rt;
        unknown(rt.alloc())?.as_str(),
        "21|21 Refused UnknownToken\n|50||"
    );
    Ok(())
}
