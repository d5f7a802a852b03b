//! Whether a file is a journal of this program, by how it begins.

use cs_schedule::Entry;
use cs_tool::Status;
use cs_types::Memory;
use std::alloc::Global;
use std::fs::File;
use std::io;
use std::io::{Read, Seek, SeekFrom};

/// No journal has more bytes before the gate of its first entry is open. An entry that begins a
/// window has at most 150: with the length in front of it and a gate on each side, 156.
const FRONT: usize = 160;

/// The bytes of an entry's length, behind its gate.
const LENGTH: usize = 4;

/// The status with which a file is refused as a journal, where it is; the file is only read.
pub fn refusal(alloc: Global, file: &mut File) -> Option<Status> {
    let mut front = [0; FRONT];
    let Ok(length) = read_front(file, &mut front) else {
        return Some(Status::JournalFault);
    };
    let count = length.min(FRONT as u64) as usize;
    match is_ours(alloc, &front[..count], length) {
        Ok(true) => None,
        Ok(false) => Some(Status::BadJournal(0)),
        Err(Memory) => Some(Status::Memory),
    }
}

/// Reads the first bytes of a file, as many as it has and find room, and answers its length.
fn read_front(file: &mut File, front: &mut [u8]) -> io::Result<u64> {
    let length = file.seek(SeekFrom::End(0))?;
    file.seek(SeekFrom::Start(0))?;
    let count = length.min(front.len() as u64) as usize;
    file.read_exact(&mut front[..count])?;
    Ok(length)
}

/// Whether a file of so many bytes, of which these are the first 160 or all, may be opened as a
/// journal. It may be exactly where
///
/// - it is empty; or
/// - its first byte is 1, an open gate, and behind it stands a whole entry that begins a window: its
///   length, its payload and the gate behind; or
/// - its first byte is 0, a closed gate, and it has at most 160 bytes: its first entry was being
///   written when the run ended, and was never there. What stands behind the gate may be torn, and
///   says nothing.
///
/// Every other file is foreign. The opening of a journal writes at the first gate that is not open,
/// and cuts off what stands behind it where the gate is not 0, so a foreign file would lose its bytes.
fn is_ours(alloc: Global, front: &[u8], length: u64) -> Result<bool, Memory> {
    match front {
        [] => Ok(true),
        [gate, behind @ ..] => {
            if *gate == 1 {
                begins_window(alloc, behind)
            } else {
                Ok(*gate == 0 && length <= FRONT as u64)
            }
        }
    }
}

/// Whether these bytes, behind an open gate, begin with a whole entry that begins a window.
fn begins_window(alloc: Global, behind: &[u8]) -> Result<bool, Memory> {
    if behind.len() < LENGTH {
        return Ok(false);
    }
    let (head, rest) = behind.split_at(LENGTH);
    let count = u32::from_le_bytes([head[0], head[1], head[2], head[3]]) as usize;
    if rest.len() <= count {
        return Ok(false);
    }
    match Entry::decode(alloc, &rest[..count])? {
        Some(Entry::Begin(_)) => Ok(true),
        _ => Ok(false),
    }
}
