use cs_device::MemDisk;
use cs_journal::{Framed, Journal, JournalFault, Stored, frame};
use cs_types::{Items, Memory};
use std::alloc::Global;
use std::test::Fail;

/// The calls of an opening over one entry: sync, length, a piece, the byte at the closed gate.
const OPENING: u64 = 4;

fn disk_of(alloc: Global, bytes: &[u8], fails: &[u64]) -> Result<MemDisk, Memory> {
    let bytes = Items::from_slice(alloc, bytes)?;
    MemDisk::new(alloc, bytes, 100, 100, Items::from_slice(alloc, fails)?)
}

/// Bytes below 10 as digits, the others as characters.
fn push_bytes(told: &mut String, bytes: &[u8]) -> Result<(), Memory> {
    for byte in bytes {
        if *byte < 10 {
            told.push(char::from(b'0' + *byte))?;
        } else {
            told.push(char::from(*byte))?;
        }
    }
    Ok(())
}

/// Each payload behind a bar.
fn push_payloads(told: &mut String, stored: &[Stored]) -> Result<(), Memory> {
    for entry in stored {
        told.push('|')?;
        push_bytes(told, entry.payload.as_slice())?;
    }
    Ok(())
}

fn push_fault(told: &mut String, fault: JournalFault) -> Result<(), Memory> {
    match fault {
        JournalFault::DiskFault => told.push('D')?,
        JournalFault::BadJournal(place) => {
            told.push('B')?;
            push_bytes(told, &[(place % 10) as u8])?;
        }
        JournalFault::Full(_) => told.push('F')?,
        JournalFault::Memory => told.push('M')?,
    }
    Ok(())
}

/// The payloads that an opening gives and the bytes that it leaves, or why it gives none.
fn push_opened(told: &mut String, alloc: Global, disk: MemDisk) -> Result<(), Memory> {
    match Journal::open(alloc, disk) {
        Ok((journal, stored)) => {
            push_payloads(told, stored.as_slice())?;
            told.push('/')?;
            push_bytes(told, journal.close().bytes())?;
        }
        Err((fault, _disk)) => push_fault(told, fault)?,
    }
    told.push(' ')?;
    Ok(())
}

fn opened(alloc: Global, files: &[&[u8]]) -> Result<String, Memory> {
    let mut told = String::new(alloc);
    for file in files {
        push_opened(&mut told, alloc, disk_of(alloc, *file, &[])?)?;
    }
    Ok(told)
}

/// Closed gates: none, a lone byte, another byte than 0 or 1; behind an entry, a 1 that nothing follows.
fn closed_gates() -> [&'static [u8]; 5] {
    [
        b"",
        b"\x01",
        b"\x01\x01\0\0\0a\0\x01\0",
        b"\x01\x01\0\0\0a\x07\x01\0\0\0b\0",
        b"\x01\x01\0\0\0a\x01",
    ]
}

#[test]
fn an_opening_reads_up_to_a_closed_gate_and_mends_it(rt: HostRuntime) -> Result<(), Fail> {
    let told = opened(rt.alloc(), &closed_gates())?;
    assert_eq!(rt; told.as_str(), "/0 /0 |a/11000a010 |a/11000a0 |a/11000a0 ");
    Ok(())
}

/// Open gates without a whole length, a whole payload, or a byte behind it.
fn bad_gates() -> [&'static [u8]; 4] {
    [
        b"\x01\0",
        b"\x01\x02\0\0\0a\0",
        b"\x01\x01\0\0\0a\x01\x01\0\0\0b",
        b"\x01\0\0\0\0\x01\xff\xff\xff\xff\0",
    ]
}

#[test]
fn an_open_gate_needs_a_whole_entry(rt: HostRuntime) -> Result<(), Fail> {
    let told = opened(rt.alloc(), &bad_gates())?;
    assert_eq!(rt; told.as_str(), "B0 B0 B6 B5 ");
    Ok(())
}

/// Puts a payload twice, and gives the disk back.
fn put_twice(
    told: &mut String,
    alloc: Global,
    disk: MemDisk,
    framed: &Framed,
) -> Result<MemDisk, Memory> {
    match Journal::open(alloc, disk) {
        Ok((mut journal, _stored)) => {
            push_put(told, &mut journal, framed)?;
            push_put(told, &mut journal, framed)?;
            Ok(journal.close())
        }
        Err((fault, disk)) => {
            push_fault(told, fault)?;
            Ok(disk)
        }
    }
}

fn push_put(
    told: &mut String,
    journal: &mut Journal<MemDisk>,
    framed: &Framed,
) -> Result<(), Memory> {
    let put = journal.put(framed);
    match put {
        Ok(()) => told.push('.')?,
        Err(fault) => push_fault(told, fault)?,
    }
    Ok(())
}

/// What two puts answer where one call fails, and what is read then.
fn failing(alloc: Global, call: u64) -> Result<String, Memory> {
    let mut told = String::new(alloc);
    let framed = frame(alloc, b"b")?;
    let disk = disk_of(alloc, b"\x01\x01\0\0\0a\0", &[call])?;
    let disk = put_twice(&mut told, alloc, disk, &framed)?;
    push_opened(&mut told, alloc, disk)?;
    Ok(told)
}

#[test]
fn a_payload_has_its_bytes(rt: HostRuntime) -> Result<(), Fail> {
    let told = failing(rt.alloc(), 99)?;
    assert_eq!(rt; told.as_str(), "..|a|b|b/11000a11000b11000b0 ");
    Ok(())
}

/// Over the calls of the opening and of the first put, each failing in turn.
fn all_failing(alloc: Global) -> Result<String, Memory> {
    let mut told = String::new(alloc);
    for call in 0..OPENING + 4 {
        told.push_str(failing(alloc, call)?.as_str())?;
    }
    Ok(told)
}

#[test]
fn a_journal_that_failed_is_opened_again(rt: HostRuntime) -> Result<(), Fail> {
    let told = all_failing(rt.alloc())?;
    assert_eq!(rt;
        told.as_str(),
        "D|a/11000a0 D|a/11000a0 D|a/11000a0 D|a/11000a0 \
         DD|a/11000a0 DD|a/11000a01000b0 DD|a/11000a01000b0 DD|a|b/11000a11000b0 "
    );
    Ok(())
}

/// The payloads that a crash leaves where a put is stopped at a call of this number.
fn stopped(alloc: Global, call: u64, image: u64) -> Result<String, Memory> {
    let mut told = String::new(alloc);
    let framed = frame(alloc, b"b")?;
    let disk = disk_of(alloc, b"\x01\x01\0\0\0a\0", &[])?.fused(
        OPENING.saturating_add(call),
        image,
    );
    let disk = put_twice(&mut told, alloc, disk, &framed)?;
    told.clear();
    push_opened(&mut told, alloc, disk.after_crash()?)?;
    Ok(told)
}

/// Of a stopped call nothing is left, all, sevens or ones in its range.
fn all_stopped(alloc: Global, call: u64) -> Result<String, Memory> {
    let mut told = String::new(alloc);
    for image in [0, 1 << 8, 7 + (3 << 8), 1 + (3 << 8)] {
        told.push_str(stopped(alloc, call, image)?.as_str())?;
    }
    Ok(told)
}

#[test]
fn a_put_whose_payload_is_stopped_leaves_the_old_ones(rt: HostRuntime) -> Result<(), Fail> {
    let told = all_stopped(rt.alloc(), 0)?;
    assert_eq!(rt;
        told.as_str(),
        "|a/11000a0 |a/11000a01000b0 |a/11000a0777777 |a/11000a0111111 "
    );
    Ok(())
}

#[test]
fn a_put_whose_gate_is_stopped_is_whole_or_absent(rt: HostRuntime) -> Result<(), Fail> {
    let told = all_stopped(rt.alloc(), 2)?;
    assert_eq!(rt;
        told.as_str(),
        "|a/11000a01000b0 |a|b/11000a11000b0 |a/11000a0 |a|b/11000a11000b0 "
    );
    Ok(())
}

/// How many calls an opening over so many empty entries makes.
fn opening_calls(alloc: Global, entries: u32) -> Result<u64, Memory> {
    let mut file = Vec::new(alloc);
    for _ in 0..entries {
        file.extend_from_slice(b"\x01\0\0\0\0")?;
    }
    file.push(0)?;
    match Journal::open(alloc, disk_of(alloc, &file, &[])?) {
        Ok((journal, _stored)) => Ok(journal.close().calls()),
        Err((_fault, _disk)) => Ok(0),
    }
}

#[test]
fn small_entries_take_no_read_each(rt: HostRuntime) -> Result<(), Fail> {
    let calls = opening_calls(rt.alloc(), 20_000)?;
    assert_eq!(rt; calls, OPENING + 1);
    Ok(())
}
