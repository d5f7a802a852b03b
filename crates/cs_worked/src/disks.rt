use cs_device::{Disk, Failed, MemDisk};
use cs_types::{Items, Memory};
use std::alloc::Global;
use std::test::Fail;

/// A call on a disk.
#[derive(Drop)]
enum Call {
    Len,
    Read(u64),
    Write(u64, &'static str),
    Cut(u64),
    Sync,
}

fn disk_of(
    alloc: Global,
    bytes: &str,
    room: u64,
    calls: u64,
    fails: &[u64],
) -> Result<MemDisk, Memory> {
    let bytes = Items::from_slice(alloc, bytes.as_bytes())?;
    let fails = Items::from_slice(alloc, fails)?;
    MemDisk::new(alloc, bytes, room, calls, fails)
}

fn length(alloc: Global, disk: &mut MemDisk) -> Result<String, Memory> {
    let length = disk.len();
    match length {
        Ok(length) => Ok(format!(in alloc; "{length}")?),
        Err(Failed) => Ok(format!(in alloc; "!")?),
    }
}

/// The two bytes from a place on that is within the disk.
fn read(alloc: Global, disk: &mut MemDisk, at: u64) -> Result<String, Memory> {
    let mut piece = [0u8; 2];
    if at > 100 || (disk.bytes().len() as u64) < at + 2 {
        return Ok(format!(in alloc; "outside")?);
    }
    let read = disk.read(at, &mut piece);
    match read {
        Ok(()) => Ok(format!(in alloc; "{piece:?}")?),
        Err(Failed) => Ok(format!(in alloc; "!")?),
    }
}

fn write(alloc: Global, disk: &mut MemDisk, at: u64, piece: &str) -> Result<String, Memory> {
    if (disk.bytes().len() as u64) < at {
        return Ok(format!(in alloc; "outside")?);
    }
    let written = disk.write_at(at, piece.as_bytes());
    done(alloc, written)
}

fn cut(alloc: Global, disk: &mut MemDisk, at: u64) -> Result<String, Memory> {
    if (disk.bytes().len() as u64) < at {
        return Ok(format!(in alloc; "outside")?);
    }
    let cut = disk.cut(at);
    done(alloc, cut)
}

fn done(alloc: Global, answer: Result<(), Failed>) -> Result<String, Memory> {
    match answer {
        Ok(()) => Ok(format!(in alloc; ".")?),
        Err(Failed) => Ok(format!(in alloc; "!")?),
    }
}

fn called(alloc: Global, disk: &mut MemDisk, call: &Call) -> Result<String, Memory> {
    match call {
        Call::Len => length(alloc, disk),
        Call::Read(at) => read(alloc, disk, *at),
        Call::Write(at, piece) => write(alloc, disk, *at, *piece),
        Call::Cut(at) => cut(alloc, disk, *at),
        Call::Sync => {
            let synced = disk.sync();
            done(alloc, synced)
        }
    }
}

/// What each call answers, and then the disk's bytes.
fn told(alloc: Global, mut disk: MemDisk, calls: &[Call]) -> Result<String, Memory> {
    let mut told = String::new(alloc);
    for call in calls {
        let answer = called(alloc, &mut disk, call)?;
        told.push_str(answer.as_str())?;
        told.push(' ')?;
    }
    for byte in disk.bytes() {
        told.push(char::from(*byte))?;
    }
    Ok(told)
}

/// Calls beyond the room of five bytes and the seven calls that succeed among them.
fn all_calls() -> [Call; 8] {
    [
        Call::Write(3, "xyz"),
        Call::Len,
        Call::Read(1),
        Call::Cut(2),
        Call::Sync,
        Call::Write(0, "mno"),
        Call::Write(0, "mn"),
        Call::Len,
    ]
}

#[test]
fn a_disk_is_written_read_and_cut(rt: HostRuntime) -> Result<(), Fail> {
    let disk = disk_of(rt.alloc(), "abcd", 5, 7, &[])?;
    let told = told(rt.alloc(), disk, &all_calls())?;
    assert_eq!(rt; told.as_str(), ". 6 [98, 99] . . ! . ! mn");
    Ok(())
}

/// Each call once, and the last twice.
fn each_call() -> [Call; 6] {
    [
        Call::Len,
        Call::Read(0),
        Call::Write(0, "x"),
        Call::Cut(1),
        Call::Sync,
        Call::Sync,
    ]
}

#[test]
fn listed_calls_of_a_disk_fail(rt: HostRuntime) -> Result<(), Fail> {
    let disk = disk_of(rt.alloc(), "ab", 9, 9, &[0, 1, 2, 3, 5])?;
    let told = told(rt.alloc(), disk, &each_call())?;
    assert_eq!(rt; told.as_str(), "! ! ! ! . ! ab");
    Ok(())
}

/// Writes, a sync, and calls from the stop at call 3 on.
fn stopped_calls() -> [Call; 6] {
    [
        Call::Write(2, "cd"),
        Call::Sync,
        Call::Write(4, "ef"),
        Call::Write(0, "x"),
        Call::Len,
        Call::Sync,
    ]
}

#[test]
fn from_its_stop_on_each_call_of_a_disk_fails(rt: HostRuntime) -> Result<(), Fail> {
    let disk = disk_of(rt.alloc(), "ab", 9, 9, &[])?.fused(3, 0);
    let told = told(rt.alloc(), disk, &stopped_calls())?;
    assert_eq!(rt; told.as_str(), ". . . ! ! ! abcdef");
    Ok(())
}

/// What a crash leaves of `abcd` where a cut to 2 and a write of `xyz` behind it were not synced.
fn left(alloc: Global, image: u64) -> Result<MemDisk, Memory> {
    let mut disk = disk_of(alloc, "abcd", 9, 9, &[])?.fused(2, image);
    cut(alloc, &mut disk, 2)?;
    write(alloc, &mut disk, 2, "xyz")?;
    let _ = disk.sync();
    disk.after_crash()
}

fn images(alloc: Global) -> Result<String, Memory> {
    let mut told = String::new(alloc);
    for image in [
        0,
        1 << 8,
        2 << 8,
        1 << 10,
        2 << 10,
        5 << 8,
        9 << 8,
        35 + (13 << 8),
    ] {
        for byte in left(alloc, image)?.bytes() {
            told.push(char::from(*byte))?;
        }
        told.push(' ')?;
    }
    Ok(told)
}

#[test]
fn a_crash_leaves_the_image_that_is_picked(rt: HostRuntime) -> Result<(), Fail> {
    let told = images(rt.alloc())?;
    assert_eq!(rt; told.as_str(), "abcd ab abc abxyz abxd abxyz abx ab### ");
    Ok(())
}
