use cs_device::{Disk, Failed, FileSink, FileSource, MemDisk, MemSink, MemSource, Sink, Source};
use cs_types::{Items, Memory};
use std::alloc::Global;
use std::io::{self, Error, ErrorKind, Read};
use std::test::Fail;

fn source_of(alloc: Global, bytes: &[u8], fails: &[u64]) -> Result<MemSource, Memory> {
    let bytes = Items::from_slice(alloc, bytes)?;
    MemSource::new(alloc, bytes, Items::from_slice(alloc, fails)?)
}

fn sink_of(alloc: Global, room: u64, fails: &[u64]) -> Result<MemSink, Memory> {
    MemSink::new(alloc, room, Items::from_slice(alloc, fails)?)
}

fn empty_disk(alloc: Global, calls: u64) -> Result<MemDisk, Memory> {
    MemDisk::new(alloc, Items::new(alloc), 0, calls, Items::new(alloc))
}

/// The count and the piece of three bytes that a read leaves, or that it failed.
fn read_once(alloc: Global, source: &mut MemSource) -> Result<String, Memory> {
    let mut piece = [0u8; 3];
    let read = source.read(&mut piece);
    match read {
        Ok(count) => Ok(format!(in alloc; "{count} {piece:?}, ")?),
        Err(Failed) => Ok(format!(in alloc; "failed, ")?),
    }
}

fn read_all(alloc: Global, mut source: MemSource) -> Result<String, Memory> {
    let mut told = String::new(alloc);
    for _ in 0..4 {
        let once = read_once(alloc, &mut source)?;
        told.push_str(once.as_str())?;
    }
    Ok(told)
}

#[test]
fn a_source_gives_what_is_left(rt: HostRuntime) -> Result<(), Fail> {
    let told = read_all(rt.alloc(), source_of(rt.alloc(), b"abcde", &[1])?)?;
    assert_eq!(rt;
        told.as_str(),
        "3 [97, 98, 99], failed, 2 [100, 101, 0], 0 [0, 0, 0], "
    );
    Ok(())
}

fn write_all(alloc: Global, mut sink: MemSink) -> Result<String, Memory> {
    let mut told = String::new(alloc);
    for piece in ["x", "abc", "de", "d", ""] {
        let written = sink.write(piece.as_bytes());
        match written {
            Ok(()) => told.push('.')?,
            Err(Failed) => told.push('!')?,
        }
    }
    for byte in sink.bytes() {
        told.push(char::from(*byte))?;
    }
    Ok(told)
}

#[test]
fn a_sink_takes_what_has_room(rt: HostRuntime) -> Result<(), Fail> {
    let told = write_all(rt.alloc(), sink_of(rt.alloc(), 4, &[0])?)?;
    assert_eq!(rt; told.as_str(), "!.!..abcd");
    Ok(())
}

/// A reader that a signal interrupts once, then is at its end, and then fails.
#[derive(Drop)]
struct Faltering {
    reads: u8,
}

impl Read for Faltering {
    fn read(&mut self, _buf: &mut [u8]) -> io::Result<usize> {
        self.reads = self.reads.saturating_add(1);
        match self.reads {
            1 => Err(Error::from(ErrorKind::Interrupted)),
            2 => Ok(0),
            _ => Err(Error::from(ErrorKind::Other)),
        }
    }
}

/// Calls each object through its bound.
fn first_calls<S: Source, W: Sink, D: Disk>(
    source: &mut S,
    sink: &mut W,
    disk: &mut D,
) -> Result<u64, Failed> {
    let mut piece = [0u8; 4];
    let count = source.read(&mut piece)?;
    sink.write(&piece[..count])?;
    disk.len()
}

fn calls_on_files(alloc: Global, times: u8) -> Result<Result<u64, Failed>, Memory> {
    let mut source = FileSource::new(Faltering { reads: 0 });
    let mut sink = FileSink::new(Vec::new(alloc));
    let mut disk = empty_disk(alloc, 9)?;
    let mut answer = Err(Failed);
    for _ in 0..times {
        answer = first_calls(&mut source, &mut sink, &mut disk);
    }
    Ok(answer)
}

#[test]
fn a_file_is_read_again_after_a_signal(rt: HostRuntime) -> Result<(), Fail> {
    assert_eq!(rt; calls_on_files(rt.alloc(), 1)?, Ok(0));
    Ok(())
}

#[test]
fn a_file_that_fails_fails(rt: HostRuntime) -> Result<(), Fail> {
    assert_eq!(rt; calls_on_files(rt.alloc(), 2)?, Err(Failed));
    Ok(())
}

fn calls_on_loans(alloc: Global) -> Result<Result<u64, Failed>, Memory> {
    let mut source = source_of(alloc, b"abc", &[])?;
    let mut sink = sink_of(alloc, 3, &[])?;
    let mut disk = empty_disk(alloc, 1)?;
    Ok(first_calls(&mut &mut source, &mut &mut sink, &mut &mut disk))
}

#[test]
fn loans_are_objects_too(rt: HostRuntime) -> Result<(), Fail> {
    assert_eq!(rt; calls_on_loans(rt.alloc())?, Ok(0));
    Ok(())
}
