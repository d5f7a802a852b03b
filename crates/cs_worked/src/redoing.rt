use cs_device::MemDisk;
use cs_redo::{RedoFault, redo};
use cs_types::{Items, Memory};
use std::alloc::Global;
use std::test::Fail;

fn disk_of(alloc: Global, bytes: &[u8], fails: &[u64]) -> Result<MemDisk, Memory> {
    let bytes = Items::from_slice(alloc, bytes)?;
    MemDisk::new(alloc, bytes, 200_000, 100, Items::from_slice(alloc, fails)?)
}

/// The calls that are made and the bytes that are left, with a mark in front where it is not done.
fn push_redone(
    told: &mut String,
    alloc: Global,
    mut disk: MemDisk,
    text: &str,
) -> Result<(), Memory> {
    let redone = redo(alloc, &mut disk, text.as_bytes());
    match redone {
        Ok(()) => {}
        Err(RedoFault::DiskFault) => told.push('!')?,
        Err(RedoFault::Memory) => told.push('?')?,
    }
    told.push_str(format!(in alloc; "{}", disk.calls())?.as_str())?;
    for byte in disk.bytes() {
        told.push(char::from(*byte))?;
    }
    told.push(' ')?;
    Ok(())
}

fn redone(alloc: Global, files: &[&str], text: &str) -> Result<String, Memory> {
    let mut told = String::new(alloc);
    for file in files {
        let disk = disk_of(alloc, file.as_bytes(), &[])?;
        push_redone(&mut told, alloc, disk, text)?;
    }
    Ok(told)
}

/// Nothing, the text, a front of it, it and more, another byte within it, all other.
fn files() -> [&'static str; 6] {
    ["", "abc", "ab", "abcd", "aXcd", "xyzw"]
}

#[test]
fn a_file_is_cut_and_written_where_it_differs(rt: HostRuntime) -> Result<(), Fail> {
    let told = redone(rt.alloc(), &files(), "abc")?;
    assert_eq!(rt; told.as_str(), "3abc 3abc 4abc 4abc 5abc 5abc ");
    Ok(())
}

#[test]
fn a_torn_last_line_is_mended(rt: HostRuntime) -> Result<(), Fail> {
    let told = redone(
        rt.alloc(),
        &["{\"key\"}\n{\"water#"],
        "{\"key\"}\n{\"watermark\"}\n",
    )?;
    assert_eq!(rt; told.as_str(), "5{\"key\"}\n{\"watermark\"}\n ");
    Ok(())
}

/// Each call of five fails.
fn faults(alloc: Global) -> Result<String, Memory> {
    let mut told = String::new(alloc);
    for call in 0..6 {
        push_redone(&mut told, alloc, disk_of(alloc, b"aXcd", &[call])?, "abc")?;
    }
    Ok(told)
}

#[test]
fn a_failed_call_is_answered(rt: HostRuntime) -> Result<(), Fail> {
    let told = faults(rt.alloc())?;
    assert_eq!(rt; told.as_str(), "!1aXcd !2aXcd !3aXcd !4a !5abc 5abc ");
    Ok(())
}

/// What a crash at a call leaves, and then what the next try does.
fn push_crash(told: &mut String, alloc: Global, stop: u64, image: u64) -> Result<(), Memory> {
    let mut disk = disk_of(alloc, b"aXcd", &[])?.fused(stop, image);
    let _ = redo(alloc, &mut disk, b"abc");
    let left = disk.after_crash()?;
    for byte in left.bytes() {
        told.push(char::from(*byte))?;
    }
    told.push('/')?;
    push_redone(told, alloc, left, "abc")
}

fn crashes(alloc: Global, image: u64) -> Result<String, Memory> {
    let mut told = String::new(alloc);
    for stop in 2..6 {
        push_crash(&mut told, alloc, stop, image)?;
    }
    Ok(told)
}

#[test]
fn a_crash_that_undoes_all_leaves_the_file(rt: HostRuntime) -> Result<(), Fail> {
    let told = crashes(rt.alloc(), 0)?;
    assert_eq!(rt; told.as_str(), "aXcd/5abc aXcd/5abc aXcd/5abc abc/3abc ");
    Ok(())
}

#[test]
fn a_crash_that_tears_the_write_leaves_the_front(rt: HostRuntime) -> Result<(), Fail> {
    let told = crashes(rt.alloc(), u64::from(b'#') + (13 << 8))?;
    assert_eq!(rt; told.as_str(), "a/4abc a##/5abc a##/5abc abc/3abc ");
    Ok(())
}

/// A text longer than what is read at once, and a file that differs near its end.
fn long(alloc: Global) -> Result<(u64, bool), Memory> {
    let mut front = Vec::new(alloc);
    front.resize_with(69_000, || b'x')?;
    let mut text = Vec::new(alloc);
    text.resize_with(68_000, || b'x')?;
    text.push(b'y')?;
    text.resize_with(70_000, || b'x')?;
    let mut disk = disk_of(alloc, &front, &[])?;
    let _ = redo(alloc, &mut disk, &text);
    Ok((disk.calls(), disk.bytes() == text.as_slice()))
}

#[test]
fn a_long_text_is_compared_in_pieces(rt: HostRuntime) -> Result<(), Fail> {
    assert_eq!(rt; long(rt.alloc())?, (6, true));
    Ok(())
}
