//! What standard error says of a status above 0.

use crate::causes;
use cs_audit::Verdict;
use cs_tool::Status;
use cs_types::Memory;
use std::{fs, io};

/// How many bytes of a line are shown.
const SHOWN_BYTES: usize = 200;

/// The paths of the files whose lines a status may name.
#[derive(Clone, Copy)]
pub struct Paths<'a> {
    pub script: &'a str,
    pub output: &'a str,
}

/// Says a status that is found before the top call is made as that says its own: by its line on
/// standard output, and then on standard error.
pub fn tell(rt: &HostRuntime, status: &Status, paths: &Paths<'_>) -> u8 {
    match status.line(rt.alloc()) {
        Ok(line) => tell_by(rt, line.as_str(), status, paths),
        Err(Memory) => tell_by(rt, "60 Memory\n", &Status::Memory, paths),
    }
}

fn tell_by(rt: &HostRuntime, line: &str, status: &Status, paths: &Paths<'_>) -> u8 {
    let told: io::Result<()> = print!(rt; "{line}");
    match told {
        Ok(()) => say(rt, status, paths),
        Err(_) => say(rt, &Status::ConsoleFault, paths),
    }
}

/// Says what happened and what to do, and for a line that is at fault its text.
pub fn say(rt: &HostRuntime, status: &Status, paths: &Paths<'_>) -> u8 {
    let code = status.code();
    if code == 0 {
        return code;
    }
    match status {
        Status::BadScript(number, Some(cause)) => {
            show_line(rt, paths.script, *number);
            causes::say(rt, cause);
        }
        Status::BadScript(_, None) => {
            let _ = eprintln!(rt; "spanstream: the script has more than 67,108,864 bytes");
        }
        Status::Verdict(verdict) => show_verdict(rt, paths.output, verdict),
        Status::BadOutput(number) => show_line(rt, paths.output, *number),
        _ => {}
    }
    let _ = eprintln!(rt; "spanstream: {}", status.advice());
    code
}

/// The line that a verdict names.
fn show_verdict(rt: &HostRuntime, path: &str, verdict: &Verdict) {
    match verdict {
        Verdict::Complete | Verdict::Prefix(_) => {}
        Verdict::Extra(number)
        | Verdict::OutOfOrder(number)
        | Verdict::WatermarkEarly(number, _)
        | Verdict::WatermarkBack(number) => show_line(rt, path, *number),
    }
}

/// A line of a file, counted from 1, or what fits of it.
fn show_line(rt: &HostRuntime, path: &str, number: u64) {
    let Ok(bytes) = fs::read(rt, path) else {
        return;
    };
    let Some(line) = line_of(&bytes, number) else {
        return;
    };
    let Ok(text) = String::from_utf8_lossy(rt.alloc(), line) else {
        return;
    };
    let _ = eprintln!(rt; "spanstream: line {number} of {path}: {}", text.as_str());
}

fn line_of(bytes: &[u8], number: u64) -> Option<&[u8]> {
    let place = usize::try_from(number).ok()?.checked_sub(1)?;
    let line = bytes.split(|b| *b == b'\n').nth(place)?;
    match line.get(..SHOWN_BYTES) {
        Some(front) => Some(front),
        None => Some(line),
    }
}
