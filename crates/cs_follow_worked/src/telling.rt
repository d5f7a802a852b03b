// Outcomes in words.
use crate::answers::MIDNIGHT;
use cs_fetch::FetchFault;
use cs_follow::Outcome;
use cs_link::Breach;
use cs_records::{LineFault, RecordFault};
use cs_types::{Memory, Stamp, Token};
use std::alloc::Global;

/// A word and what it is about, behind each other.
fn put(told: &mut String, word: &str) -> Result<(), Memory> {
    told.push_str(word)?;
    Ok(())
}

pub fn tell_number(alloc: Global, told: &mut String, number: u64) -> Result<(), Memory> {
    let text = format!(in alloc; " {number}")?;
    put(told, text.as_str())
}

/// A moment by its seconds after midnight.
pub fn tell_moment(alloc: Global, told: &mut String, us: u64) -> Result<(), Memory> {
    let past = us.saturating_sub(MIDNIGHT);
    let seconds = past / 1_000_000;
    let text = format!(in alloc; " +{seconds}")?;
    put(told, text.as_str())?;
    let rest = past % 1_000_000;
    if rest == 0 {
        return Ok(());
    }
    let text = format!(in alloc; ".{rest:06}")?;
    put(told, text.as_str())
}

pub fn tell_token(told: &mut String, token: &Token) -> Result<(), Memory> {
    told.push(' ')?;
    for byte in token.bytes() {
        told.push(char::from(*byte))?;
    }
    Ok(())
}

fn stamps(alloc: Global, told: &mut String, name: &str, a: Stamp, b: u64) -> Result<(), Memory> {
    put(told, name)?;
    tell_moment(alloc, told, a.us())?;
    tell_moment(alloc, told, b)
}

fn tokens(told: &mut String, name: &str, a: &Token, b: &Token) -> Result<(), Memory> {
    put(told, name)?;
    tell_token(told, a)?;
    tell_token(told, b)
}

fn numbers(alloc: Global, told: &mut String, name: &str, a: u64, b: u64) -> Result<(), Memory> {
    put(told, name)?;
    tell_number(alloc, told, a)?;
    tell_number(alloc, told, b)
}

fn at_stamp(alloc: Global, told: &mut String, at: Stamp, count: u64) -> Result<(), Memory> {
    put(told, "TooManyAtStamp")?;
    tell_moment(alloc, told, at.us())?;
    tell_number(alloc, told, count)
}

fn bad(alloc: Global, told: &mut String, name: &str, at: u64, what: &str) -> Result<(), Memory> {
    put(told, name)?;
    tell_number(alloc, told, at)?;
    put(told, what)
}

fn record_fault(fault: &RecordFault) -> &'static str {
    match fault {
        RecordFault::KeyMissing(_) => " KeyMissing",
        RecordFault::KeyTwice(_) => " KeyTwice",
        RecordFault::Memory => " Memory",
    }
}

fn line_fault(fault: &LineFault) -> &'static str {
    match fault {
        LineFault::NotJson => " NotJson",
        _ => " another",
    }
}

/// A breach by its name and its two values.
fn tell_breach(alloc: Global, told: &mut String, breach: &Breach) -> Result<(), Memory> {
    match breach {
        Breach::StampFell(a, b) => stamps(alloc, told, "StampFell", *a, b.us()),
        Breach::OutOfWindow(a, b) => stamps(alloc, told, "OutOfWindow", *a, b.us()),
        Breach::HeartbeatWrong(a, b) => stamps(alloc, told, "HeartbeatWrong", *a, b.us()),
        Breach::BelowHeartbeat(a, b) => stamps(alloc, told, "BelowHeartbeat", *a, b.us()),
        Breach::AfterChildren(a, b) => stamps(alloc, told, "AfterChildren", *a, b.us()),
        Breach::ChildStart(a, b) => stamps(alloc, told, "ChildStart", *a, b.us()),
        Breach::ChildDiffers(a, b) => tokens(told, "ChildDiffers", a, b),
        Breach::ParentMissing(a, b) => tokens(told, "ParentMissing", a, b),
        Breach::InitialWrong(a, b) => numbers(alloc, told, "InitialWrong", *a, *b),
        Breach::CaughtUpWrong(a, b) => stamps(alloc, told, "CaughtUpWrong", *a, *b),
        Breach::CutEarly(a, b) => numbers(alloc, told, "CutEarly", *a, *b),
        Breach::BadLine(at, fault) => bad(alloc, told, "BadLine", *at, line_fault(fault)),
        Breach::TooManyAtStamp(at, count) => at_stamp(alloc, told, *at, *count),
        Breach::Orphan(a, b) => tokens(told, "Orphan", a, b),
        Breach::BadRecord(at, fault) => bad(alloc, told, "BadRecord", *at, record_fault(fault)),
        Breach::TooManyRows(a, b) => numbers(alloc, told, "TooManyRows", *a, *b),
        Breach::TooManyChildren(a, b) => numbers(alloc, told, "TooManyChildren", *a, *b),
    }
}

/// Why a READ gave no batch.
pub fn tell_fault(alloc: Global, told: &mut String, fault: &FetchFault) -> Result<(), Memory> {
    match fault {
        FetchFault::LinkFault => put(told, "LinkFault"),
        FetchFault::Refused(_) => put(told, "Refused"),
        FetchFault::Breach(breach) => tell_breach(alloc, told, breach),
        FetchFault::Stalled(count) => bad(alloc, told, "Stalled", u64::from(*count), ""),
        FetchFault::Memory => Err(Memory),
    }
}

fn stalled(
    alloc: Global,
    told: &mut String,
    token: &Option<Token>,
    count: u32,
) -> Result<(), Memory> {
    put(told, "Stalled")?;
    match token {
        Some(token) => tell_token(told, token)?,
        None => put(told, " -")?,
    }
    tell_number(alloc, told, u64::from(count))
}

/// Why a follower stopped.
pub fn tell_outcome(alloc: Global, told: &mut String, outcome: &Outcome) -> Result<(), Memory> {
    match outcome {
        Outcome::Ended => put(told, "Ended"),
        Outcome::Paused => put(told, "Paused"),
        Outcome::RetentionPassed(_) => put(told, "RetentionPassed"),
        Outcome::Refused(_) => put(told, "Refused"),
        Outcome::LinkFault => put(told, "LinkFault"),
        Outcome::Breach(breach) => {
            put(told, "Breach ")?;
            tell_breach(alloc, told, breach)
        }
        Outcome::Stalled(token, count) => stalled(alloc, told, token, *count),
        Outcome::JournalFault => put(told, "JournalFault"),
        Outcome::OutputFault => put(told, "OutputFault"),
        Outcome::Full(_) => put(told, "Full"),
        Outcome::Memory => Err(Memory),
    }
}
