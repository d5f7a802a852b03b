// What no server may answer, as the console has it.
ghost use Rattle.std.specs.Prelude.{◌≡◌, codes, decimal, IfOk, string_bytes};
ghost use Rattle.cs_types.specs.Stamp.{stamp_text};
ghost use Rattle.cs_tool.specs.Breaches.{breach_text, line_fault_name, record_fault_name, token_words, moment_words, with_values};

use cs_link::Breach;
use cs_records::{LineFault, RecordFault};
use cs_types::{Memory, Stamp, Token};
use std::alloc::Global;

/// The name of a breach, and behind it its two values: stamps, tokens and numbers by their texts, and
/// a fault by its name.
pub(crate) fn text_of(alloc: Global, breach: &Breach) -> Result<String, Memory>
    ensures { IfOk result (λ s. string_bytes s ≡ breach_text breach.now) }
{
    match breach {
        Breach::StampFell(a, b) => stamps(alloc, "StampFell", *a, *b),
        Breach::OutOfWindow(a, b) => stamps(alloc, "OutOfWindow", *a, *b),
        Breach::HeartbeatWrong(a, b) => stamps(alloc, "HeartbeatWrong", *a, *b),
        Breach::BelowHeartbeat(a, b) => stamps(alloc, "BelowHeartbeat", *a, *b),
        Breach::AfterChildren(a, b) => stamps(alloc, "AfterChildren", *a, *b),
        Breach::ChildStart(a, b) => stamps(alloc, "ChildStart", *a, *b),
        Breach::ChildDiffers(a, b) => tokens(alloc, "ChildDiffers", a, b),
        Breach::ParentMissing(a, b) => tokens(alloc, "ParentMissing", a, b),
        Breach::InitialWrong(a, b) => numbers(alloc, "InitialWrong", *a, *b),
        Breach::CaughtUpWrong(a, b) => caught_up(alloc, *a, *b),
        Breach::CutEarly(a, b) => numbers(alloc, "CutEarly", *a, *b),
        Breach::BadLine(line, fault) => fault_at(alloc, "BadLine", *line, line_fault_name(fault)),
        Breach::TooManyAtStamp(a, b) => at_stamp(alloc, "TooManyAtStamp", *a, *b),
        Breach::Orphan(a, b) => tokens(alloc, "Orphan", a, b),
        Breach::BadRecord(record, fault) => {
            fault_at(alloc, "BadRecord", *record, record_fault_name(fault))
        }
        Breach::TooManyRows(a, b) => numbers(alloc, "TooManyRows", *a, *b),
        Breach::TooManyChildren(a, b) => numbers(alloc, "TooManyChildren", *a, *b),
    }
}

fn line_fault_name(fault: &LineFault) -> &'static str
    ensures { result.now ≡ line_fault_name fault.now }
{
    match fault {
        LineFault::NotJson => "NotJson",
        LineFault::Member(_) => "Member",
        LineFault::ArrayCount => "ArrayCount",
        LineFault::BadValue(_) => "BadValue",
        LineFault::TooLong => "TooLong",
        LineFault::Memory => "Memory",
    }
}

fn record_fault_name(fault: &RecordFault) -> &'static str
    ensures { result.now ≡ record_fault_name fault.now }
{
    match fault {
        RecordFault::KeyMissing(_) => "KeyMissing",
        RecordFault::KeyTwice(_) => "KeyTwice",
        RecordFault::Memory => "Memory",
    }
}

/// A token, or `-` where there is none.
pub(crate) fn token_or_none(alloc: Global, token: &Option<Token>) -> Result<String, Memory>
    ensures { IfOk result (λ s. string_bytes s ≡ token_words token.now) }
{
    match token {
        None => Ok(String::from_str(alloc, "-")?),
        Some(token) => token_text(alloc, token),
    }
}

fn token_text(alloc: Global, token: &Token) -> Result<String, Memory>
    ensures { IfOk result (λ s. string_bytes s ≡ token.now) }
{
    let text = String::from_utf8_lossy(alloc, token.bytes())?;
    Ok(text)
}

/// A moment by its stamp, or by its microseconds where it lies outside of what stamps can say.
fn moment_text(alloc: Global, us: u64) -> Result<String, Memory>
    ensures { IfOk result (λ s. string_bytes s ≡ moment_words us) }
{
    match Stamp::of(us) {
        None => Ok(format!(in alloc; "{us}")?),
        Some(at) => {
            let at = at.write(alloc)?;
            Ok(String::from_str(alloc, at.as_str())?)
        }
    }
}

fn stamps(alloc: Global, name: &str, one: Stamp, other: Stamp) -> Result<String, Memory>
    ensures { IfOk result (λ s. string_bytes s ≡ with_values name.now (stamp_text one) (stamp_text other)) }
{
    let one = one.write(alloc)?;
    let other = other.write(alloc)?;
    words(alloc, name, one.as_str(), other.as_str())
}

fn tokens(alloc: Global, name: &str, one: &Token, other: &Token) -> Result<String, Memory>
    ensures { IfOk result (λ s. string_bytes s ≡ with_values name.now one.now other.now) }
{
    let one = token_text(alloc, one)?;
    let other = token_text(alloc, other)?;
    words(alloc, name, one.as_str(), other.as_str())
}

fn numbers(alloc: Global, name: &str, one: u64, other: u64) -> Result<String, Memory>
    ensures { IfOk result (λ s. string_bytes s ≡ with_values name.now (decimal one) (decimal other)) }
{
    Ok(format!(in alloc; "{name} {one} {other}")?)
}

fn caught_up(alloc: Global, moment: Stamp, offended: u64) -> Result<String, Memory>
    ensures { IfOk result (λ s. string_bytes s ≡ with_values (codes "CaughtUpWrong") (stamp_text moment) (moment_words offended)) }
{
    let moment = moment.write(alloc)?;
    let offended = moment_text(alloc, offended)?;
    words(alloc, "CaughtUpWrong", moment.as_str(), offended.as_str())
}

fn at_stamp(alloc: Global, name: &str, at: Stamp, count: u64) -> Result<String, Memory>
    ensures { IfOk result (λ s. string_bytes s ≡ with_values name.now (stamp_text at) (decimal count)) }
{
    let at = at.write(alloc)?;
    let count = format!(in alloc; "{count}")?;
    words(alloc, name, at.as_str(), count.as_str())
}

fn fault_at(alloc: Global, name: &str, number: u64, fault: &str) -> Result<String, Memory>
    ensures { IfOk result (λ s. string_bytes s ≡ with_values name.now (decimal number) fault.now) }
{
    let number = format!(in alloc; "{number}")?;
    words(alloc, name, number.as_str(), fault)
}

/// A name, and two values behind it.
fn words(alloc: Global, name: &str, one: &str, other: &str) -> Result<String, Memory>
    ensures { IfOk result (λ s. string_bytes s ≡ with_values name.now one.now other.now) }
{
    Ok(format!(in alloc; "{name} {one} {other}")?)
}
