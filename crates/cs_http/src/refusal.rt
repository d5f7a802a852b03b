ghost use Rattle.std.specs.Prelude.{◌≡◌, ◌≤◌, ◌+◌, length, codes, IfOk, IfSome};
ghost use Rattle.cs_http.specs.RefusalLine.{moment_told, place_told, name_told, text_of, bare_refusal, dated_refusal, named_refusal, line_refusal};

use crate::line::{between, is_same, stamp_of};
use crate::number::number_of;
use cs_link::ReadRefusal;
use cs_types::{Memory, Stamp, Text};
use std::alloc::Global;

/// The refusal of a body that tells nothing more.
fn bare_of(line: &[u8]) -> Option<ReadRefusal>
    ensures { result ≡ bare_refusal line.now }
{
    if is_same(line, b"{\"refusal\":\"UnknownFunction\"}") {
        return Some(ReadRefusal::UnknownFunction);
    }
    if is_same(line, b"{\"refusal\":\"ReadOptions\"}") {
        return Some(ReadRefusal::ReadOptions);
    }
    if is_same(line, b"{\"refusal\":\"Heartbeat\"}") {
        return Some(ReadRefusal::Heartbeat);
    }
    if is_same(line, b"{\"refusal\":\"EndBeforeStart\"}") {
        return Some(ReadRefusal::EndBeforeStart);
    }
    if is_same(line, b"{\"refusal\":\"StartBeforeCreation\"}") {
        return Some(ReadRefusal::StartBeforeCreation);
    }
    if is_same(line, b"{\"refusal\":\"UnknownToken\"}") {
        return Some(ReadRefusal::UnknownToken);
    }
    None
}

/// The moment that a line tells between these.
fn moment_of(line: &[u8], front: &[u8], back: &[u8]) -> Option<Stamp>
    requires { length front.now + length back.now ≤ 1000 }
    ensures { result ≡ moment_told front.now back.now line.now }
{
    match between(line, front, back) {
        None => None,
        Some(text) => stamp_of(text),
    }
}

/// The number that a line tells between these.
fn place_of(line: &[u8], front: &[u8], back: &[u8]) -> Option<u64>
    requires { length front.now + length back.now ≤ 1000 }
    ensures { result ≡ place_told front.now back.now line.now }
{
    match between(line, front, back) {
        None => None,
        Some(text) => number_of(text),
    }
}

/// The refusal of a body that tells a moment or a place.
fn dated_of(line: &[u8]) -> Option<ReadRefusal>
    ensures { result ≡ dated_refusal line.now }
{
    if let Some(at) = moment_of(
        line,
        b"{\"earliest\":\"",
        b"\",\"refusal\":\"StartTooOld\"}",
    ) {
        return Some(ReadRefusal::StartTooOld(at));
    }
    if let Some(at) = moment_of(
        line,
        b"{\"moment\":\"",
        b"\",\"refusal\":\"StartInFuture\"}",
    ) {
        return Some(ReadRefusal::StartInFuture(at));
    }
    if let Some(at) = moment_of(
        line,
        b"{\"from\":\"",
        b"\",\"refusal\":\"StartBeforePartition\"}",
    ) {
        return Some(ReadRefusal::StartBeforePartition(at));
    }
    if let Some(at) = moment_of(
        line,
        b"{\"refusal\":\"StartPastPartition\",\"until\":\"",
        b"\"}",
    ) {
        return Some(ReadRefusal::StartPastPartition(at));
    }
    match place_of(line, b"{\"place\":", b",\"refusal\":\"Syntax\"}") {
        Some(place) => Some(ReadRefusal::Syntax(place)),
        None => None,
    }
}

/// The text that bytes are, if they are one.
fn text_of(alloc: Global, bytes: &[u8]) -> Result<Option<Text>, Memory>
    ensures { IfOk result (λ o. o ≡ text_of bytes.now) }
{
    match str::from_utf8(bytes) {
        Ok(text) => Ok(Some(Text::of(alloc, text)?)),
        Err(_) => Ok(None),
    }
}

/// The refusal of a body that tells a name.
fn named_of(alloc: Global, line: &[u8]) -> Result<Option<ReadRefusal>, Memory>
    ensures { IfOk result (λ o. o ≡ named_refusal line.now) }
{
    if let Some(name) = name_of(alloc, line, b"\",\"refusal\":\"ArgumentType\"}")? {
        return Ok(Some(ReadRefusal::ArgumentType(name)));
    }
    match name_of(alloc, line, b"\",\"refusal\":\"ArgumentMissing\"}")? {
        Some(name) => Ok(Some(ReadRefusal::ArgumentMissing(name))),
        None => Ok(None),
    }
}

/// The name that a line tells between these.
fn name_of(alloc: Global, line: &[u8], back: &[u8]) -> Result<Option<Text>, Memory>
    requires { length back.now ≤ 900 }
    ensures { IfOk result (λ o. o ≡ name_told back.now line.now) }
{
    match between(line, b"{\"name\":\"", back) {
        None => Ok(None),
        Some(name) => text_of(alloc, name),
    }
}

/// The refusal of a READ whose body is this line, which is given without its end. A moment may be
/// any text of a stamp, and a name any text; a line that is no body has none.
#[tactic(auto, unfolding(crate::specs::RefusalLine::line_refusal))]
pub fn refusal_of(alloc: Global, line: &[u8]) -> Result<Option<ReadRefusal>, Memory>
    ensures { IfOk result (λ o. o ≡ line_refusal line.now) }
{
    if let Some(refusal) = bare_of(line) {
        return Ok(Some(refusal));
    }
    if let Some(refusal) = dated_of(line) {
        return Ok(Some(refusal));
    }
    named_of(alloc, line)
}
