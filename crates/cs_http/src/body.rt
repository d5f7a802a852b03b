ghost use Rattle.std.specs.Prelude.{◌≡◌, ◌++◌, IfOk, OnOk, IfSome, Some, ◌≤◌, length};
ghost use Rattle.cs_types.specs.Stamp.{IsStamp, stamp_text};
ghost use Rattle.cs_types.specs.Texts.{HasNoEnd};
ghost use Rattle.cs_link.specs.declared.refusal.ReadRefusal.{ReadRefusal as refusals};
ghost use Rattle.cs_http.specs.RefusalLine.{body_text, body_room, IsKeptRefusal, IsOneLine, line_refusal};

use cs_link::ReadRefusal;
use cs_types::{Memory, Stamp, Text, moment_texts_are_plain, written_stamps_read_back};
use std::alloc::Global;

/// The body of a refused READ, without its end: a JSON object of the refusal's kind and of what it
/// tells, its members in byte order of their names. `Wire`, which tells nothing but a status, has
/// none. The body is read again as the refusal, and has no line end in it where the name that it may
/// tell has none. A name stands in it as it is, byte for byte, which
/// is JSON for the names of a query: letters, digits and underscores.
pub fn refusal_body(alloc: Global, refusal: &ReadRefusal) -> Result<Option<Text>, Memory>
    ensures text { IfOk result (λ body. body ≡ body_text refusal.now) }
    ensures reads { IfOk result (λ body. IfSome body (λ line. line_refusal line ≡ Some refusal.now)) }
    ensures no_end { IsOneLine refusal.now → IfOk result (λ body. IfSome body HasNoEnd) }
    ensures room { IfOk result (λ body. IfSome body (λ line. length line ≤ body_room refusal.now)) }
{
    let body = body_of(alloc, refusal)?;
    written_stamps_read_back();
    moment_texts_are_plain();
    Ok(body)
}

fn body_of(alloc: Global, refusal: &ReadRefusal) -> Result<Option<Text>, Memory>
    ensures kept { OnOk result (IsKeptRefusal refusal.now) }
    ensures text { IfOk result (λ body. body ≡ body_text refusal.now) }
{
    match refusal {
        ReadRefusal::UnknownFunction => bare(alloc, "{\"refusal\":\"UnknownFunction\"}"),
        ReadRefusal::ArgumentType(name) => {
            told(
                alloc,
                "{\"name\":\"",
                name.as_str(),
                "\",\"refusal\":\"ArgumentType\"}",
            )
        }
        ReadRefusal::ArgumentMissing(name) => {
            told(
                alloc,
                "{\"name\":\"",
                name.as_str(),
                "\",\"refusal\":\"ArgumentMissing\"}",
            )
        }
        ReadRefusal::ReadOptions => bare(alloc, "{\"refusal\":\"ReadOptions\"}"),
        ReadRefusal::Heartbeat => bare(alloc, "{\"refusal\":\"Heartbeat\"}"),
        ReadRefusal::EndBeforeStart => bare(alloc, "{\"refusal\":\"EndBeforeStart\"}"),
        ReadRefusal::StartBeforeCreation => bare(alloc, "{\"refusal\":\"StartBeforeCreation\"}"),
        ReadRefusal::StartTooOld(at) => {
            dated(
                alloc,
                "{\"earliest\":\"",
                *at,
                "\",\"refusal\":\"StartTooOld\"}",
            )
        }
        ReadRefusal::StartInFuture(at) => {
            dated(
                alloc,
                "{\"moment\":\"",
                *at,
                "\",\"refusal\":\"StartInFuture\"}",
            )
        }
        ReadRefusal::UnknownToken => bare(alloc, "{\"refusal\":\"UnknownToken\"}"),
        ReadRefusal::StartBeforePartition(at) => {
            dated(
                alloc,
                "{\"from\":\"",
                *at,
                "\",\"refusal\":\"StartBeforePartition\"}",
            )
        }
        ReadRefusal::StartPastPartition(at) => {
            dated(
                alloc,
                "{\"refusal\":\"StartPastPartition\",\"until\":\"",
                *at,
                "\"}",
            )
        }
        ReadRefusal::Syntax(place) => placed(alloc, *place),
        ReadRefusal::Wire(_) => Ok(None),
    }
}

fn bare(alloc: Global, text: &str) -> Result<Option<Text>, Memory>
    ensures { IfOk result (λ body. body ≡ Some text.now) }
{
    Ok(Some(Text::of(alloc, text)?))
}

/// A text between two others.
fn told(alloc: Global, front: &str, text: &str, back: &str) -> Result<Option<Text>, Memory>
    ensures { IfOk result (λ body. body ≡ Some (front.now ++ text.now ++ back.now)) }
{
    let line = format!(in alloc; "{front}{text}{back}")?;
    Ok(Some(Text::from_string(line)?))
}

/// A moment between two texts.
fn dated(alloc: Global, front: &str, at: Stamp, back: &str) -> Result<Option<Text>, Memory>
    ensures kept { OnOk result (IsStamp at) }
    ensures text { IfOk result (λ body. body ≡ Some (front.now ++ stamp_text at ++ back.now)) }
{
    let stamp = at.write(alloc)?;
    told(alloc, front, stamp.as_str(), back)
}

/// The body that tells the place of a fault in a query's text.
fn placed(alloc: Global, place: u64) -> Result<Option<Text>, Memory>
    ensures { IfOk result (λ body. body ≡ body_text (refusals.Syntax place)) }
{
    let line = format!(in alloc; "{{\"place\":{place},\"refusal\":\"Syntax\"}}")?;
    Ok(Some(Text::from_string(line)?))
}
