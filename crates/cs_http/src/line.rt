ghost use Rattle.std.specs.Prelude.{◌≡◌, ◌≢◌, ◌≤◌, ◌+◌, ℕ, List, length, MatchOption, MatchResult, Ok, Err, IsTrue, ◌↔◌, None};
ghost use Rattle.cs_types.specs.Stamp.{stamp_reading};
ghost use Rattle.cs_json_reading.specs.Line.{line_reading};
ghost use Rattle.cs_http.specs.Line.{IsBetween, caught_reading, closing_reading, line_step};
ghost use Rattle.cs_records.specs.declared.faults.LineFault.{LineFault as line_faults};

use cs_json_reading::record_from_line;
use cs_link::{Closing, Step};
use cs_records::{LineFault, Record};
use cs_types::Stamp;
use std::alloc::Global;

pub(crate) fn is_same(one: &[u8], other: &[u8]) -> bool
    ensures { IsTrue result ↔ (one.now ≡ other.now) }
{
    one == other
}

/// The text of a line between these.
pub(crate) fn between<'a>(line: &'a [u8], front: &[u8], back: &[u8]) -> Option<&'a [u8]>
    requires { length front.now + length back.now ≤ 1000 }
    ensures { MatchOption result ((text : List ℕ) → IsBetween front.now back.now line.now text → ⊥) (λ text. IsBetween front.now back.now line.now text.now) }
{
    if line.len() < front.len() + back.len() {
        return None;
    }
    let behind = line.len() - back.len();
    if !is_same(&line[..front.len()], front) {
        return None;
    }
    if !is_same(&line[behind..], back) {
        return None;
    }
    Some(&line[front.len()..behind])
}

/// The stamp that a text spells.
pub(crate) fn stamp_of(text: &[u8]) -> Option<Stamp>
    ensures { result ≡ stamp_reading text.now }
{
    match Stamp::read(text) {
        Ok(at) => Some(at),
        Err(_) => None,
    }
}

fn caught_up(line: &[u8]) -> Option<Stamp>
    ensures { result ≡ caught_reading line.now }
{
    match between(line, b"{\"closing\":\"CAUGHT_UP\",\"moment\":\"", b"\"}") {
        None => None,
        Some(text) => stamp_of(text),
    }
}

/// The ending of which a line is the closing line.
#[tactic(auto, unfolding(crate::specs::Line::closing_reading))]
fn closing_of(line: &[u8]) -> Option<Closing>
    ensures { result ≡ closing_reading line.now }
{
    if is_same(line, b"{\"closing\":\"FINISHED\"}") {
        return Some(Closing::Finished);
    }
    if is_same(line, b"{\"closing\":\"CUT\"}") {
        return Some(Closing::Cut);
    }
    match caught_up(line) {
        Some(at) => Some(Closing::CaughtUp(at)),
        None => None,
    }
}

fn record_of(alloc: Global, line: &[u8]) -> Result<Record, LineFault>
    ensures { MatchResult result (λ r. line_reading line.now ≡ Ok r) (λ e. e ≢ line_faults.Memory → line_reading line.now ≡ Err e) }
{
    record_from_line(alloc, line)
}

/// The step for which a line of an answer stands, which is given without its end: a closing line,
/// whose moment may be any text of a stamp, or else a record. The fault of any other line is that of
/// `record_from_line` of cs_json_reading. It takes time in the size of the line.
#[tactic(auto, unfolding(crate::specs::Line::line_step))]
pub fn step_of(alloc: Global, line: &[u8]) -> Result<Step, LineFault>
    ensures { MatchResult result (λ step. line_step line.now ≡ Ok step) (λ e. e ≢ line_faults.Memory → line_step line.now ≡ Err e) }
{
    if let Some(closing) = closing_of(line) {
        return Ok(Step::Closing(closing));
    }
    match record_of(alloc, line) {
        Ok(record) => Ok(Step::Record(record)),
        Err(fault) => Err(fault),
    }
}
