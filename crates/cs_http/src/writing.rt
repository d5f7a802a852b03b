ghost use Rattle.std.specs.Prelude.{◌≡◌, ◌≤◌, IfOk, Ok, length};
ghost use Rattle.cs_types.specs.Texts.{HasNoEnd};
ghost use Rattle.cs_link.specs.declared.reading.Step.{Step as steps};
ghost use Rattle.cs_json_reading.specs.Line.{line_end};
ghost use Rattle.cs_json_reading.specs.Standing.{CanStand};
ghost use Rattle.cs_json.specs.Written.{record_line};
ghost use Rattle.cs_http.specs.Line.{line_step, step_text, closing_text, CanStandAs};
ghost use Rattle.cs_http.specs.Room.{record_room, step_room};

use crate::closing::closing_line;
use cs_json::record_to_line;
use cs_link::{Closing, Step};
use cs_records::Record;
use cs_types::{Memory, Text};
use std::alloc::Global;

/// The line of an answer that stands for a step, without its end: that of its record, as
/// `record_to_line` of cs_json writes it, or its closing line. A line can stand for the step: where
/// it is a record, that is what `record_to_line` needs. The line has no end in it, and one of at
/// most `LINE_END` bytes, which are 8,388,608, is read again as the step. It has no more bytes than
/// its room: 64 for a closing line, and for a record a sum over its cells as JSON, its names and its
/// tokens. It takes time in the size of the line.
pub fn answer_line(alloc: Global, step: &Step) -> Result<Text, Memory>
    requires { CanStandAs step.now }
    ensures text { IfOk result (λ line. line ≡ step_text step.now) }
    ensures no_end { IfOk result HasNoEnd }
    ensures reads { IfOk result (λ line. length line ≤ line_end → line_step line ≡ Ok step.now) }
    ensures room { IfOk result (λ line. length line ≤ step_room step.now) }
{
    match step {
        Step::Record(item) => line_of_record(alloc, item),
        Step::Closing(closing) => line_of_closing(alloc, closing),
    }
}

fn line_of_record(alloc: Global, item: &Record) -> Result<Text, Memory>
    requires { CanStand item.now }
    ensures text { IfOk result (λ line. line ≡ record_line item.now) }
    ensures no_end { IfOk result HasNoEnd }
    ensures reads { IfOk result (λ line. length line ≤ line_end → line_step line ≡ Ok (steps.Record item.now)) }
    ensures room { IfOk result (λ line. length line ≤ record_room item.now) }
{
    record_to_line(alloc, item)
}

fn line_of_closing(alloc: Global, closing: &Closing) -> Result<Text, Memory>
    ensures text { IfOk result (λ line. line ≡ closing_text closing.now) }
    ensures no_end { IfOk result HasNoEnd }
    ensures reads { IfOk result (λ line. line_step line ≡ Ok (steps.Closing closing.now)) }
    ensures room { IfOk result (λ line. length line ≤ 64) }
{
    closing_line(alloc, closing)
}
