ghost use Rattle.std.specs.Prelude.{◌≡◌, IfOk};
ghost use Rattle.cs_link.specs.declared.reading.Closing.TheVariants.{CaughtUp};
ghost use Rattle.cs_answer_lines.specs.StepLine.{closing_text, step_text, CanStandAs};

use cs_json::record_to_line;
use cs_link::{Closing, Step};
use cs_types::{Memory, Stamp, Text};
use std::alloc::Global;

/// The line of an answer that gave all that was asked for.
const FINISHED: &str = "{\"closing\":\"FINISHED\"}";
/// The line of an answer behind which there is more.
const CUT: &str = "{\"closing\":\"CUT\"}";

/// The one line of a step, without its end: that of its record, as `record_to_line` of cs_json
/// writes it, or a line that closes the answer, which for a READ that caught up tells the present
/// moment. A line can stand for the step: where it is a record, that is what `record_to_line`
/// needs, and each step of an answer is so by [`crate::answers_can_stand`]. It takes time in the
/// size of the line.
pub fn step_line(alloc: Global, step: &Step) -> Result<Text, Memory>
    requires { CanStandAs step.now }
    ensures { IfOk result (λ t. t ≡ step_text step.now) }
{
    match step {
        Step::Record(item) => record_to_line(alloc, item),
        Step::Closing(closing) => closing_line(alloc, *closing),
    }
}

fn closing_line(alloc: Global, closing: Closing) -> Result<Text, Memory>
    ensures { IfOk result (λ t. t ≡ closing_text closing) }
{
    match closing {
        Closing::Finished => Text::of(alloc, FINISHED),
        Closing::CaughtUp(moment) => caught_up_line(alloc, moment),
        Closing::Cut => Text::of(alloc, CUT),
    }
}

fn caught_up_line(alloc: Global, moment: Stamp) -> Result<Text, Memory>
    ensures { IfOk result (λ t. t ≡ closing_text (CaughtUp moment)) }
{
    let stamp = moment.write(alloc)?;
    let text = stamp.as_str();
    let line = format!(in alloc; "{{\"closing\":\"CAUGHT_UP\",\"moment\":\"{text}\"}}")?;
    Text::from_string(line)
}
