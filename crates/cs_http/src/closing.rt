ghost use Rattle.std.specs.Prelude.{◌≡◌, ◌++◌, IfOk, Some, string_bytes};
ghost use Rattle.cs_types.specs.Texts.{HasNoEnd};
ghost use Rattle.cs_http.specs.Line.{moment_front, moment_back, closing_text, closing_reading};
ghost use Rattle.cs_link.specs.declared.reading.Closing.{Closing as closings};

use cs_link::Closing;
use cs_types::{Memory, Stamp, Text, moment_texts_are_plain, written_stamps_read_back};
use std::alloc::Global;

/// The line of an answer that gave all that was asked for.
const FINISHED: &str = "{\"closing\":\"FINISHED\"}";

/// The line of an answer behind which there is more.
const CUT: &str = "{\"closing\":\"CUT\"}";

/// The line that closes an answer, without its end. It has no end in it, and is read as the ending
/// for which it was written.
pub fn closing_line(alloc: Global, closing: &Closing) -> Result<Text, Memory>
    ensures text { IfOk result (λ line. line ≡ closing_text closing.now) }
    ensures read { IfOk result (λ line. closing_reading line ≡ Some closing.now) }
    ensures no_end { IfOk result HasNoEnd }
{
    match closing {
        Closing::Finished => Text::of(alloc, FINISHED),
        Closing::CaughtUp(at) => caught_up_line(alloc, *at),
        Closing::Cut => Text::of(alloc, CUT),
    }
}

/// The closing line that caught up with a moment.
fn caught_up_line(alloc: Global, at: Stamp) -> Result<Text, Memory>
    ensures text { IfOk result (λ line. line ≡ closing_text (closings.CaughtUp at)) }
    ensures read { IfOk result (λ line. closing_reading line ≡ Some (closings.CaughtUp at)) }
    ensures no_end { IfOk result HasNoEnd }
{
    let stamp = at.write(alloc)?;
    let line = caught_up_text(alloc, stamp.as_str())?;
    moment_texts_are_plain();
    written_stamps_read_back();
    Text::from_string(line)
}

fn caught_up_text(alloc: Global, moment: &str) -> Result<String, Memory>
    ensures { IfOk result (λ line. string_bytes line ≡ moment_front ++ moment.now ++ moment_back) }
{
    Ok(format!(in alloc; "{{\"closing\":\"CAUGHT_UP\",\"moment\":\"{moment}\"}}")?)
}
