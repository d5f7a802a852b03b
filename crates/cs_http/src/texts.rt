ghost use Rattle.std.specs.Prelude.{◌≡◌, ◌≤◌, ℕ, List, length, Ok, Some};
ghost use Rattle.cs_records.specs.declared.records.Record.{Record};
ghost use Rattle.cs_types.specs.Texts.{HasNoEnd};
ghost use Rattle.cs_link.specs.declared.reading.Closing.{Closing};
ghost use Rattle.cs_link.specs.declared.reading.ReadArgs.{ReadArgs};
ghost use Rattle.cs_link.specs.declared.reading.Step.{Step};
ghost use Rattle.cs_link.specs.declared.refusal.ReadRefusal.{ReadRefusal};
ghost use Rattle.cs_json_reading.specs.Line.{line_reading};
ghost use Rattle.cs_json.specs.Written.{record_line};
ghost use Rattle.cs_http.specs.Line.{closing_text, step_text, line_step, IsKeptStep};
ghost use Rattle.cs_http.specs.Reading.{request_limit, IsReading};
ghost use Rattle.cs_http.specs.RefusalLine.{body_text, body_room, IsKeptRefusal, IsOneLine, line_refusal};
ghost use Rattle.cs_http.specs.Request.{query_text, request_text, IsKeptArgs};
ghost use Rattle.cs_http.specs.Room.{step_room};

use cs_types::{moment_texts_are_plain, written_stamps_read_back};

/// A law: what is written for a step is one line, of no more bytes than its room, which is read as
/// the step; for a record that is so where its line is read as the record.
pub fn written_steps_are_lines()
    ensures no_end { (step : Step) → IsKeptStep step → HasNoEnd (step_text step) }
    ensures room { (step : Step) → length (step_text step) ≤ step_room step }
    ensures closings { (closing : Closing) → IsKeptStep (Step.Closing closing) → line_step (closing_text closing) ≡ Ok (Step.Closing closing) }
    ensures records { (item : Record) → line_reading (record_line item) ≡ Ok item → line_step (record_line item) ≡ Ok (Step.Record item) }
{
    moment_texts_are_plain();
    written_stamps_read_back();
}

/// A law: the body that is written for a refusal is read as it, has no more bytes than its room,
/// and is one line where the name that it may tell has no line end.
pub fn written_refusals_read_back()
    ensures read { (refusal : ReadRefusal) (line : List ℕ) → IsKeptRefusal refusal → body_text refusal ≡ Some line → line_refusal line ≡ Some refusal }
    ensures no_end { (refusal : ReadRefusal) (line : List ℕ) → IsKeptRefusal refusal → IsOneLine refusal → body_text refusal ≡ Some line → HasNoEnd line }
    ensures room { (refusal : ReadRefusal) (line : List ℕ) → body_text refusal ≡ Some line → length line ≤ body_room refusal }
{
    moment_texts_are_plain();
    written_stamps_read_back();
}

/// A law: the request that is written for a READ is read as its query, where it is not too long.
pub fn written_requests_read_back()
    ensures { (args : ReadArgs) → IsKeptArgs args → length (request_text args) ≤ request_limit → IsReading (request_text args) (Ok (query_text args)) }
{
    moment_texts_are_plain();
}
