ghost use Rattle.std.specs.Prelude.{◌≡◌, ◌<◌, IfOk, OnOk, string_bytes};
ghost use Rattle.serde_json.specs.Data.{string};
ghost use Rattle.serde_json.specs.View.{view};
ghost use Rattle.cs_types.specs.Stamp.{IsStamp, stamp_text};
ghost use Rattle.cs_json_reading.specs.Texts.{capture_text, code_text};
ghost use Rattle.cs_json.specs.Written.{eight_digits as eight_digits_text};

use cs_types::{CaptureType, ColumnType, Memory, Stamp, four_digits};
use serde_json::Value;
use std::alloc::{AllocError, Global};

pub(crate) fn stamp_tree(alloc: Global, at: Stamp) -> Result<Value, Memory>
    ensures kept { OnOk result (IsStamp at) }
    ensures value { IfOk result (λ v. view v ≡ string (stamp_text at)) }
{
    let text = at.write(alloc)?;
    let tree = text_tree(alloc, text.as_str())?;
    Ok(tree)
}

pub(crate) fn text_tree(alloc: Global, text: &str) -> Result<Value, Memory>
    ensures { IfOk result (λ v. view v ≡ string text.now) }
{
    Ok(Value::String(String::from_str(alloc, text)?))
}

/// A number below 100,000,000 in eight digits.
#[tactic(auto, unfolding(crate::specs::Written::eight_digits))]
pub(crate) fn eight_digits(alloc: Global, n: u32) -> Result<String, AllocError>
    requires { n < 100000000 }
    ensures { IfOk result (λ s. string_bytes s ≡ eight_digits_text n) }
{
    let high = four_digits(alloc, n / 10_000)?;
    let low = four_digits(alloc, n % 10_000)?;
    format!(in alloc; "{high}{low}")
}

pub(crate) fn capture_name(capture: CaptureType) -> &'static str
    ensures { result.now ≡ capture_text capture }
{
    match capture {
        CaptureType::OldAndNewValues => "OLD_AND_NEW_VALUES",
        CaptureType::NewValues => "NEW_VALUES",
        CaptureType::NewRow => "NEW_ROW",
        CaptureType::NewRowAndOldValues => "NEW_ROW_AND_OLD_VALUES",
    }
}

pub(crate) fn code_name(ty: ColumnType) -> &'static str
    ensures { result.now ≡ code_text ty }
{
    match ty {
        ColumnType::Bool => "BOOL",
        ColumnType::Int64 => "INT64",
        ColumnType::Numeric => "NUMERIC",
        ColumnType::Text => "STRING",
        ColumnType::Bytes => "BYTES",
        ColumnType::Date => "DATE",
        ColumnType::Timestamp => "TIMESTAMP",
    }
}
