ghost use Rattle.std.specs.Prelude.{◌≡◌, Ok, Err, MatchResult, option_map};
ghost use Rattle.serde_json.specs.Find.{get, as_array};
ghost use Rattle.serde_json.specs.View.{view, items_view};
ghost use Rattle.cs_json_reading.specs.Reading.{not_memory, required};
ghost use Rattle.cs_json_reading.specs.Missing.{absent, elements, no_array};

use crate::fault::{bad, missed};
use cs_records::LineFault;
use serde_json::Value;
use std::alloc::Global;

/// The elements of a member that is an array; else none.
pub(crate) fn elements<'a>(tree: &'a Value, name: &str) -> &'a [Value]
    ensures { items_view result.now ≡ elements (get name.now (view tree.now)) }
{
    match tree.get(name) {
        Some(Value::Array(items)) => items.as_slice(),
        _ => &[],
    }
}

/// The elements of a member that must be an array.
pub(crate) fn array<'a>(
    alloc: Global,
    tree: &'a Value,
    name: &str,
) -> Result<&'a [Value], LineFault>
    ensures { MatchResult result (λ xs. required as_array name.now (view tree.now) ≡ Ok (items_view xs.now))
        (λ e. not_memory e → required as_array name.now (view tree.now) ≡ Err e) }
{
    let Some(member) = tree.get(name) else {
        return Err(missed(alloc, name));
    };
    match member {
        Value::Array(items) => Ok(items.as_slice()),
        _ => Err(bad(alloc, name)),
    }
}

/// The name, where the member is absent.
pub(crate) fn absent(tree: &Value, name: &'static str) -> Option<&'static str>
    ensures { option_map (λ s. s.now) result ≡ absent name.now (view tree.now) }
{
    match tree.get(name) {
        Some(_) => None,
        None => Some(name),
    }
}

/// The name, where the member is there and is no array and not null.
pub(crate) fn no_array(tree: &Value, name: &'static str) -> Option<&'static str>
    ensures { option_map (λ s. s.now) result ≡ no_array name.now (get name.now (view tree.now)) }
{
    match tree.get(name) {
        None => None,
        Some(member) => {
            if member.is_null() {
                return None;
            }
            if member.is_array() {
                return None;
            }
            Some(name)
        }
    }
}
