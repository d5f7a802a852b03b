ghost use Rattle.std.specs.Prelude.{◌≡◌, option_map, map};
ghost use Rattle.serde_json.specs.View.{view, items_view};
ghost use Rattle.cs_json_reading.specs.Missing.{first_absent, missing_in, first_in, missing_in_change, missing_in_children, missing, bad_array};

use crate::tree::{absent, elements, no_array};
use serde_json::Value;

/// The first required member that is absent, in all elements of the three arrays.
#[tactic(auto, unfolding(crate::specs::Missing::missing))]
pub(crate) fn missing(tree: &Value) -> Option<&'static str>
    ensures { option_map (λ s. s.now) result ≡ missing (view tree.now) }
{
    if let Some(name) = in_children(elements(tree, "child_partitions_record")) {
        return Some(name);
    }
    if let Some(name) = in_changes(elements(tree, "data_change_record")) {
        return Some(name);
    }
    in_elements(elements(tree, "heartbeat_record"), &["timestamp"])
}

fn in_children(items: &[Value]) -> Option<&'static str>
    ensures { option_map (λ s. s.now) result ≡ first_in missing_in_children (items_view items.now) }
{
    let mut rest = items;
    while let [first, after @ ..] = rest {
        if let Some(name) = missing_in_children(first) {
            return Some(name);
        }
        rest = after;
    }
    None
}

fn missing_in_children(tree: &Value) -> Option<&'static str>
    ensures { option_map (λ s. s.now) result ≡ missing_in_children (view tree.now) }
{
    let names = ["start_timestamp", "record_sequence", "child_partitions"];
    if let Some(name) = missing_in(tree, &names) {
        return Some(name);
    }
    in_elements(elements(tree, "child_partitions"), &["token"])
}

fn in_changes(items: &[Value]) -> Option<&'static str>
    ensures { option_map (λ s. s.now) result ≡ first_in missing_in_change (items_view items.now) }
{
    let mut rest = items;
    while let [first, after @ ..] = rest {
        if let Some(name) = missing_in_change(first) {
            return Some(name);
        }
        rest = after;
    }
    None
}

fn missing_in_change(tree: &Value) -> Option<&'static str>
    ensures { option_map (λ s. s.now) result ≡ missing_in_change (view tree.now) }
{
    let names = [
        "commit_timestamp",
        "record_sequence",
        "server_transaction_id",
        "is_last_record_in_transaction_in_partition",
        "table_name",
        "column_types",
        "mods",
        "mod_type",
        "value_capture_type",
        "number_of_records_in_transaction",
        "number_of_partitions_in_transaction",
    ];
    if let Some(name) = missing_in(tree, &names) {
        return Some(name);
    }
    let names = ["name", "type", "is_primary_key", "ordinal_position"];
    if let Some(name) = in_elements(elements(tree, "column_types"), &names) {
        return Some(name);
    }
    in_elements(elements(tree, "mods"), &["keys"])
}

/// The first of the names that an element lacks, of the first element that lacks one.
fn in_elements(items: &[Value], names: &[&'static str]) -> Option<&'static str>
    ensures { option_map (λ s. s.now) result ≡ first_in (missing_in (map (λ s. s.now) names.now)) (items_view items.now) }
{
    let mut rest = items;
    while let [first, after @ ..] = rest {
        if let Some(name) = missing_in(first, names) {
            return Some(name);
        }
        rest = after;
    }
    None
}

/// The first of the names that an object lacks.
fn missing_in(tree: &Value, names: &[&'static str]) -> Option<&'static str>
    ensures { option_map (λ s. s.now) result ≡ missing_in (map (λ s. s.now) names.now) (view tree.now) }
{
    if !tree.is_object() {
        return None;
    }
    first_absent(tree, names)
}

fn first_absent(tree: &Value, names: &[&'static str]) -> Option<&'static str>
    ensures { option_map (λ s. s.now) result ≡ first_absent (map (λ s. s.now) names.now) (view tree.now) }
{
    let mut rest = names;
    while let [first, after @ ..] = rest {
        if let Some(name) = absent(tree, *first) {
            return Some(name);
        }
        rest = after;
    }
    None
}

/// The first of the three arrays that is none.
#[tactic(auto, unfolding(crate::specs::Missing::bad_array))]
pub(crate) fn bad_array(tree: &Value) -> Option<&'static str>
    ensures { option_map (λ s. s.now) result ≡ bad_array (view tree.now) }
{
    if let Some(name) = no_array(tree, "child_partitions_record") {
        return Some(name);
    }
    if let Some(name) = no_array(tree, "data_change_record") {
        return Some(name);
    }
    no_array(tree, "heartbeat_record")
}
