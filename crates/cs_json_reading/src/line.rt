ghost use Rattle.std.specs.Prelude.{◌≡◌, ◌==◌, ◌≤◌, IfOk, MatchResult, length};
ghost use Rattle.serde_json.specs.Read.{read};
ghost use Rattle.serde_json.specs.View.{view};
ghost use Rattle.cs_json_reading.specs.Missing.{count};
ghost use Rattle.cs_json_reading.specs.Reading.{Gives};
ghost use Rattle.cs_json_reading.specs.Line.{Spells, line_end, object_reading, element_reading, tree_reading, of_tree, line_reading};
ghost use Rattle.cs_json_reading.specs.Standing.{CanStand};

use crate::change::change_of;
use crate::children::{children_of, heartbeat_of};
use crate::fault::{bad, missed};
use crate::missing::{bad_array, missing};
use crate::tree::elements;
use cs_records::{LineFault, Record};
use serde_json::Value;
use std::alloc::Global;

/// The most bytes of a line, an end of this project's own.
pub const LINE_END: usize = 8_388_608;

/// The record for which a line stands, which is given without its end. The line is a JSON object
/// (RFC 8259) with the arrays `child_partitions_record`, `data_change_record` and
/// `heartbeat_record`, which together have one element; an absent array and null are empty. The
/// members of the element are those of Spanner's page
/// <https://cloud.google.com/spanner/docs/change-streams/details>. Unknown members are passed over,
/// and of two members of one name the later counts. Trees in the places of `type`, `keys`,
/// `new_values` and `old_values` may also stand as texts that hold them, and whole numbers as texts
/// of digits.
///
/// A line is refused by the first of these faults that it has, an order of this project's own:
/// - `TooLong`: it has more than [`LINE_END`] bytes.
/// - `NotJson`: it is no JSON object in UTF-8.
/// - `Member(name)`: an element of one of the arrays lacks a required member, or one of its
///   columns, mods or children does.
/// - `ArrayCount`: the arrays do not have one element together.
/// - `BadValue(name)`: a member has a value that it cannot have, a column's name stands twice, or a
///   cell is of no listed column or not of its column's type. The name is the member's, the
///   column's, or for an element that is no object its array's.
///
/// It takes time in the size of the line, and a search among the columns for each cell.
pub fn record_from_line(alloc: Global, line: &[u8]) -> Result<Record, LineFault>
    ensures reading { Gives result (line_reading line.now) }
    ensures short { IfOk result (λ _. length line.now ≤ line_end) }
    ensures spelled { IfOk result (λ r. Spells r line.now) }
    ensures all { (r : Record) → Spells r line.now → length line.now ≤ line_end → MatchResult result (λ s. s ≡ r) (λ e. e ≡ LineFault.Memory) }
    ensures writable { IfOk result CanStand }
    ensures one { (r s : Record) → Spells r line.now → Spells s line.now → r ≡ s }
{
    read_line(alloc, line)
}

#[tactic(auto, using(crate::proofs::Lines::too_long, crate::proofs::Lines::no_text, crate::proofs::Lines::of_text))]
fn read_line(alloc: Global, line: &[u8]) -> Result<Record, LineFault>
    ensures { Gives result (line_reading line.now) }
{
    if line.len() > LINE_END {
        return Err(LineFault::TooLong);
    }
    let Ok(text) = str::from_utf8(line) else {
        return Err(LineFault::NotJson);
    };
    of_text(alloc, text)
}

fn of_text(alloc: Global, text: &str) -> Result<Record, LineFault>
    ensures { Gives result (of_tree (read text.now)) }
{
    match Value::from_str(alloc, text) {
        Ok(tree) => of_object(alloc, &tree),
        Err(error) => {
            if error.is_memory() {
                Err(LineFault::Memory)
            } else {
                Err(LineFault::NotJson)
            }
        }
    }
}

fn of_object(alloc: Global, tree: &Value) -> Result<Record, LineFault>
    ensures { Gives result (object_reading (view tree.now)) }
{
    if !tree.is_object() {
        return Err(LineFault::NotJson);
    }
    of_tree(alloc, tree)
}

#[tactic(auto, unfolding(crate::specs::Line::tree_reading))]
fn of_tree(alloc: Global, tree: &Value) -> Result<Record, LineFault>
    ensures { Gives result (tree_reading (view tree.now)) }
{
    if let Some(name) = missing(tree) {
        return Err(missed(alloc, name));
    }
    if !is_one(tree) {
        return Err(LineFault::ArrayCount);
    }
    of_element(alloc, tree)
}

/// Whether the three arrays have one element together.
#[tactic(auto, using(crate::proofs::Lines::count_is_one, crate::proofs::Lines::more_than_one))]
fn is_one(tree: &Value) -> bool
    ensures { result ≡ (count (view tree.now) == 1) }
{
    let children = elements(tree, "child_partitions_record").len();
    let changes = elements(tree, "data_change_record").len();
    let heartbeats = elements(tree, "heartbeat_record").len();
    if children > 1 {
        return false;
    }
    if changes > 1 {
        return false;
    }
    if heartbeats > 1 {
        return false;
    }
    children + changes + heartbeats == 1
}

#[tactic(auto, unfolding(crate::specs::Line::element_reading))]
fn of_element(alloc: Global, tree: &Value) -> Result<Record, LineFault>
    ensures { Gives result (element_reading (view tree.now)) }
{
    if let Some(name) = bad_array(tree) {
        return Err(bad(alloc, name));
    }
    if let [first, ..] = elements(tree, "child_partitions_record") {
        return children_of(alloc, first);
    }
    if let [first, ..] = elements(tree, "data_change_record") {
        return change_of(alloc, first);
    }
    if let [first, ..] = elements(tree, "heartbeat_record") {
        return heartbeat_of(alloc, first);
    }
    Err(LineFault::ArrayCount)
}
