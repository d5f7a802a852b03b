ghost use Rattle.std.specs.Prelude.{◌≡◌, ◌≤◌, ◌<◌, IfOk, OnOk, All, Ok, true, length, map, string_bytes};
ghost use Rattle.serde_json.specs.Data.{string, array};
ghost use Rattle.serde_json.specs.View.{view, items_view, items_of};
ghost use Rattle.cs_types.specs.Stamp.{IsStamp, stamp_text};
ghost use Rattle.cs_types.specs.Token.{is_token};
ghost use Rattle.cs_json_reading.specs.Line.{Spells, line_end, line_reading};
ghost use Rattle.cs_json_reading.specs.Standing.{CanStand};
ghost use Rattle.cs_json.specs.Written.{heartbeat_data, child_data, children_data, line_data, record_data, record_line, IsKeptChild, IsKept};

use crate::laws::written_trees_read_back;
use crate::written_change::change_tree;
use crate::written_texts::{eight_digits, stamp_tree};
use cs_records::{Child, ChildRecord, Record};
use cs_types::{Memory, Stamp, Text, Token};
use serde_json::{Map, Value, put};
use std::alloc::Global;

/// The one line of a record, without its end: its JSON without blanks, the members in byte order of
/// their names, sequences in eight digits and counts as numbers. A line can stand for the record:
/// its sequence is at most 99,999,999, its counts are below 2^63, its table and its transaction's
/// id are within their grammars, there is a mod, no two columns have one name, and each cell is of
/// a listed column, and NULL or of its type. A line of at most [`crate::LINE_END`] bytes is read
/// again as the record. It takes time in the size of the line.
pub fn record_to_line(alloc: Global, item: &Record) -> Result<Text, Memory>
    requires { CanStand item.now }
    ensures written { IfOk result (λ t. t ≡ record_line item.now) }
    ensures spells { IfOk result (λ t. Spells item.now t) }
    ensures reads_back { IfOk result (λ t. length t ≤ line_end → line_reading t ≡ Ok item.now) }
{
    let tree = record_tree(alloc, item)?;
    let text = tree.to_string(alloc)?;
    written_trees_read_back();
    let line = Text::from_string(text)?;
    Ok(line)
}

fn record_tree(alloc: Global, item: &Record) -> Result<Value, Memory>
    requires { CanStand item.now }
    ensures kept { OnOk result (IsKept item.now) }
    ensures value { IfOk result (λ v. view v ≡ record_data item.now) }
{
    let mut children = Vec::new(alloc);
    let mut changes = Vec::new(alloc);
    let mut heartbeats = Vec::new(alloc);
    match item {
        Record::Heartbeat(at) => heartbeats.push(heartbeat_tree(alloc, *at)?)?,
        Record::Children(record) => children.push(children_tree(alloc, record)?)?,
        Record::Change(record) => changes.push(change_tree(alloc, record)?)?,
    }
    line_tree(alloc, children, changes, heartbeats)
}

fn line_tree(
    alloc: Global,
    children: Vec<Value>,
    changes: Vec<Value>,
    heartbeats: Vec<Value>,
) -> Result<Value, Memory>
    ensures { IfOk result (λ v. view v ≡ line_data (items_view children.items) (items_view changes.items) (items_view heartbeats.items)) }
{
    let mut members = Map::new(alloc);
    put(
        &mut members,
        alloc,
        "child_partitions_record",
        Value::Array(children),
    )?;
    put(
        &mut members,
        alloc,
        "data_change_record",
        Value::Array(changes),
    )?;
    put(
        &mut members,
        alloc,
        "heartbeat_record",
        Value::Array(heartbeats),
    )?;
    Ok(Value::Object(members))
}

fn heartbeat_tree(alloc: Global, at: Stamp) -> Result<Value, Memory>
    ensures kept { OnOk result (IsStamp at) }
    ensures value { IfOk result (λ v. view v ≡ heartbeat_data at) }
{
    let mut members = Map::new(alloc);
    put(&mut members, alloc, "timestamp", stamp_tree(alloc, at)?)?;
    Ok(Value::Object(members))
}

fn children_tree(alloc: Global, item: &ChildRecord) -> Result<Value, Memory>
    requires { item.now.sequence < 100000000 }
    ensures start { OnOk result (IsStamp item.now.start) }
    ensures children { OnOk result (All IsKeptChild item.now.children) }
    ensures value { IfOk result (λ v. view v ≡ children_data item.now) }
{
    let children = partitions_tree(alloc, item.children.as_slice())?;
    let sequence = eight_digits(alloc, item.sequence)?;
    let start = stamp_tree(alloc, item.start)?;
    let mut members = Map::new(alloc);
    put(&mut members, alloc, "child_partitions", children)?;
    put(
        &mut members,
        alloc,
        "record_sequence",
        Value::String(sequence),
    )?;
    put(&mut members, alloc, "start_timestamp", start)?;
    Ok(Value::Object(members))
}

fn partitions_tree(alloc: Global, children: &[Child]) -> Result<Value, Memory>
    ensures kept { OnOk result (All IsKeptChild children.now) }
    ensures value { IfOk result (λ v. view v ≡ array (items_of (map child_data children.now))) }
{
    let mut trees = Vec::new(alloc);
    for child in children {
        trees.push(child_tree(alloc, child)?)?;
    }
    Ok(Value::Array(trees))
}

fn child_tree(alloc: Global, child: &Child) -> Result<Value, Memory>
    ensures kept { OnOk result (IsKeptChild child.now) }
    ensures value { IfOk result (λ v. view v ≡ child_data child.now) }
{
    let parents = tokens_tree(alloc, child.parents.as_slice())?;
    let token = token_tree(alloc, &child.token)?;
    let mut members = Map::new(alloc);
    put(&mut members, alloc, "parent_partition_tokens", parents)?;
    put(&mut members, alloc, "token", token)?;
    Ok(Value::Object(members))
}

fn tokens_tree(alloc: Global, tokens: &[Token]) -> Result<Value, Memory>
    ensures kept { OnOk result (All (λ t. is_token t ≡ true) tokens.now) }
    ensures value { IfOk result (λ v. view v ≡ array (items_of (map string tokens.now))) }
{
    let mut trees = Vec::new(alloc);
    for token in tokens {
        trees.push(token_tree(alloc, token)?)?;
    }
    Ok(Value::Array(trees))
}

fn token_tree(alloc: Global, token: &Token) -> Result<Value, Memory>
    ensures kept { OnOk result (is_token token.now ≡ true) }
    ensures value { IfOk result (λ v. view v ≡ string token.now) }
{
    let text = token_text(alloc, token)?;
    Ok(Value::String(text))
}

fn token_text(alloc: Global, token: &Token) -> Result<String, Memory>
    ensures kept { OnOk result (is_token token.now ≡ true) }
    ensures text { IfOk result (λ s. string_bytes s ≡ token.now) }
{
    let text = String::from_utf8_lossy(alloc, token.bytes())?;
    Ok(text)
}
