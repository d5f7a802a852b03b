ghost use Rattle.std.specs.Prelude.{◌≡◌, ◌<◌, ◌^◌, IfOk, OnOk, All, map};
ghost use Rattle.serde_json.specs.Data.{array, object};
ghost use Rattle.serde_json.specs.View.{view, items_of, members_view};
ghost use Rattle.cs_types.specs.Stamp.{IsStamp};
ghost use Rattle.cs_types.specs.Cells.{AreCells};
ghost use Rattle.cs_json.specs.Written.{type_data, column_data, mod_data, last_members, change_data, IsKeptMod};
ghost use Rattle.cs_types.specs.Texts.{cells_members};

use crate::written_texts::{capture_name, code_name, eight_digits, stamp_tree, text_tree};
use cs_records::{ColumnInfo, DataRecord, Mod};
use cs_types::{Cells, ColumnType, Memory};
use serde_json::{Map, Value, put};
use std::alloc::Global;

pub(crate) fn change_tree(alloc: Global, item: &DataRecord) -> Result<Value, Memory>
    requires { item.now.sequence < 100000000 }
    ensures stamp { OnOk result (IsStamp item.now.stamp) }
    ensures columns { OnOk result (All (λ c. c.ordinal < 2 ^ 32) item.now.columns) }
    ensures mods { OnOk result (All IsKeptMod item.now.mods) }
    ensures value { IfOk result (λ v. view v ≡ change_data item.now) }
{
    let columns = columns_tree(alloc, item.columns.as_slice())?;
    let stamp = stamp_tree(alloc, item.stamp)?;
    let kind = text_tree(alloc, item.kind.name())?;
    let mods = mods_tree(alloc, item.mods.as_slice())?;
    let mut members = last_members(alloc, item)?;
    put(&mut members, alloc, "column_types", columns)?;
    put(&mut members, alloc, "commit_timestamp", stamp)?;
    put(
        &mut members,
        alloc,
        "is_last_record_in_transaction_in_partition",
        Value::Bool(item.is_last),
    )?;
    put(
        &mut members,
        alloc,
        "is_system_transaction",
        Value::Bool(item.system),
    )?;
    put(&mut members, alloc, "mod_type", kind)?;
    put(&mut members, alloc, "mods", mods)?;
    Ok(Value::Object(members))
}

/// The members from `number_of_partitions_in_transaction` on.
fn last_members(alloc: Global, item: &DataRecord) -> Result<Map<String, Value>, Memory>
    requires { item.now.sequence < 100000000 }
    ensures { IfOk result (λ m. members_view m.entries ≡ last_members item.now) }
{
    let sequence = eight_digits(alloc, item.sequence)?;
    let tx = text_tree(alloc, item.tx.as_str())?;
    let table = text_tree(alloc, item.table.as_str())?;
    let tag = text_tree(alloc, item.tag.as_str())?;
    let capture = text_tree(alloc, capture_name(item.capture))?;
    let mut members = Map::new(alloc);
    put(
        &mut members,
        alloc,
        "number_of_partitions_in_transaction",
        Value::from(item.parts_in_tx),
    )?;
    put(
        &mut members,
        alloc,
        "number_of_records_in_transaction",
        Value::from(item.records_in_tx),
    )?;
    put(
        &mut members,
        alloc,
        "record_sequence",
        Value::String(sequence),
    )?;
    put(&mut members, alloc, "server_transaction_id", tx)?;
    put(&mut members, alloc, "table_name", table)?;
    put(&mut members, alloc, "transaction_tag", tag)?;
    put(&mut members, alloc, "value_capture_type", capture)?;
    Ok(members)
}

fn columns_tree(alloc: Global, columns: &[ColumnInfo]) -> Result<Value, Memory>
    ensures kept { OnOk result (All (λ c. c.ordinal < 2 ^ 32) columns.now) }
    ensures value { IfOk result (λ v. view v ≡ array (items_of (map column_data columns.now))) }
{
    let mut trees = Vec::new(alloc);
    for column in columns {
        trees.push(column_tree(alloc, column)?)?;
    }
    Ok(Value::Array(trees))
}

fn column_tree(alloc: Global, column: &ColumnInfo) -> Result<Value, Memory>
    ensures kept { OnOk result (column.now.ordinal < 2 ^ 32) }
    ensures value { IfOk result (λ v. view v ≡ column_data column.now) }
{
    let ordinal = column.ordinal;
    let name = text_tree(alloc, column.name.as_str())?;
    let ty = type_tree(alloc, column.ty)?;
    let mut members = Map::new(alloc);
    put(
        &mut members,
        alloc,
        "is_primary_key",
        Value::Bool(column.is_key),
    )?;
    put(&mut members, alloc, "name", name)?;
    put(
        &mut members,
        alloc,
        "ordinal_position",
        Value::from(ordinal),
    )?;
    put(&mut members, alloc, "type", ty)?;
    Ok(Value::Object(members))
}

fn type_tree(alloc: Global, ty: ColumnType) -> Result<Value, Memory>
    ensures { IfOk result (λ v. view v ≡ type_data ty) }
{
    let code = text_tree(alloc, code_name(ty))?;
    let mut members = Map::new(alloc);
    put(&mut members, alloc, "code", code)?;
    Ok(Value::Object(members))
}

fn mods_tree(alloc: Global, mods: &[Mod]) -> Result<Value, Memory>
    ensures kept { OnOk result (All IsKeptMod mods.now) }
    ensures value { IfOk result (λ v. view v ≡ array (items_of (map mod_data mods.now))) }
{
    let mut trees = Vec::new(alloc);
    for item in mods {
        trees.push(mod_tree(alloc, item)?)?;
    }
    Ok(Value::Array(trees))
}

fn mod_tree(alloc: Global, item: &Mod) -> Result<Value, Memory>
    ensures kept { OnOk result (IsKeptMod item.now) }
    ensures value { IfOk result (λ v. view v ≡ mod_data item.now) }
{
    let keys = cells_tree(alloc, &item.keys)?;
    let new = cells_tree(alloc, &item.new)?;
    let old = cells_tree(alloc, &item.old)?;
    let mut members = Map::new(alloc);
    put(&mut members, alloc, "keys", keys)?;
    put(&mut members, alloc, "new_values", new)?;
    put(&mut members, alloc, "old_values", old)?;
    Ok(Value::Object(members))
}

fn cells_tree(alloc: Global, cells: &Cells) -> Result<Value, Memory>
    ensures kept { OnOk result (AreCells cells.now) }
    ensures value { IfOk result (λ v. view v ≡ object (cells_members cells.now)) }
{
    let mut members = Map::new(alloc);
    for cell in cells.items() {
        let column = String::from_str(alloc, cell.column.as_str())?;
        members.insert(column, cell.value.to_tree(alloc)?)?;
    }
    Ok(Value::Object(members))
}
