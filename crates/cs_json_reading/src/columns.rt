ghost use Rattle.std.specs.Prelude.{◌≡◌, Ok, Err, IfOk, MatchResult};
ghost use Rattle.serde_json.specs.View.{view};
ghost use Rattle.cs_json_reading.specs.Reading.{Gives, not_memory};
ghost use Rattle.cs_json_reading.specs.Columns.{type_of_tree, type_value, column_reading, columns_reading, column_type, apart, HoldsTypes};

use crate::element::{Element, each};
use crate::fault::bad;
use crate::form::{Form, required};
use crate::forms::Ordinal;
use crate::text::type_of_code;
use crate::tree::array;
use cs_records::{ColumnInfo, LineFault};
use cs_types::{ColumnType, Duplicate, Items, Memory, Text};
use serde_json::Value;
use std::alloc::Global;
use std::collections::BTreeMap;
use std::marker::Model;

/// A type, as a tree or as a text that holds it.
impl Form for ColumnType {
    ghost use Rattle.cs_json_reading.specs.Columns.{type_value};

    type Out = ColumnType;

    ghost reads = { type_value };

    fn of(alloc: Global, tree: &Value) -> Result<Option<ColumnType>, Memory> {
        let Some(text) = tree.as_str() else {
            return Ok(type_of_tree(tree));
        };
        match Value::from_str(alloc, text) {
            Ok(held) => Ok(type_of_tree(&held)),
            Err(error) => {
                if error.is_memory() {
                    return Err(Memory);
                }
                Ok(None)
            }
        }
    }
}

fn type_of_tree(tree: &Value) -> Option<ColumnType>
    ensures { result ≡ type_of_tree (view tree.now) }
{
    let Some(member) = tree.get("code") else {
        return None;
    };
    match member.as_str() {
        Some(code) => type_of_code(code),
        None => None,
    }
}

/// The columns of a data change record.
struct Columns;

impl Element for Columns {
    ghost use Rattle.cs_json_reading.specs.Columns.{column_reading};

    type Out = ColumnInfo;

    ghost reads = { λ _ d. column_reading d };

    fn read(&self, alloc: Global, tree: &Value) -> Result<ColumnInfo, LineFault> {
        column_of(alloc, tree)
    }
}

#[tactic(auto, unfolding(crate::specs::Columns::column_reading))]
fn column_of(alloc: Global, tree: &Value) -> Result<ColumnInfo, LineFault>
    ensures { Gives result (column_reading (view tree.now)) }
{
    if !tree.is_object() {
        return Err(bad(alloc, "column_types"));
    }
    let name = required::<Text>(alloc, tree, "name")?;
    let ty = required::<ColumnType>(alloc, tree, "type")?;
    let is_key = required::<bool>(alloc, tree, "is_primary_key")?;
    let ordinal = required::<Ordinal>(alloc, tree, "ordinal_position")?;
    Ok(ColumnInfo {
        name,
        ty,
        is_key,
        ordinal,
    })
}

/// Columns of which no two have one name, and of which one is found by its name in the time of a
/// search. Contracts see their list.
#[derive(Drop)]
pub(crate) struct ColumnTypes {
    columns: Items<ColumnInfo>,
    types: BTreeMap<Text, ColumnType>,
}

impl Model for ColumnTypes {
    ghost use Rattle.std.specs.Prelude.{List};
    ghost use Rattle.cs_records.specs.declared.captured.ColumnInfo.{ColumnInfo as column_info};
    ghost use Rattle.cs_json_reading.specs.Columns.{HoldsTypes};

    ghost Value = { List column_info };

    ghost view = { λ c. c.columns };

    ghost invariant = { λ c. HoldsTypes c.columns c.types };
}

impl ColumnTypes {
    /// The columns of a data change record.
    #[tactic(auto, unfolding(crate::specs::Columns::columns_reading))]
    pub(crate) fn of_tree(alloc: Global, tree: &Value) -> Result<ColumnTypes, LineFault>
        ensures { Gives result (columns_reading (view tree.now)) }
    {
        let trees = array(alloc, tree, "column_types")?;
        let columns = each(alloc, &Columns, trees)?;
        ColumnTypes::of(alloc, columns)
    }

    /// These columns, unless two of them have one name.
    fn of(alloc: Global, columns: Items<ColumnInfo>) -> Result<ColumnTypes, LineFault>
        ensures { Gives result (apart columns) }
    {
        let types = types_of(alloc, columns.as_slice())?;
        Ok(ColumnTypes { columns, types })
    }

    /// The type of the column of a name.
    pub(crate) fn find(&self, name: &Text) -> Option<ColumnType>
        ensures { result ≡ column_type name.now self.now }
    {
        match self.types.get(name) {
            Some(ty) => Some(*ty),
            None => None,
        }
    }

    /// The columns in their order.
    pub(crate) fn into_items(self) -> Items<ColumnInfo>
        ensures { result ≡ self }
    {
        let ColumnTypes { columns, types } = self;
        drop(types);
        columns
    }
}

fn types_of(alloc: Global, columns: &[ColumnInfo]) -> Result<BTreeMap<Text, ColumnType>, LineFault>
    ensures holds { IfOk result (λ types. HoldsTypes columns.now types) }
    ensures apart { MatchResult result (λ _. apart columns.now ≡ Ok columns.now) (λ e. not_memory e → apart columns.now ≡ Err e) }
{
    let mut types = BTreeMap::new(alloc);
    for column in columns {
        if types.contains_key(&column.name) {
            return Err(bad(alloc, column.name.as_str()));
        }
        types.insert(column.name.copy()?, column.ty)?;
    }
    Ok(types)
}
