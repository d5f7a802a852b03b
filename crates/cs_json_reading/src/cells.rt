ghost use Rattle.std.specs.Prelude.{◌≡◌, Some, All, IfOk};
ghost use Rattle.serde_json.specs.Find.{get};
ghost use Rattle.serde_json.specs.View.{view, members_view};
ghost use Rattle.cs_types.specs.Cells.{IsRising};
ghost use Rattle.cs_types.specs.Value.{IsInRange};
ghost use Rattle.cs_json_reading.specs.Reading.{Gives};
ghost use Rattle.cs_json_reading.specs.Cells.{cell_reading, each_cell, cells_of, cells_of_tree, required_cells, optional_cells, mod_reading, mods_reading};

use crate::columns::ColumnTypes;
use crate::element::{Element, each};
use crate::fault::{bad, missed};
use crate::tree::array;
use cs_records::{LineFault, Mod};
use cs_types::{Cell, Cells, Items, Text, Value, ValueFault};
use serde_json::{Map, Value as Tree};
use std::alloc::Global;

/// The mods of a data change record with these columns.
impl Element for ColumnTypes {
    ghost use Rattle.cs_json_reading.specs.Cells.{mod_reading};

    type Out = Mod;

    ghost reads = { mod_reading };

    fn read(&self, alloc: Global, tree: &Tree) -> Result<Mod, LineFault> {
        mod_of(alloc, self, tree)
    }
}

#[tactic(auto, unfolding(crate::specs::Cells::mods_reading))]
pub(crate) fn mods_of(
    alloc: Global,
    columns: &ColumnTypes,
    tree: &Tree,
) -> Result<Items<Mod>, LineFault>
    ensures { Gives result (mods_reading columns.now (view tree.now)) }
{
    let trees = array(alloc, tree, "mods")?;
    if trees.is_empty() {
        return Err(bad(alloc, "mods"));
    }
    each(alloc, columns, trees)
}

#[tactic(auto, unfolding(crate::specs::Cells::mod_reading))]
fn mod_of(alloc: Global, columns: &ColumnTypes, tree: &Tree) -> Result<Mod, LineFault>
    ensures { Gives result (mod_reading columns.now (view tree.now)) }
{
    if !tree.is_object() {
        return Err(bad(alloc, "mods"));
    }
    let keys = required_cells(alloc, columns, tree, "keys")?;
    let new = optional_cells(alloc, columns, tree, "new_values")?;
    let old = optional_cells(alloc, columns, tree, "old_values")?;
    Ok(Mod { keys, new, old })
}

fn required_cells(
    alloc: Global,
    columns: &ColumnTypes,
    tree: &Tree,
    name: &str,
) -> Result<Cells, LineFault>
    ensures { Gives result (required_cells columns.now name.now (get name.now (view tree.now))) }
{
    let Some(member) = tree.get(name) else {
        return Err(missed(alloc, name));
    };
    cells_of(alloc, columns, member, name)
}

fn optional_cells(
    alloc: Global,
    columns: &ColumnTypes,
    tree: &Tree,
    name: &str,
) -> Result<Cells, LineFault>
    ensures { Gives result (optional_cells columns.now name.now (get name.now (view tree.now))) }
{
    let Some(member) = tree.get(name) else {
        return Ok(Cells::none(alloc));
    };
    if member.is_null() {
        return Ok(Cells::none(alloc));
    }
    cells_of(alloc, columns, member, name)
}

/// Cells, as a tree or as a text that holds it.
fn cells_of(
    alloc: Global,
    columns: &ColumnTypes,
    tree: &Tree,
    name: &str,
) -> Result<Cells, LineFault>
    ensures { Gives result (cells_of columns.now name.now (view tree.now)) }
{
    let Some(text) = tree.as_str() else {
        return cells_of_tree(alloc, columns, tree, name);
    };
    match Tree::from_str(alloc, text) {
        Ok(held) => cells_of_tree(alloc, columns, &held, name),
        Err(error) => {
            if error.is_memory() {
                Err(LineFault::Memory)
            } else {
                Err(bad(alloc, name))
            }
        }
    }
}

fn cells_of_tree(
    alloc: Global,
    columns: &ColumnTypes,
    tree: &Tree,
    name: &str,
) -> Result<Cells, LineFault>
    ensures { Gives result (cells_of_tree columns.now name.now (Some (view tree.now))) }
{
    match tree {
        Tree::Object(members) => {
            let cells = each_cell(alloc, columns, members)?;
            Ok(Cells::in_order(cells))
        }
        _ => Err(bad(alloc, name)),
    }
}

/// The members of an object, which stand in rising order, as cells.
fn each_cell(
    alloc: Global,
    columns: &ColumnTypes,
    members: &Map<String, Tree>,
) -> Result<Items<Cell>, LineFault>
    ensures reading { Gives result (each_cell columns.now (members_view members.now.entries)) }
    ensures rising { IfOk result IsRising }
    ensures in_range { IfOk result (All (λ c. IsInRange c.value)) }
{
    let mut cells = Items::new(alloc);
    for (name, tree) in members.iter() {
        cells.push(cell_of(alloc, columns, name.as_str(), tree)?)?;
    }
    Ok(cells)
}

fn cell_of(alloc: Global, columns: &ColumnTypes, name: &str, tree: &Tree) -> Result<Cell, LineFault>
    ensures reading { Gives result (cell_reading columns.now name.now (view tree.now)) }
    ensures column { IfOk result (λ c. c.column ≡ name.now) }
    ensures in_range { IfOk result (λ c. IsInRange c.value) }
{
    let column = Text::of(alloc, name)?;
    let Some(ty) = columns.find(&column) else {
        return Err(bad(alloc, name));
    };
    match Value::from_tree(alloc, tree, ty) {
        Ok(value) => Ok(Cell { column, value }),
        Err(ValueFault::Memory) => Err(LineFault::Memory),
        Err(_) => Err(bad(alloc, name)),
    }
}
