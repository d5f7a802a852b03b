ghost use Rattle.std.specs.Prelude.{◌≡◌, All, IfOk, Ok, Err, MatchResult, option_map, option_copied, None, is_some};
ghost use Rattle.serde_json.specs.Find.{get, get_member};
ghost use Rattle.cs_tree.specs.View.{view, members_view};
ghost use Rattle.cs_types.specs.Cells.{IsRising, AreCells};
ghost use Rattle.cs_types.specs.Value.{IsInRange};
ghost use Rattle.cs_script.specs.Finders.{IsFinder};
ghost use Rattle.cs_script.specs.Readings.{Gives, not_memory};
ghost use Rattle.cs_script.specs.Cells.{cell_reading, key_cell_reading, each_cell, each_key_cell, has_each, key_reading, key_of_members, key_member, set_of_members, set_member};

use crate::LineCause;
use crate::combine::{Gathered, both};
use crate::finder::{Finder, column_of, finder_of, is_key};
use crate::members::bad;
use cs_schema::Table;
use cs_tree::{Members, Tree, member};
use cs_types::{Cell, Cells, Duplicate, Text, Value, ValueFault};
use std::alloc::Global;

/// The cell of a column of the table.
fn cell_of(
    alloc: Global,
    table: &Table,
    finder: &Finder,
    name: &str,
    tree: &Tree<'_>,
) -> Result<Cell, LineCause>
    requires { IsFinder table.now finder.now }
    ensures reading { Gives result (cell_reading table.now name.now (view tree.now)) }
    ensures column { IfOk result (λ c. c.column ≡ name.now) }
    ensures in_range { IfOk result (λ c. IsInRange c.value) }
{
    let Some(column) = column_of(alloc, table, finder, name)? else {
        return Err(LineCause::NoColumn(Text::of(alloc, name)?));
    };
    match Value::from_tree(alloc, tree, column.ty) {
        Ok(value) => {
            let column = column.name.copy()?;
            Ok(Cell { column, value })
        }
        Err(ValueFault::Memory) => Err(LineCause::Memory),
        Err(fault) => Err(LineCause::Value(fault)),
    }
}

/// The cell of a column of the table's key.
fn key_cell_of(
    alloc: Global,
    table: &Table,
    finder: &Finder,
    name: &str,
    tree: &Tree<'_>,
) -> Result<Cell, LineCause>
    requires { IsFinder table.now finder.now }
    ensures reading { Gives result (key_cell_reading table.now name.now (view tree.now)) }
    ensures column { IfOk result (λ c. c.column ≡ name.now) }
    ensures in_range { IfOk result (λ c. IsInRange c.value) }
{
    if !is_key(alloc, table, finder, name)? {
        return Err(LineCause::NoColumn(Text::of(alloc, name)?));
    }
    cell_of(alloc, table, finder, name, tree)
}

/// The members of an object, which stand in rising order, as cells of the table.
fn each_cell(alloc: Global, table: &Table, members: &Members<'_>) -> Result<Cells, LineCause>
    ensures { Gives result (each_cell table.now (members_view members.now)) }
{
    let finder = finder_of(alloc, table, members.len())?;
    let mut cells = Gathered::new(alloc);
    for entry in members.as_slice() {
        cells = cells.with(cell_of(alloc, table, &finder, entry.name, &entry.tree))?;
    }
    let items = cells.finish()?;
    Ok(Cells::in_order(items))
}

/// The like as cells of the table's key.
fn each_key_cell(alloc: Global, table: &Table, members: &Members<'_>) -> Result<Cells, LineCause>
    ensures { Gives result (each_key_cell table.now (members_view members.now)) }
{
    let finder = finder_of(alloc, table, members.len())?;
    let mut cells = Gathered::new(alloc);
    for entry in members.as_slice() {
        cells = cells.with(key_cell_of(alloc, table, &finder, entry.name, &entry.tree))?;
    }
    let items = cells.finish()?;
    Ok(Cells::in_order(items))
}

/// That each column of the key has a member; else the first that has none.
fn has_each(names: &[Text], members: &Members<'_>) -> Result<(), LineCause>
    ensures { Gives result (has_each names.now (members_view members.now)) }
{
    for name in names {
        if !has_member(members, name.as_str()) {
            return Err(LineCause::NoColumn(name.copy()?));
        }
    }
    Ok(())
}

fn has_member(members: &Members<'_>, name: &str) -> bool
    ensures { result ≡ is_some (get_member name.now (members_view members.now)) }
{
    match member(members, name) {
        Some(_) => true,
        None => false,
    }
}

/// The cells of a key: one for each of the key's columns and no other.
#[tactic(auto, unfolding(crate::specs::Cells::key_reading))]
fn key_of(alloc: Global, table: &Table, members: &Members<'_>) -> Result<Cells, LineCause>
    ensures { Gives result (key_reading table.now (members_view members.now)) }
{
    let cells = each_key_cell(alloc, table, members);
    let whole = has_each(table.key.as_slice(), members);
    let (cells, ()) = both(cells, whole)?;
    Ok(cells)
}

/// The cells of the member `key`, of which nothing is read where the table is not there.
pub(crate) fn key_member(
    alloc: Global,
    table: Option<&Table>,
    member: Option<&Tree<'_>>,
) -> Result<Cells, LineCause>
    ensures { Gives result (key_member (option_copied table.entry) (option_map (λ d. view d.now) member.entry)) }
{
    let Some(Tree::Object(members)) = member else {
        return Err(bad(alloc, "key"));
    };
    match table {
        Some(table) => key_of(alloc, table, members),
        None => Ok(Cells::none(alloc)),
    }
}

/// The cells of the member `set`, of which nothing is read where the table is not there.
pub(crate) fn set_member(
    alloc: Global,
    table: Option<&Table>,
    member: Option<&Tree<'_>>,
) -> Result<Cells, LineCause>
    ensures { Gives result (set_member (option_copied table.entry) (option_map (λ d. view d.now) member.entry)) }
{
    let Some(Tree::Object(members)) = member else {
        return Err(bad(alloc, "set"));
    };
    match table {
        Some(table) => each_cell(alloc, table, members),
        None => Ok(Cells::none(alloc)),
    }
}
