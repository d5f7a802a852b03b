ghost use Rattle.std.specs.Prelude.{◌≡◌, ℕ, List, Option, Ok, IfOk, option_copied, option_map, codes};
ghost use Rattle.serde_json.specs.Find.{get};
ghost use Rattle.cs_tree.specs.View.{view, items_view};
ghost use Rattle.cs_types.specs.declared.cells.Cell.{Cell};
ghost use Rattle.cs_script.specs.Readings.{Reading, Gives, both};
ghost use Rattle.cs_script.specs.Members.{no_others};
ghost use Rattle.cs_script.specs.Borders.{border_members, border_key, border_of, border_place, border_with, border_reading, each_border, borders_member};

use crate::LineCause;
use crate::cells::key_member;
use crate::combine::{Gathered, both};
use crate::finder::table_of;
use crate::members::{bad, no_others, text_of};
use cs_place::{Place, place_of, table_place};
use cs_schema::{Table, Tables};
use cs_tree::Tree;
use cs_types::{Cells, Duplicate, Items, Memory, RowName, Text};
use std::alloc::Global;

/// The key of a border, where it has one.
fn border_key(
    alloc: Global,
    table: Option<&Table>,
    member: Option<&Tree<'_>>,
) -> Result<Option<Cells>, LineCause>
    ensures { Gives result (border_key (option_copied table.entry) (option_map (λ d. view d.now) member.entry)) }
{
    let Some(tree) = member else {
        return Ok(None);
    };
    let cells = key_member(alloc, table, Some(tree))?;
    Ok(Some(cells))
}

/// The place of a row, or of a table where there is no key.
fn border_place(alloc: Global, table: Text, key: Option<Cells>) -> Result<Place, Memory>
    ensures { IfOk result (λ place. place ≡ border_place table key) }
{
    match key {
        None => table_place(alloc, &table),
        Some(key) => place_of(alloc, &RowName { table, key }),
    }
}

/// The border of a table whose name was read or not.
fn border_in(
    alloc: Global,
    table: Option<&Table>,
    name: Result<Text, LineCause>,
    tree: &Tree<'_>,
) -> Result<Place, LineCause>
    ensures { (r : Reading (List ℕ)) → Gives name r → Gives result (border_of (both r (both (border_key (option_copied table.entry) (get (codes "key") (view tree.now))) (no_others border_members (view tree.now))))) }
{
    let key = border_key(alloc, table, tree.get("key"));
    let others = no_others(alloc, tree, &["table", "key"]);
    border_made(alloc, both(name, both(key, others)))
}

/// The border of its parts.
fn border_made(
    alloc: Global,
    parts: Result<(Text, (Option<Cells>, ())), LineCause>,
) -> Result<Place, LineCause>
    ensures { (r : Reading (List ℕ × (Option (List Cell) × Unit {0}))) → Gives parts r → Gives result (border_of r) }
{
    let (table, (key, ())) = parts?;
    let place = border_place(alloc, table, key)?;
    Ok(place)
}

/// The border of a table of this name.
fn border_of_table(
    alloc: Global,
    tables: &Tables,
    name: &str,
    tree: &Tree<'_>,
) -> Result<Place, LineCause>
    ensures { Gives result (border_with tables.now (Ok name.now) (view tree.now)) }
{
    match table_of(alloc, tables, name)? {
        Some(table) => {
            let name = table.name.copy()?;
            border_in(alloc, Some(table), Ok(name), tree)
        }
        None => {
            let name = Text::of(alloc, name)?;
            border_in(alloc, None, Err(LineCause::NoTable(name)), tree)
        }
    }
}

/// A border: an object with a table and, where it has one, a key.
#[tactic(auto, unfolding(crate::specs::Borders::border_reading))]
fn border_of(alloc: Global, tables: &Tables, tree: &Tree<'_>) -> Result<Place, LineCause>
    ensures { Gives result (border_reading tables.now (view tree.now)) }
{
    if !tree.is_object() {
        return Err(bad(alloc, "borders"));
    }
    match text_of(alloc, tree, "table") {
        Ok(name) => border_of_table(alloc, tables, name, tree),
        Err(LineCause::Memory) => Err(LineCause::Memory),
        Err(cause) => border_in(alloc, None, Err(cause), tree),
    }
}

fn each_border(
    alloc: Global,
    tables: &Tables,
    trees: &[Tree<'_>],
) -> Result<Items<Place>, LineCause>
    ensures { Gives result (each_border tables.now (items_view trees.now)) }
{
    let mut borders = Gathered::new(alloc);
    for tree in trees {
        borders = borders.with(border_of(alloc, tables, tree))?;
    }
    borders.finish()
}

/// The borders of the member `borders`.
pub(crate) fn borders_member(
    alloc: Global,
    tables: &Tables,
    member: Option<&Tree<'_>>,
) -> Result<Items<Place>, LineCause>
    ensures { Gives result (borders_member tables.now (option_map (λ d. view d.now) member.entry)) }
{
    let Some(Tree::Array(trees)) = member else {
        return Err(bad(alloc, "borders"));
    };
    each_border(alloc, tables, trees.as_slice())
}
