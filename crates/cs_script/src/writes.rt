ghost use Rattle.std.specs.Prelude.{◌≡◌, ℕ, List, Ok, Some, option_copied, option_map, map, codes};
ghost use Rattle.serde_json.specs.Find.{get, as_str};
ghost use Rattle.cs_tree.specs.View.{view, items_view};
ghost use Rattle.cs_types.specs.declared.cells.Cell.{Cell};
ghost use Rattle.cs_script.specs.Readings.{Reading, Gives, both};
ghost use Rattle.cs_script.specs.Members.{required, no_others};
ghost use Rattle.cs_script.specs.Cells.{key_member};
ghost use Rattle.cs_script.specs.Writes.{kind_of, kind_word, write_members, set_cells, write_of, write_with, write_reading, each_write, some_writes, writes_member};

use crate::LineCause;
use crate::cells::{key_member, set_member};
use crate::combine::{Gathered, both};
use crate::finder::table_of;
use crate::members::{bad, has, no_others, text_of};
use cs_schema::{Table, Tables};
use cs_tree::Tree;
use cs_txn::Write;
use cs_types::{Cells, Duplicate, Items, Kind, RowName, Text};
use std::alloc::Global;

/// The kind of a write: the first of the three members that stands; an insert where none does.
#[tactic(auto, unfolding(crate::specs::Writes::kind_of))]
fn kind_of(tree: &Tree<'_>) -> Kind
    ensures { result ≡ kind_of (view tree.now) }
{
    if has(tree, "insert") {
        return Kind::Insert;
    }
    if has(tree, "update") {
        return Kind::Update;
    }
    if has(tree, "delete") {
        return Kind::Delete;
    }
    Kind::Insert
}

/// The member that names the table.
fn kind_word(kind: Kind) -> &'static str
    ensures { result.now ≡ kind_word kind }
{
    match kind {
        Kind::Insert => "insert",
        Kind::Update => "update",
        Kind::Delete => "delete",
    }
}

/// That a write has no other members than those of its kind.
fn no_other_members(alloc: Global, kind: Kind, tree: &Tree<'_>) -> Result<(), LineCause>
    ensures { Gives result (no_others (write_members kind) (view tree.now)) }
{
    match kind {
        Kind::Insert => no_others(alloc, tree, &["insert", "key", "set"]),
        Kind::Update => no_others(alloc, tree, &["update", "key", "set"]),
        Kind::Delete => no_others(alloc, tree, &["delete", "key"]),
    }
}

/// The cells that a write sets.
fn set_cells(
    alloc: Global,
    kind: Kind,
    table: Option<&Table>,
    tree: &Tree<'_>,
) -> Result<Cells, LineCause>
    ensures { Gives result (set_cells kind (option_copied table.entry) (view tree.now)) }
{
    match kind {
        Kind::Delete => Ok(Cells::none(alloc)),
        _ => set_member(alloc, table, tree.get("set")),
    }
}

/// The write of a table whose name was read or not.
fn write_in(
    alloc: Global,
    kind: Kind,
    table: Option<&Table>,
    name: Result<Text, LineCause>,
    tree: &Tree<'_>,
) -> Result<Write, LineCause>
    ensures { (r : Reading (List ℕ)) → Gives name r → Gives result (write_of kind (both r (both (key_member (option_copied table.entry) (get (codes "key") (view tree.now))) (both (set_cells kind (option_copied table.entry) (view tree.now)) (no_others (write_members kind) (view tree.now)))))) }
{
    let key = key_member(alloc, table, tree.get("key"));
    let set = set_cells(alloc, kind, table, tree);
    let others = no_other_members(alloc, kind, tree);
    write_made(kind, both(name, both(key, both(set, others))))
}

/// The write of its parts.
fn write_made(
    kind: Kind,
    parts: Result<(Text, (Cells, (Cells, ()))), LineCause>,
) -> Result<Write, LineCause>
    ensures { (r : Reading (List ℕ × (List Cell × (List Cell × Unit {0})))) → Gives parts r → Gives result (write_of kind r) }
{
    let (table, (key, (set, ()))) = parts?;
    Ok(Write {
        kind,
        row: RowName { table, key },
        set,
    })
}

/// The write of a table of this name.
fn write_of_table(
    alloc: Global,
    tables: &Tables,
    kind: Kind,
    name: &str,
    tree: &Tree<'_>,
) -> Result<Write, LineCause>
    ensures { Gives result (write_with tables.now kind (Ok name.now) (view tree.now)) }
{
    match table_of(alloc, tables, name)? {
        Some(table) => {
            let name = table.name.copy()?;
            write_in(alloc, kind, Some(table), Ok(name), tree)
        }
        None => {
            let name = Text::of(alloc, name)?;
            write_in(alloc, kind, None, Err(LineCause::NoTable(name)), tree)
        }
    }
}

/// A write: an object with the table, the key and the cells that are set.
#[tactic(auto, unfolding(crate::specs::Writes::write_reading))]
fn write_of(alloc: Global, tables: &Tables, tree: &Tree<'_>) -> Result<Write, LineCause>
    ensures { Gives result (write_reading tables.now (view tree.now)) }
{
    if !tree.is_object() {
        return Err(bad(alloc, "writes"));
    }
    let kind = kind_of(tree);
    match text_of(alloc, tree, kind_word(kind)) {
        Ok(name) => write_of_table(alloc, tables, kind, name, tree),
        Err(LineCause::Memory) => Err(LineCause::Memory),
        Err(cause) => write_in(alloc, kind, None, Err(cause), tree),
    }
}

fn each_write(alloc: Global, tables: &Tables, trees: &[Tree<'_>]) -> Result<Items<Write>, LineCause>
    ensures { Gives result (each_write tables.now (items_view trees.now)) }
{
    let mut writes = Gathered::new(alloc);
    for tree in trees {
        writes = writes.with(write_of(alloc, tables, tree))?;
    }
    writes.finish()
}

/// The writes of the member `writes`: one or more.
pub(crate) fn writes_member(
    alloc: Global,
    tables: &Tables,
    member: Option<&Tree<'_>>,
) -> Result<Items<Write>, LineCause>
    ensures { Gives result (writes_member tables.now (option_map (λ d. view d.now) member.entry)) }
{
    let Some(Tree::Array(trees)) = member else {
        return Err(bad(alloc, "writes"));
    };
    some_writes(alloc, tables, trees.as_slice())
}

fn some_writes(
    alloc: Global,
    tables: &Tables,
    trees: &[Tree<'_>],
) -> Result<Items<Write>, LineCause>
    ensures { Gives result (some_writes tables.now (Some (items_view trees.now))) }
{
    if trees.is_empty() {
        return Err(bad(alloc, "writes"));
    }
    each_write(alloc, tables, trees)
}
