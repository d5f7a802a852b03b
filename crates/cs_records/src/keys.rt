ghost use Rattle.std.specs.Prelude.{◌≡◌, ◌↔◌, None, IfOk, IsTrue, MatchResult};
ghost use Rattle.std.specs.Option.{option_map};
ghost use Rattle.cs_types.specs.Names.{columns_of};
ghost use Rattle.cs_records.specs.Columns.{key_columns, first_beyond};
ghost use Rattle.cs_records.specs.Told.{key_fault, first_key_fault, not_memory};

use crate::{ColumnInfo, DataRecord, Mod, RecordFault};
use cs_types::{Cell, Duplicate, Items, Memory, Names, Text};
use std::alloc::Global;

/// Whether the keys of each mod are exactly the columns that are marked as key. Mods of one record
/// have the same key columns as its first one, or else one of them is at fault; so a key is looked
/// at name by name at most twice.
pub(crate) fn check_keys(alloc: Global, item: &DataRecord) -> Result<(), RecordFault>
    ensures { MatchResult result (λ _. first_key_fault (key_columns item.now.columns) item.now.mods ≡ None)
        (λ e. not_memory e → option_map RecordFault.KeyMissing (first_key_fault (key_columns item.now.columns) item.now.mods) ≡ Some e) }
{
    let [first, more @ ..] = item.mods.as_slice() else {
        return Ok(());
    };
    let columns = Names::of(alloc, key_names(alloc, item.columns.as_slice())?)?;
    check_key(alloc, &columns, first)?;
    check_others(alloc, &columns, first, more)
}

/// The keys of mods that stand behind one whose keys are right.
fn check_others(
    alloc: Global,
    columns: &Names,
    first: &Mod,
    more: &[Mod],
) -> Result<(), RecordFault>
    requires { key_fault columns.now (columns_of first.now.keys) ≡ None }
    ensures { MatchResult result (λ _. first_key_fault columns.now more.now ≡ None)
        (λ e. not_memory e → option_map RecordFault.KeyMissing (first_key_fault columns.now more.now) ≡ Some e) }
{
    for one in more {
        check_like(alloc, columns, first, one)?;
    }
    Ok(())
}

/// The key of a mod, of which nothing is left to see where it has the columns of the first.
#[tactic(auto, using(crate::proofs::Cutting::same_key_fault))]
fn check_like(alloc: Global, columns: &Names, first: &Mod, one: &Mod) -> Result<(), RecordFault>
    requires { key_fault columns.now (columns_of first.now.keys) ≡ None }
    ensures { MatchResult result (λ _. key_fault columns.now (columns_of one.now.keys) ≡ None)
        (λ e. not_memory e → option_map RecordFault.KeyMissing (key_fault columns.now (columns_of one.now.keys)) ≡ Some e) }
{
    if same_columns(first.keys.items(), one.keys.items()) {
        return Ok(());
    }
    check_key(alloc, columns, one)
}

fn check_key(alloc: Global, columns: &Names, one: &Mod) -> Result<(), RecordFault>
    ensures { MatchResult result (λ _. key_fault columns.now (columns_of one.now.keys) ≡ None)
        (λ e. not_memory e → option_map RecordFault.KeyMissing (key_fault columns.now (columns_of one.now.keys)) ≡ Some e) }
{
    match key_fault(alloc, columns, one)? {
        Some(column) => Err(RecordFault::KeyMissing(column)),
        None => Ok(()),
    }
}

fn key_fault(alloc: Global, columns: &Names, one: &Mod) -> Result<Option<Text>, Memory>
    ensures { IfOk result (λ n. n ≡ key_fault columns.now (columns_of one.now.keys)) }
{
    let key = Names::of(alloc, cell_names(alloc, one.keys.items())?)?;
    if let Some(name) = first_beyond(columns, &key)? {
        return Ok(Some(name));
    }
    first_beyond(&key, columns)
}

/// The first of the names that is not among others.
fn first_beyond(names: &Names, others: &Names) -> Result<Option<Text>, Memory>
    ensures { IfOk result (λ n. n ≡ first_beyond others.now names.now) }
{
    for name in names.as_slice() {
        if !others.has(name) {
            return Ok(Some(name.copy()?));
        }
    }
    Ok(None)
}

fn key_names(alloc: Global, columns: &[ColumnInfo]) -> Result<Items<Text>, Memory>
    ensures { IfOk result (λ n. n ≡ key_columns columns.now) }
{
    let mut names = Items::new(alloc);
    for column in columns {
        if column.is_key {
            names.push(column.name.copy()?)?;
        }
    }
    Ok(names)
}

fn cell_names(alloc: Global, cells: &[Cell]) -> Result<Items<Text>, Memory>
    ensures { IfOk result (λ n. n ≡ columns_of cells.now) }
{
    let mut names = Items::new(alloc);
    for cell in cells {
        names.push(cell.column.copy()?)?;
    }
    Ok(names)
}

/// Whether two lists of cells are of the same columns, in the same order.
pub(crate) fn same_columns(a: &[Cell], b: &[Cell]) -> bool
    ensures { IsTrue result ↔ (columns_of a.now ≡ columns_of b.now) }
{
    if a.len() != b.len() {
        return false;
    }
    for (i, cell) in a.iter().enumerate() {
        if !cell.column.is(&b[i].column) {
            return false;
        }
    }
    true
}
