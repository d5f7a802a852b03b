ghost use Rattle.std.specs.Prelude.{◌≡◌, [], Some, None, MatchResult, IfOk};
ghost use Rattle.cs_schema.specs.Faults.{not_memory, no_column, twice_fault};
ghost use Rattle.cs_types.specs.Firsts.{first_of};
ghost use Rattle.cs_schema.specs.Making.{crowded, many_fault, tree_fault, table_fault, added_fault, column_fault};
ghost use Rattle.cs_schema.specs.Tables.{column_names};

use crate::lengths::check_length;
use crate::names::again;
use crate::watching::count_watchers;
use crate::{Column, SchemaFault, Stream, Table, Tables};
use cs_ddl::{ColumnTree, TypeTree};
use cs_types::{Duplicate, Items, Memory, Names, Text};
use std::alloc::Global;

/// The most columns of a table.
const MOST_COLUMNS: u32 = 1_024;

/// The names of columns.
pub(crate) fn names_of_columns(alloc: Global, columns: &[Column]) -> Result<Items<Text>, Memory>
    ensures { IfOk result (λ n. n ≡ column_names columns.now) }
{
    let mut names = Items::new(alloc);
    for column in columns {
        names.push(column.name.copy()?)?;
    }
    Ok(names)
}

/// Refuses the first name that is not among the columns.
pub(crate) fn check_there(columns: &Names, names: &[Text]) -> Result<(), SchemaFault>
    ensures { MatchResult result (λ _. first_of (no_column columns.now) names.now ≡ None) (λ e. not_memory e → first_of (no_column columns.now) names.now ≡ Some e) }
{
    for name in names {
        if !columns.has(name) {
            return Err(SchemaFault::NoColumn(name.copy()?));
        }
    }
    Ok(())
}

/// Refuses the first name that stands for the second time.
pub(crate) fn check_once(alloc: Global, names: &[Text]) -> Result<(), SchemaFault>
    ensures { MatchResult result (λ _. twice_fault names.now ≡ None) (λ e. not_memory e → twice_fault names.now ≡ Some e) }
{
    match again(alloc, names)? {
        Some(name) => Err(SchemaFault::ColumnTwice(name)),
        None => Ok(()),
    }
}

fn check_crowd(
    least: usize,
    streams: &[Stream],
    table: &Text,
    key: &Names,
    column: &Text,
) -> Result<(), SchemaFault>
    ensures { MatchResult result (λ _. crowded least streams.now table.now key.now column.now ≡ None) (λ e. not_memory e → crowded least streams.now table.now key.now column.now ≡ Some e) }
{
    if key.has(column) {
        return Ok(());
    }
    if least <= count_watchers(streams, table, column) {
        return Err(SchemaFault::ColumnWatched(column.copy()?, 3));
    }
    Ok(())
}

/// Refuses the first column that is no key column and that so many streams watch.
pub(crate) fn check_crowds(
    least: usize,
    streams: &[Stream],
    table: &Text,
    key: &Names,
    columns: &[Text],
) -> Result<(), SchemaFault>
    ensures { MatchResult result (λ _. first_of (crowded least streams.now table.now key.now) columns.now ≡ None) (λ e. not_memory e → first_of (crowded least streams.now table.now key.now) columns.now ≡ Some e) }
{
    for column in columns {
        check_crowd(least, streams, table, key, column)?;
    }
    Ok(())
}

fn check_lengths(trees: &[ColumnTree]) -> Result<(), SchemaFault>
    ensures { MatchResult result (λ _. first_of tree_fault trees.now ≡ None) (λ e. not_memory e → first_of tree_fault trees.now ≡ Some e) }
{
    for tree in trees {
        check_length(&tree.ty)?;
    }
    Ok(())
}

/// The refusals of CREATE TABLE in their order.
pub(crate) fn check_table(
    alloc: Global,
    tables: &Tables,
    streams: &[Stream],
    table: &Table,
    trees: &[ColumnTree],
) -> Result<(), SchemaFault>
    ensures { MatchResult result (λ _. table_fault tables.now streams.now table.now trees.now ≡ None) (λ e. not_memory e → table_fault tables.now streams.now table.now trees.now ≡ Some e) }
{
    if let Some(_) = tables.find(&table.name) {
        return Err(SchemaFault::TableThere);
    }
    let columns = Names::of(alloc, names_of_columns(alloc, table.columns.as_slice())?)?;
    let key = Names::of(alloc, table.key.copy()?)?;
    check_there(&columns, key.as_slice())?;
    check_once(alloc, columns.as_slice())?;
    check_once(alloc, key.as_slice())?;
    check_crowds(4, streams, &table.name, &key, columns.as_slice())?;
    if (MOST_COLUMNS as usize) < table.columns.as_slice().len() {
        return Err(SchemaFault::TooManyColumns(MOST_COLUMNS));
    }
    check_lengths(trees)?;
    Ok(())
}

fn check_added(
    alloc: Global,
    streams: &[Stream],
    table: &Table,
    name: &Text,
    ty: &TypeTree,
) -> Result<(), SchemaFault>
    ensures { MatchResult result (λ _. added_fault streams.now table.now name.now ty.now ≡ None) (λ e. not_memory e → added_fault streams.now table.now name.now ty.now ≡ Some e) }
{
    let columns = Names::of(alloc, names_of_columns(alloc, table.columns.as_slice())?)?;
    let key = Names::of(alloc, table.key.copy()?)?;
    if columns.has(name) {
        return Err(SchemaFault::ColumnTwice(name.copy()?));
    }
    check_crowd(4, streams, &table.name, &key, name)?;
    if (MOST_COLUMNS as usize) <= table.columns.as_slice().len() {
        return Err(SchemaFault::TooManyColumns(MOST_COLUMNS));
    }
    check_length(ty)?;
    Ok(())
}

/// The refusals of ADD COLUMN in their order.
pub(crate) fn check_column(
    alloc: Global,
    tables: &Tables,
    streams: &[Stream],
    table: &Text,
    name: &Text,
    ty: &TypeTree,
) -> Result<(), SchemaFault>
    ensures { MatchResult result (λ _. column_fault tables.now streams.now table.now name.now ty.now ≡ None) (λ e. not_memory e → column_fault tables.now streams.now table.now name.now ty.now ≡ Some e) }
{
    match tables.find(table) {
        Some(found) => check_added(alloc, streams, found, name, ty),
        None => Err(SchemaFault::NoTable(table.copy()?)),
    }
}
