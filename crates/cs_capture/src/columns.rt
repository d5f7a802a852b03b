ghost use Rattle.std.specs.Prelude.{◌≡◌, ◌++◌, ◌+◌, IfOk, OnOk, option_copied};
ghost use Rattle.cs_types.specs.Names.{columns_of};
ghost use Rattle.cs_schema.specs.Watching.{key_of};
ghost use Rattle.cs_capture.specs.Captured.{told_columns, column_info, infos_from, infos_of};

use crate::column_names::ColumnNames;
use cs_records::ColumnInfo;
use cs_schema::{Column, Table};
use cs_types::{Cell, Change, Duplicate, Items, Memory, Text};
use std::alloc::Global;

/// The names of a table's key columns; none where there is no table.
pub(crate) fn key_names<'a>(
    alloc: Global,
    table: Option<&'a Table>,
) -> Result<ColumnNames<'a>, Memory>
    ensures { IfOk result (λ names. names ≡ key_of (option_copied table.entry)) }
{
    match table {
        Some(table) => ColumnNames::of(alloc, &table.key),
        None => Ok(ColumnNames::none()),
    }
}

/// Puts the columns of cells behind other names.
fn put_columns(names: &mut Items<Text>, cells: &[Cell]) -> Result<(), Memory>
    ensures { OnOk result (names.new ≡ names.old ++ columns_of cells.now) }
{
    for cell in cells {
        names.push(cell.column.copy()?)?;
    }
    Ok(())
}

/// The names of the columns that are told.
fn told_names(key: &Items<Text>, change: &Change) -> Result<Items<Text>, Memory>
    ensures { IfOk result (λ names. names ≡ told_columns key.now change.now) }
{
    let mut names = key.copy()?;
    put_columns(&mut names, change.new.items())?;
    put_columns(&mut names, change.old.items())?;
    Ok(names)
}

fn info(key: &ColumnNames, ordinal: u32, column: &Column) -> Result<ColumnInfo, Memory>
    ensures { IfOk result (λ c. c ≡ column_info key.now ordinal column.now) }
{
    Ok(ColumnInfo {
        name: column.name.copy()?,
        ty: column.ty,
        is_key: key.has(&column.name),
        ordinal,
    })
}

/// The ordinal of a table's first column.
const FIRST: u32 = 1;

/// What is told of the columns that have one of these names.
fn infos(
    alloc: Global,
    key: &ColumnNames,
    names: &ColumnNames,
    columns: &[Column],
) -> Result<Items<ColumnInfo>, Memory>
    ensures { IfOk result (λ c. c ≡ infos_from 1 key.now names.now columns.now) }
{
    let mut told = Items::new(alloc);
    let mut ordinal = FIRST;
    for column in columns {
        if names.has(&column.name) {
            told.push(info(key, ordinal, column)?)?;
        }
        ordinal = next(ordinal)?;
    }
    Ok(told)
}

/// The ordinal behind this one. A catalog takes 1,024 columns in a table, so there is one; a table
/// of more columns than an ordinal counts would be want of memory.
fn next(ordinal: u32) -> Result<u32, Memory>
    ensures { IfOk result (λ n. n ≡ ordinal + 1) }
{
    match ordinal.checked_add(1) {
        Some(next) => Ok(next),
        None => Err(Memory),
    }
}

/// What is told of the key columns of a table and of the columns of a change's cells, by ordinal.
pub(crate) fn column_infos(
    alloc: Global,
    table: Option<&Table>,
    key: &ColumnNames,
    change: &Change,
) -> Result<Items<ColumnInfo>, Memory>
    requires { key.now ≡ key_of (option_copied table) }
    ensures { IfOk result (λ c. c ≡ infos_of (option_copied table.entry) (told_columns key.now change.now)) }
{
    match table {
        Some(table) => {
            let told = told_names(&table.key, change)?;
            let names = ColumnNames::of(alloc, &told)?;
            infos(alloc, key, &names, table.columns.as_slice())
        }
        None => Ok(Items::new(alloc)),
    }
}
