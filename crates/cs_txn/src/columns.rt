ghost use Rattle.std.specs.Prelude.{◌≡◌, MatchResult, None, Some, length};
ghost use Rattle.std.specs.Fmt.{is_char_start};
ghost use Rattle.cs_txn.specs.Columns.{char_length, is_within, is_of, fits, value_fault, unset, unset_by, is_due, bad_value, key_cell, key_set, no_such, no_key, key_without, no_column, fault_in, fault_without, fault_by};
ghost use Rattle.cs_txn.specs.Faults.{not_memory};
ghost use Rattle.cs_types.specs.Firsts.{first_of};
ghost use Rattle.cs_txn.specs.Finding.{IsLookup};

use crate::finding::{column_of, find, is_key, lookup_of};
use crate::lookup::Lookup;
use crate::test::Test;
use crate::{TxnFault, Write};
use cs_schema::{Column, Table, Tables};
use cs_types::{Cell, Cells, ColumnType, Duplicate, Kind, Text, Value};
use std::alloc::Global;

/// Whether a byte of UTF-8 is the first of a character.
fn starts(byte: u8) -> bool
    ensures { result ≡ is_char_start byte }
{
    byte < 0x80 || byte >= 0xC0
}

/// How many characters a text has.
fn characters(text: &Text) -> usize
    ensures { result ≡ char_length text.now }
{
    let mut count = 0;
    for byte in text.as_str().as_bytes() {
        if starts(*byte) {
            count += 1;
        }
    }
    count
}

fn within(limit: Option<u32>, length: usize) -> bool
    ensures { result ≡ is_within limit length }
{
    match limit {
        None => true,
        Some(limit) => length as u64 <= limit as u64,
    }
}

fn of_type(column: &Column, value: &Value) -> bool
    ensures { result ≡ is_of column.now.ty column.now.limit value.now }
{
    match column.ty {
        ColumnType::Bool => matches!(value, Value::Bool(_)),
        ColumnType::Int64 => matches!(value, Value::Int64(_)),
        ColumnType::Numeric => matches!(value, Value::Numeric(_)),
        ColumnType::Text => match value {
            Value::Text(text) => within(column.limit, characters(text)),
            _ => false,
        },
        ColumnType::Bytes => match value {
            Value::Bytes(bytes) => within(column.limit, bytes.as_slice().len()),
            _ => false,
        },
        ColumnType::Date => matches!(value, Value::Date(_)),
        ColumnType::Timestamp => matches!(value, Value::Timestamp(_)),
    }
}

/// Whether a value may stand in a column.
fn may_stand(column: &Column, value: &Value) -> bool
    ensures { result ≡ fits column.now value.now }
{
    match value {
        Value::Null => !column.not_null,
        _ => of_type(column, value),
    }
}

fn check_value(table: &Table, lookup: &Lookup, cell: &Cell) -> Result<(), TxnFault>
    requires { IsLookup table.now lookup.now }
    ensures { MatchResult result (λ _. value_fault table.now.columns cell.now ≡ None) (λ e. not_memory e → value_fault table.now.columns cell.now ≡ Some e) }
{
    if let Some(column) = column_of(table, lookup, &cell.column) {
        if !may_stand(column, &cell.value) {
            return Err(TxnFault::BadValue(cell.column.copy()?));
        }
    }
    Ok(())
}

fn check_values(table: &Table, lookup: &Lookup, cells: &[Cell]) -> Result<(), TxnFault>
    requires { IsLookup table.now lookup.now }
    ensures { MatchResult result (λ _. first_of (value_fault table.now.columns) cells.now ≡ None) (λ e. not_memory e → first_of (value_fault table.now.columns) cells.now ≡ Some e) }
{
    for cell in cells {
        check_value(table, lookup, cell)?;
    }
    Ok(())
}

/// Whether a column may not stay without a value.
fn is_needed(table: &Table, lookup: &Lookup, column: &Column, set: &Cells) -> bool
    requires { IsLookup table.now lookup.now }
    ensures { result ≡ is_due column.now table.now.key set.now }
{
    if !column.not_null {
        return false;
    }
    if is_key(table, lookup, &column.name) {
        return false;
    }
    match find(&column.name, set) {
        Some(_) => false,
        None => true,
    }
}

fn check_needed(table: &Table, lookup: &Lookup, set: &Cells) -> Result<(), TxnFault>
    requires { IsLookup table.now lookup.now }
    ensures { MatchResult result (λ _. unset table.now.key set.now table.now.columns ≡ None) (λ e. not_memory e → unset table.now.key set.now table.now.columns ≡ Some e) }
{
    for column in table.columns.as_slice() {
        if is_needed(table, lookup, column, set) {
            return Err(TxnFault::BadValue(column.name.copy()?));
        }
    }
    Ok(())
}

fn check_needed_by(kind: Kind, table: &Table, lookup: &Lookup, set: &Cells) -> Result<(), TxnFault>
    requires { IsLookup table.now lookup.now }
    ensures { MatchResult result (λ _. unset_by kind table.now set.now ≡ None) (λ e. not_memory e → unset_by kind table.now set.now ≡ Some e) }
{
    match kind {
        Kind::Insert => check_needed(table, lookup, set),
        _ => Ok(()),
    }
}

fn check_write_values(alloc: Global, table: &Table, write: &Write) -> Result<(), TxnFault>
    ensures { MatchResult result (λ _. bad_value table.now write.now ≡ None) (λ e. not_memory e → bad_value table.now write.now ≡ Some e) }
{
    let lookup = lookup_of(alloc, table)?;
    check_values(table, &lookup, write.row.key.items())?;
    check_values(table, &lookup, write.set.items())?;
    check_needed_by(write.kind, table, &lookup, &write.set)
}

fn check_no_key_set(table: &Table, lookup: &Lookup, set: &[Cell]) -> Result<(), TxnFault>
    requires { IsLookup table.now lookup.now }
    ensures { MatchResult result (λ _. first_of (key_cell table.now.key) set.now ≡ None) (λ e. not_memory e → first_of (key_cell table.now.key) set.now ≡ Some e) }
{
    for cell in set {
        if is_key(table, lookup, &cell.column) {
            return Err(TxnFault::KeyColumnSet(cell.column.copy()?));
        }
    }
    Ok(())
}

fn check_write_set(alloc: Global, table: &Table, write: &Write) -> Result<(), TxnFault>
    ensures { MatchResult result (λ _. key_set table.now write.now ≡ None) (λ e. not_memory e → key_set table.now write.now ≡ Some e) }
{
    let lookup = lookup_of(alloc, table)?;
    check_no_key_set(table, &lookup, write.set.items())
}

fn check_columns_there(table: &Table, lookup: &Lookup, set: &[Cell]) -> Result<(), TxnFault>
    requires { IsLookup table.now lookup.now }
    ensures { MatchResult result (λ _. first_of (no_such table.now.columns) set.now ≡ None) (λ e. not_memory e → first_of (no_such table.now.columns) set.now ≡ Some e) }
{
    for cell in set {
        let Some(_) = column_of(table, lookup, &cell.column) else {
            return Err(TxnFault::NoColumn(cell.column.copy()?));
        };
    }
    Ok(())
}

fn check_key_only(table: &Table, lookup: &Lookup, cells: &[Cell]) -> Result<(), TxnFault>
    requires { IsLookup table.now lookup.now }
    ensures { MatchResult result (λ _. first_of (no_key table.now.key) cells.now ≡ None) (λ e. not_memory e → first_of (no_key table.now.key) cells.now ≡ Some e) }
{
    for cell in cells {
        if !is_key(table, lookup, &cell.column) {
            return Err(TxnFault::NoColumn(cell.column.copy()?));
        }
    }
    Ok(())
}

fn check_key_whole(cells: &Cells, key: &[Text]) -> Result<(), TxnFault>
    ensures { MatchResult result (λ _. key_without cells.now key.now ≡ None) (λ e. not_memory e → key_without cells.now key.now ≡ Some e) }
{
    for name in key {
        let Some(_) = find(name, cells) else {
            return Err(TxnFault::NoColumn(name.copy()?));
        };
    }
    Ok(())
}

fn check_write_columns(alloc: Global, table: &Table, write: &Write) -> Result<(), TxnFault>
    ensures { MatchResult result (λ _. no_column table.now write.now ≡ None) (λ e. not_memory e → no_column table.now write.now ≡ Some e) }
{
    let lookup = lookup_of(alloc, table)?;
    check_columns_there(table, &lookup, write.set.items())?;
    check_key_only(table, &lookup, write.row.key.items())?;
    check_key_whole(&write.row.key, table.key.as_slice())
}

/// Whether a write passes a test, where its table is there.
fn check_in(alloc: Global, test: Test, table: &Table, write: &Write) -> Result<(), TxnFault>
    ensures { MatchResult result (λ _. fault_in test table.now write.now ≡ None) (λ e. not_memory e → fault_in test table.now write.now ≡ Some e) }
{
    match test {
        Test::Values => check_write_values(alloc, table, write),
        Test::Set => check_write_set(alloc, table, write),
        Test::Tables => Ok(()),
        Test::Columns => check_write_columns(alloc, table, write),
    }
}

/// The like, where its table is not there.
fn check_without(test: Test, write: &Write) -> Result<(), TxnFault>
    ensures { MatchResult result (λ _. fault_without test write.now ≡ None) (λ e. not_memory e → fault_without test write.now ≡ Some e) }
{
    match test {
        Test::Tables => Err(TxnFault::NoTable(write.row.table.copy()?)),
        _ => Ok(()),
    }
}

fn check_write(alloc: Global, test: Test, tables: &Tables, write: &Write) -> Result<(), TxnFault>
    ensures { MatchResult result (λ _. fault_by test tables.now write.now ≡ None) (λ e. not_memory e → fault_by test tables.now write.now ≡ Some e) }
{
    match tables.find(&write.row.table) {
        Some(table) => check_in(alloc, test, table, write),
        None => check_without(test, write),
    }
}

/// Whether all writes pass a test, or what the first has that does not.
pub(crate) fn check_writes(
    alloc: Global,
    test: Test,
    tables: &Tables,
    writes: &[Write],
) -> Result<(), TxnFault>
    ensures { MatchResult result (λ _. first_of (fault_by test tables.now) writes.now ≡ None) (λ e. not_memory e → first_of (fault_by test tables.now) writes.now ≡ Some e) }
{
    for write in writes {
        check_write(alloc, test, tables, write)?;
    }
    Ok(())
}
