ghost use Rattle.std.specs.Prelude.{◌≡◌, [], Some, All, IfOk, OnOk, option_copied};
ghost use Rattle.std.specs.Ordering.{nat_cmp};
ghost use Rattle.std.specs.Cmp.Lexicographic.{slice_cmp};
ghost use Rattle.std.specs.List.Sorted.{IsStrictlySortedBy};
ghost use Rattle.cs_types.specs.Value.{IsInRange};
ghost use Rattle.cs_txn.specs.Left.{free_names, free_columns_of, AreFree, value_over, cells_for, row_cells, cells_left};

use crate::Write;
use crate::finding::{find, is_key, lookup_of};
use crate::free::Free;
use cs_schema::{Table, Tables};
use cs_types::{Cell, Cells, Duplicate, Items, Kind, Memory, Text, Value};
use std::alloc::Global;
use std::collections::BTreeSet;

fn free(alloc: Global, table: &Table) -> Result<BTreeSet<Text>, Memory>
    ensures { IfOk result (λ names. names.keys ≡ free_names [] table.now.key table.now.columns) }
{
    let lookup = lookup_of(alloc, table)?;
    let mut names = BTreeSet::new(alloc);
    for column in table.columns.as_slice() {
        if !is_key(table, &lookup, &column.name) {
            names.insert(column.name.copy()?)?;
        }
    }
    Ok(names)
}

/// The names of the columns that are no key columns, in byte order; none where there is no table.
fn free_columns(alloc: Global, tables: &Tables, table: &Text) -> Result<BTreeSet<Text>, Memory>
    ensures { IfOk result (λ names. names.keys ≡ free_columns_of table.now tables.now) }
{
    match tables.find(table) {
        Some(table) => free(alloc, table),
        None => Ok(BTreeSet::new(alloc)),
    }
}

/// The columns of a table that are no key columns, which are taken again where they are known.
pub(crate) fn free_again(
    alloc: Global,
    tables: &Tables,
    table: &Text,
    known: Option<Free>,
) -> Result<Free, Memory>
    requires { AreFree tables.now known }
    ensures columns { IfOk result (λ f. f.columns.keys ≡ free_columns_of table.now tables.now) }
    ensures known { IfOk result (λ f. AreFree tables.now (Some f)) }
{
    if let Some(free) = known {
        if free.table.is(table) {
            return Ok(free);
        }
    }
    let columns = free_columns(alloc, tables, table)?;
    let table = table.copy()?;
    Ok(Free { table, columns })
}

fn value_of(column: &Text, set: &Cells, under: &Cells) -> Result<Value, Memory>
    ensures value { IfOk result (λ v. v ≡ value_over column.now set.now under.now) }
    ensures in_range { IfOk result IsInRange }
{
    match find(column, set) {
        Some(value) => value.copy(),
        None => match find(column, under) {
            Some(value) => value.copy(),
            None => Ok(Value::Null),
        },
    }
}

fn items_for(
    alloc: Global,
    columns: &BTreeSet<Text>,
    set: &Cells,
    under: &Cells,
) -> Result<Items<Cell>, Memory>
    ensures cells { IfOk result (λ c. c ≡ cells_for columns.now.keys set.now under.now) }
    ensures ordered { OnOk result (IsStrictlySortedBy (slice_cmp nat_cmp) columns.now.keys) }
    ensures in_range { IfOk result (All (λ c. IsInRange c.value)) }
{
    let mut cells = Vec::with_capacity(alloc, columns.len())?;
    for column in columns {
        cells.push(Cell {
            column: column.copy()?,
            value: value_of(column, set, under)?,
        })?;
    }
    Ok(Items::from_vec(cells))
}

/// A cell for each column: that of `set`, else that of `under`, else NULL.
fn all_cells(
    alloc: Global,
    columns: &BTreeSet<Text>,
    set: &Cells,
    under: &Cells,
) -> Result<Cells, Memory>
    ensures { IfOk result (λ c. c ≡ cells_for columns.now.keys set.now under.now) }
{
    let cells = items_for(alloc, columns, set, under)?;
    Ok(Cells::in_order(cells))
}

/// The row as it stands, with NULL in columns that it never received.
pub(crate) fn row_as_is(
    alloc: Global,
    columns: &BTreeSet<Text>,
    state: Option<&Cells>,
) -> Result<Cells, Memory>
    ensures { IfOk result (λ c. c ≡ row_cells columns.now.keys (option_copied state.entry)) }
{
    let none = Cells::none(alloc);
    match state {
        Some(cells) => all_cells(alloc, columns, &none, cells),
        None => Ok(none),
    }
}

/// The cells behind a write.
pub(crate) fn left(
    alloc: Global,
    columns: &BTreeSet<Text>,
    write: &Write,
    state: Option<&Cells>,
) -> Result<Cells, Memory>
    ensures { IfOk result (λ c. c ≡ cells_left columns.now.keys write.now.kind write.now.set (option_copied state.entry)) }
{
    let none = Cells::none(alloc);
    match write.kind {
        Kind::Insert => all_cells(alloc, columns, &write.set, &none),
        Kind::Update => match state {
            Some(cells) => all_cells(alloc, columns, &write.set, cells),
            None => all_cells(alloc, columns, &write.set, &none),
        },
        Kind::Delete => Ok(none),
    }
}
