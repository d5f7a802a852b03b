ghost use Rattle.std.specs.Prelude.{◌≡◌, ◌++◌, IfOk};
ghost use Rattle.std.specs.List.{list_any};
ghost use Rattle.cs_capture.specs.declared.table.Told.TheVariants.{Modified};
ghost use Rattle.cs_capture.specs.Captured.{is_watched, is_set, is_told, told_cells, is_touched};

use crate::Told;
use crate::column_names::ColumnNames;
use cs_schema::Watch;
use cs_txn::Modification;
use cs_types::{Cell, Cells, Duplicate, Items, Kind, Memory, Text};
use std::alloc::Global;

/// Whether a column is watched and no key column.
fn watched(watch: &Watch, key: &ColumnNames, item: &Modification, column: &Text) -> bool
    ensures { result ≡ is_watched watch.now key.now item.now column.now }
{
    if watch.has_column(&item.row.table, column) {
        return !key.has(column);
    }
    false
}

/// Whether the write sets a column: an INSERT all of them, another those that it names.
fn sets(kind: Kind, named: &ColumnNames, column: &Text) -> bool
    ensures { result ≡ is_set kind named.now column.now }
{
    match kind {
        Kind::Insert => true,
        Kind::Update => named.has(column),
        Kind::Delete => named.has(column),
    }
}

/// Whether the cell of a column is told.
fn tells(
    told: Told,
    watch: &Watch,
    key: &ColumnNames,
    item: &Modification,
    named: &ColumnNames,
    cell: &Cell,
) -> bool
    requires { named.now ≡ item.now.named }
    ensures { result ≡ is_told told watch.now key.now item.now cell.now }
{
    match told {
        Told::Nothing => false,
        Told::Watched => watched(watch, key, item, &cell.column),
        Told::Modified => {
            if watched(watch, key, item, &cell.column) {
                return sets(item.kind, named, &cell.column);
            }
            false
        }
    }
}

/// Whether one of the cells is of a modified column.
fn modified_any(
    watch: &Watch,
    key: &ColumnNames,
    item: &Modification,
    named: &ColumnNames,
    cells: &[Cell],
) -> bool
    requires { named.now ≡ item.now.named }
    ensures { result ≡ list_any (is_told Modified watch.now key.now item.now) cells.now }
{
    for cell in cells {
        if tells(Told::Modified, watch, key, item, named, cell) {
            return true;
        }
    }
    false
}

/// Whether one of the row's cells, as it is or as it was, is of a modified column.
#[tactic(auto, using(crate::proofs::Between::any_both))]
fn modified_row(watch: &Watch, key: &ColumnNames, item: &Modification, named: &ColumnNames) -> bool
    requires { named.now ≡ item.now.named }
    ensures { result ≡ list_any (is_told Modified watch.now key.now item.now) (item.now.after ++ item.now.before) }
{
    if modified_any(watch, key, item, named, item.after.items()) {
        return true;
    }
    modified_any(watch, key, item, named, item.before.items())
}

/// Whether the write is no UPDATE, or sets a watched column of its row as it is or as it was.
pub(crate) fn touched(
    watch: &Watch,
    key: &ColumnNames,
    item: &Modification,
    named: &ColumnNames,
) -> bool
    requires { named.now ≡ item.now.named }
    ensures { result ≡ is_touched watch.now key.now item.now }
{
    match item.kind {
        Kind::Insert => true,
        Kind::Update => modified_row(watch, key, item, named),
        Kind::Delete => true,
    }
}

fn told_items(
    alloc: Global,
    told: Told,
    watch: &Watch,
    key: &ColumnNames,
    item: &Modification,
    named: &ColumnNames,
    cells: &[Cell],
) -> Result<Items<Cell>, Memory>
    requires { named.now ≡ item.now.named }
    ensures { IfOk result (λ c. c ≡ told_cells told watch.now key.now item.now cells.now) }
{
    let mut kept = Items::new(alloc);
    for cell in cells {
        if tells(told, watch, key, item, named, cell) {
            kept.push(cell.copy()?)?;
        }
    }
    Ok(kept)
}

/// The cells that are told.
pub(crate) fn cells(
    alloc: Global,
    told: Told,
    watch: &Watch,
    key: &ColumnNames,
    item: &Modification,
    named: &ColumnNames,
    cells: &Cells,
) -> Result<Cells, Memory>
    requires { named.now ≡ item.now.named }
    ensures { IfOk result (λ c. c ≡ told_cells told watch.now key.now item.now cells.now) }
{
    let kept = told_items(alloc, told, watch, key, item, named, cells.items())?;
    Ok(Cells::in_order(kept))
}
