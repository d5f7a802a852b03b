ghost use Rattle.std.specs.Prelude.{◌≡◌, IfOk};
ghost use Rattle.cs_capture.specs.Captured.{is_touched, change_of, change_if, captured_change as captured_change_of, captured};

use crate::capture_table;
use crate::choosing::{cells, touched};
use crate::column_names::ColumnNames;
use crate::columns::{column_infos, key_names};
use cs_records::Captured;
use cs_schema::{Catalog, Stream};
use cs_txn::Modification;
use cs_types::{Change, Duplicate, Memory};
use std::alloc::Global;

/// The change with the cells that the capture table gives.
fn change(
    alloc: Global,
    stream: &Stream,
    key: &ColumnNames,
    item: &Modification,
    named: &ColumnNames,
) -> Result<Change, Memory>
    requires { named.now ≡ item.now.named }
    ensures { IfOk result (λ c. c ≡ change_of stream.now key.now item.now) }
{
    let told = capture_table(stream.capture, item.kind);
    Ok(Change {
        stamp: item.stamp,
        tx: item.tx.copy()?,
        row: item.row.copy()?,
        kind: item.kind,
        new: cells(
            alloc,
            told.new,
            &stream.watch,
            key,
            item,
            named,
            &item.after,
        )?,
        old: cells(
            alloc,
            told.old,
            &stream.watch,
            key,
            item,
            named,
            &item.before,
        )?,
    })
}

/// The change of a watched table, where there is one, whose key columns these are.
fn change_in(
    alloc: Global,
    stream: &Stream,
    key: &ColumnNames,
    item: &Modification,
) -> Result<Option<Change>, Memory>
    ensures { IfOk result (λ c. c ≡ change_if (is_touched stream.now.watch key.now item.now) stream.now key.now item.now) }
{
    let named = ColumnNames::of(alloc, &item.named)?;
    if !touched(&stream.watch, key, item, &named) {
        return Ok(None);
    }
    Ok(Some(change(alloc, stream, key, item, &named)?))
}

/// The captured change, without what is told of its columns.
pub(crate) fn captured_change(
    alloc: Global,
    catalog: &Catalog,
    stream: &Stream,
    item: &Modification,
) -> Result<Option<Change>, Memory>
    ensures { IfOk result (λ c. c ≡ captured_change_of catalog.now.tables stream.now item.now) }
{
    if !stream.watch.has_table(&item.row.table) {
        return Ok(None);
    }
    let key = key_names(alloc, catalog.tables().find(&item.row.table))?;
    change_in(alloc, stream, &key, item)
}

/// What a stream captures of a modification: nothing exactly where it does not watch the table, or
/// where an UPDATE names no watched column that is no key column. Else the change has the cells
/// that `capture_table` gives for the stream's capture type (Spanner's page 'Change streams
/// overview', on value capture types), and the column list has the key columns and the columns of
/// these cells by ordinal, which counts the table's columns from 1.
///
/// The watched and the key columns are those of the catalog as it is now; a column that was added
/// later has no cell in the modification and is not told. Cost is that of the row's cells and of
/// the table's columns, times a logarithm.
pub fn capture(
    alloc: Global,
    catalog: &Catalog,
    stream: &Stream,
    item: &Modification,
) -> Result<Option<Captured>, Memory>
    ensures { IfOk result (λ c. c ≡ captured catalog.now.tables stream.now item.now) }
{
    if !stream.watch.has_table(&item.row.table) {
        return Ok(None);
    }
    let table = catalog.tables().find(&item.row.table);
    let key = key_names(alloc, table)?;
    let Some(change) = change_in(alloc, stream, &key, item)? else {
        return Ok(None);
    };
    let columns = column_infos(alloc, table, &key, &change)?;
    Ok(Some(Captured {
        change,
        columns,
        capture: stream.capture,
        tag: item.tag.copy()?,
        system: false,
    }))
}
