ghost use Rattle.std.specs.Prelude.{◌≡◌, Some, IfOk, option_copied};
ghost use Rattle.cs_txn.specs.Left.{AreFree};
ghost use Rattle.cs_txn.specs.History.{last_of, left_of, modification_of, modifications_of};
ghost use Rattle.cs_types.specs.Names.{columns_of};
ghost use Rattle.cs_txn.specs.Places.{standing, lasts_of};

use crate::free::Free;
use crate::left::{free_again, left, row_as_is};
use crate::rows::{place_at, standing_at};
use crate::{Modification, Txn, Write};
use cs_schema::Tables;
use cs_types::{Cells, Duplicate, Items, Kind, Memory, Text};
use std::alloc::Global;

/// The row's cells; nothing where it is absent.
pub(crate) fn state(items: &[Modification], last: Option<usize>) -> Option<&Cells>
    ensures { option_copied result ≡ left_of (standing items.now last) }
{
    match standing_at(items, last) {
        Some(item) => match item.kind {
            Kind::Delete => None,
            _ => Some(&item.after),
        },
        None => None,
    }
}

/// The columns that the cells stand for.
fn names_of(alloc: Global, cells: &Cells) -> Result<Items<Text>, Memory>
    ensures { IfOk result (λ names. names ≡ columns_of cells.now) }
{
    let mut names = Vec::with_capacity(alloc, cells.items().len())?;
    for cell in cells.items() {
        names.push(cell.column.copy()?)?;
    }
    Ok(Items::from_vec(names))
}

/// What a write does to its row, and the columns of its table.
fn modification(
    alloc: Global,
    tables: &Tables,
    items: &[Modification],
    txn: &Txn,
    last: Option<usize>,
    write: &Write,
    known: Option<Free>,
) -> Result<(Modification, Free), Memory>
    requires last { standing items.now last ≡ last_of write.now.row items.now }
    requires known { AreFree tables.now known }
    ensures item { IfOk result (λ r. r.0 ≡ modification_of tables.now items.now txn.now write.now) }
    ensures known { IfOk result (λ r. AreFree tables.now (Some r.1)) }
{
    let free = free_again(alloc, tables, &write.row.table, known)?;
    let before = state(items, last);
    let item = Modification {
        stamp: txn.stamp,
        tx: txn.tx.copy()?,
        tag: txn.tag.copy()?,
        kind: write.kind,
        row: write.row.copy()?,
        named: names_of(alloc, &write.set)?,
        before: row_as_is(alloc, &free.columns, before)?,
        after: left(alloc, &free.columns, write, before)?,
    };
    Ok((item, free))
}

/// What the writes do to the rows, in their order.
pub(crate) fn modifications(
    alloc: Global,
    tables: &Tables,
    items: &[Modification],
    txn: &Txn,
    lasts: &[Option<usize>],
) -> Result<Vec<Modification>, Memory>
    requires { lasts.now ≡ lasts_of items.now txn.now.writes }
    ensures { IfOk result (λ added. added.items ≡ modifications_of tables.now items.now txn.now) }
{
    let writes = txn.writes.as_slice();
    let mut added = Vec::with_capacity(alloc, writes.len())?;
    let mut known = None;
    for index in 0..writes.len() {
        let last = place_at(lasts, index);
        let write = &writes[index];
        let (item, free) = modification(alloc, tables, items, txn, last, write, known)?;
        added.push(item)?;
        known = Some(free);
    }
    Ok(added)
}
