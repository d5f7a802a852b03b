ghost use Rattle.std.specs.Prelude.{◌≡◌, MatchResult, None, Some, []};
ghost use Rattle.cs_txn.specs.Places.{IdsOf, standing, lasts_of, rows_of};
ghost use Rattle.cs_txn.specs.History.{last_of, last_stamp};
ghost use Rattle.cs_txn.specs.Faults.{not_memory, row_fault, write_fault, there_fault, absent_fault, shared_fault, twice_behind};
ghost use Rattle.cs_types.specs.Firsts.{first_of};

use crate::columns::check_writes;
use crate::row_key::RowKey;
use crate::rows::{place_at, standing_at};
use crate::test::Test;
use crate::writes::state;
use crate::{Modification, Txn, TxnFault, Write};
use cs_schema::Tables;
use cs_types::{Duplicate, Kind, Stamp, Text};
use std::alloc::Global;
use std::collections::HashMap;

/// Whether an INSERT finds no row.
fn check_insert(items: &[Modification], last: Option<usize>, write: &Write) -> Result<(), TxnFault>
    requires { standing items.now last ≡ last_of write.now.row items.now }
    ensures { MatchResult result (λ _. there_fault items.now write.now ≡ None) (λ e. not_memory e → there_fault items.now write.now ≡ Some e) }
{
    match write.kind {
        Kind::Insert => match state(items, last) {
            Some(_) => Err(TxnFault::RowThere(write.row.copy()?)),
            None => Ok(()),
        },
        Kind::Update => Ok(()),
        Kind::Delete => Ok(()),
    }
}

fn check_inserts(
    items: &[Modification],
    lasts: &[Option<usize>],
    writes: &[Write],
) -> Result<(), TxnFault>
    requires { lasts.now ≡ lasts_of items.now writes.now }
    ensures { MatchResult result (λ _. first_of (there_fault items.now) writes.now ≡ None) (λ e. not_memory e → first_of (there_fault items.now) writes.now ≡ Some e) }
{
    for index in 0..writes.len() {
        let last = place_at(lasts, index);
        check_insert(items, last, &writes[index])?;
    }
    Ok(())
}

/// Whether an UPDATE or DELETE finds its row.
fn check_other(items: &[Modification], last: Option<usize>, write: &Write) -> Result<(), TxnFault>
    requires { standing items.now last ≡ last_of write.now.row items.now }
    ensures { MatchResult result (λ _. absent_fault items.now write.now ≡ None) (λ e. not_memory e → absent_fault items.now write.now ≡ Some e) }
{
    match write.kind {
        Kind::Insert => Ok(()),
        _ => match state(items, last) {
            Some(_) => Ok(()),
            None => Err(TxnFault::NoRow(write.row.copy()?)),
        },
    }
}

fn check_others(
    items: &[Modification],
    lasts: &[Option<usize>],
    writes: &[Write],
) -> Result<(), TxnFault>
    requires { lasts.now ≡ lasts_of items.now writes.now }
    ensures { MatchResult result (λ _. first_of (absent_fault items.now) writes.now ≡ None) (λ e. not_memory e → first_of (absent_fault items.now) writes.now ≡ Some e) }
{
    for index in 0..writes.len() {
        let last = place_at(lasts, index);
        check_other(items, last, &writes[index])?;
    }
    Ok(())
}

/// Whether no earlier transaction of this stamp wrote the row.
fn check_stamp(
    items: &[Modification],
    stamp: Stamp,
    last: Option<usize>,
    write: &Write,
) -> Result<(), TxnFault>
    requires { standing items.now last ≡ last_of write.now.row items.now }
    ensures { MatchResult result (λ _. shared_fault items.now stamp write.now ≡ None) (λ e. not_memory e → shared_fault items.now stamp write.now ≡ Some e) }
{
    match standing_at(items, last) {
        Some(item) => {
            if item.stamp.us() == stamp.us() {
                return Err(TxnFault::SharedStampRow(item.tx.copy()?));
            }
            Ok(())
        }
        None => Ok(()),
    }
}

fn check_stamps(
    items: &[Modification],
    stamp: Stamp,
    lasts: &[Option<usize>],
    writes: &[Write],
) -> Result<(), TxnFault>
    requires { lasts.now ≡ lasts_of items.now writes.now }
    ensures { MatchResult result (λ _. first_of (shared_fault items.now stamp) writes.now ≡ None) (λ e. not_memory e → first_of (shared_fault items.now stamp) writes.now ≡ Some e) }
{
    for index in 0..writes.len() {
        let last = place_at(lasts, index);
        check_stamp(items, stamp, last, &writes[index])?;
    }
    Ok(())
}

/// Whether no two writes name one row.
fn check_rows_differ(alloc: Global, keys: &[RowKey], writes: &[Write]) -> Result<(), TxnFault>
    requires { keys.now ≡ rows_of writes.now }
    ensures { MatchResult result (λ _. twice_behind [] writes.now ≡ None) (λ e. not_memory e → twice_behind [] writes.now ≡ Some e) }
{
    if let [_] = writes {
        return Ok(());
    }
    let mut seen = HashMap::with_capacity(alloc, keys.len())?;
    for key in keys {
        if let Some(_) = seen.insert(key, ())? {
            return Err(TxnFault::RowTwice(key.row().copy()?));
        }
    }
    Ok(())
}

/// The refusals of ids, stamps and rows, in their order.
fn check_rows(
    alloc: Global,
    ids: &HashMap<Text, ()>,
    last: u64,
    items: &[Modification],
    keys: &[RowKey],
    lasts: &[Option<usize>],
    txn: &Txn,
) -> Result<(), TxnFault>
    requires keys { keys.now ≡ rows_of txn.now.writes }
    requires lasts { lasts.now ≡ lasts_of items.now txn.now.writes }
    requires ids { IdsOf items.now ids.now }
    requires last { last ≡ last_stamp items.now }
    ensures { MatchResult result (λ _. row_fault items.now txn.now ≡ None) (λ e. not_memory e → row_fault items.now txn.now ≡ Some e) }
{
    if ids.contains_key(&txn.tx) {
        return Err(TxnFault::IdUsed);
    }
    if txn.stamp.us() < last {
        return Err(TxnFault::StampBack);
    }
    let writes = txn.writes.as_slice();
    check_rows_differ(alloc, keys, writes)?;
    check_inserts(items, lasts, writes)?;
    check_others(items, lasts, writes)?;
    Ok(())
}

/// The refusals up to those of sizes, in their order.
pub(crate) fn check(
    alloc: Global,
    tables: &Tables,
    ids: &HashMap<Text, ()>,
    last: u64,
    items: &[Modification],
    keys: &[RowKey],
    lasts: &[Option<usize>],
    txn: &Txn,
) -> Result<(), TxnFault>
    requires keys { keys.now ≡ rows_of txn.now.writes }
    requires lasts { lasts.now ≡ lasts_of items.now txn.now.writes }
    requires ids { IdsOf items.now ids.now }
    requires last { last ≡ last_stamp items.now }
    ensures { MatchResult result (λ _. write_fault tables.now items.now txn.now ≡ None) (λ e. not_memory e → write_fault tables.now items.now txn.now ≡ Some e) }
{
    check_rows(alloc, ids, last, items, keys, lasts, txn)?;
    let writes = txn.writes.as_slice();
    check_writes(alloc, Test::Values, tables, writes)?;
    check_writes(alloc, Test::Set, tables, writes)?;
    check_stamps(items, txn.stamp, lasts, writes)?;
    check_writes(alloc, Test::Tables, tables, writes)?;
    check_writes(alloc, Test::Columns, tables, writes)?;
    Ok(())
}
