ghost use Rattle.std.specs.Prelude.{◌≡◌, ◌<◌, ◌≤◌, ◌+◌, All, IfOk, OnOk, MatchOption, MatchResult, Some, None};
ghost use Rattle.cs_types.specs.Cells.{IsRising};
ghost use Rattle.cs_types.specs.Firsts.{first_of};
ghost use Rattle.cs_txn.specs.Faults.{not_memory};
ghost use Rattle.cs_txn.specs.Fits.{StandsBefore, StandsAfter, HasCells};
ghost use Rattle.cs_txn.specs.Lengths.{cells_length};
ghost use Rattle.cs_txn.specs.Sizes.{size_before, size_after, history_limit, large_fault, weight, weights_of, total};

use crate::lengths::{cells_size, row_size};
use crate::{Modification, TxnFault};
use cs_types::{Duplicate, Items, Kind, Memory};
use std::alloc::Global;

const ROW_LIMIT: u64 = 65_536;

const HISTORY_LIMIT: u64 = 134_217_728;

/// The size of the row before the write; `names` is what the cells of its key take.
fn before(alloc: Global, names: u64, item: &Modification) -> Result<u64, Memory>
    requires names { names ≡ cells_length item.now.row.key }
    requires rising { IsRising item.now.row.key }
    ensures size { IfOk result (λ n. n ≡ size_before item.now.kind item.now.row.key item.now.before) }
    ensures cells { OnOk result (StandsBefore item.now.kind item.now.before) }
{
    match item.kind {
        Kind::Insert => Ok(0),
        _ => {
            let size = row_size(alloc, names, &item.row.key, &item.before)?;
            Ok(size)
        }
    }
}

/// The like after it.
fn after(alloc: Global, names: u64, item: &Modification) -> Result<u64, Memory>
    requires names { names ≡ cells_length item.now.row.key }
    requires rising { IsRising item.now.row.key }
    ensures size { IfOk result (λ n. n ≡ size_after item.now.kind item.now.row.key item.now.after) }
    ensures cells { OnOk result (StandsAfter item.now.kind item.now.after) }
{
    match item.kind {
        Kind::Delete => Ok(0),
        _ => {
            let size = row_size(alloc, names, &item.row.key, &item.after)?;
            Ok(size)
        }
    }
}

/// The larger size of the row, before or after, where it is not too large after.
fn weigh(alloc: Global, item: &Modification) -> Result<u64, TxnFault>
    ensures weight { IfOk result (λ n. n ≡ weight item.now) }
    ensures cells { OnOk result (HasCells item.now) }
    ensures refused { MatchResult result (λ _. large_fault item.now ≡ None) (λ e. not_memory e → large_fault item.now ≡ Some e) }
{
    let names = cells_size(alloc, &item.row.key)?;
    let after = after(alloc, names, item)?;
    if after > ROW_LIMIT {
        return Err(TxnFault::RowTooLarge(item.row.copy()?));
    }
    let before = before(alloc, names, item)?;
    if before < after {
        Ok(after)
    } else {
        Ok(before)
    }
}

/// The larger size of each row, before or after, where none is too large after.
pub(crate) fn weights(alloc: Global, added: &[Modification]) -> Result<Items<u64>, TxnFault>
    ensures weights { IfOk result (λ ns. ns ≡ weights_of added.now) }
    ensures cells { OnOk result (All HasCells added.now) }
    ensures refused { MatchResult result (λ _. first_of large_fault added.now ≡ None) (λ e. not_memory e → first_of large_fault added.now ≡ Some e) }
{
    let mut sizes = Items::new(alloc);
    for item in added {
        sizes.push(weigh(alloc, item)?)?;
    }
    Ok(sizes)
}

/// The sum, where it does not pass the limit.
fn plus(a: u64, b: u64) -> Option<u64>
    requires { a ≤ history_limit }
    ensures { MatchOption result (history_limit < a + b) (λ n. (n ≡ a + b) × (n ≤ history_limit)) }
{
    if b > HISTORY_LIMIT - a {
        return None;
    }
    Some(a + b)
}

/// The history's size with what is added, where it does not pass the limit.
pub(crate) fn with_added(start: u64, sizes: &[u64]) -> Option<u64>
    requires { start ≤ history_limit }
    ensures { MatchOption result (history_limit < start + total sizes.now) (λ n. (n ≡ start + total sizes.now) × (n ≤ history_limit)) }
{
    let mut sum = start;
    for size in sizes {
        match plus(sum, *size) {
            Some(more) => sum = more,
            None => return None,
        }
    }
    Some(sum)
}
