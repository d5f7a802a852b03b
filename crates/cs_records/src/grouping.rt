ghost use Rattle.std.specs.Prelude.{◌≡◌, ◌↔◌, ◌+◌, ◌<◌, ◌≤◌, List, ◌∷◌, IfOk, IsTrue, All, None, map, length, take, drop};
ghost use Rattle.std.specs.List.{IsDistinct, flat_map};
ghost use Rattle.cs_types.specs.Row.{same_row};
ghost use Rattle.cs_records.specs.declared.captured.Captured.{Captured};
ghost use Rattle.cs_records.specs.Told.{changes_told, record_fault};
ghost use Rattle.cs_records.specs.Group.{Agree, HasItsColumns, IsAlike, AreRecordsOf, IsNext, AreCut, is_nil, mod_of};

use crate::keys::same_columns;
use crate::{Captured, DataRecord, Mod};
use cs_types::{Duplicate, Items, Memory};
use std::alloc::Global;

/// The most mods of a record, less the first.
const MORE: usize = 31;

/// The data records of the captured changes of one transaction, in their order. Neighbours of
/// equal table, kind, columns of new cells and columns of old cells share a record, 32 at most.
/// Sequences go up by one from `next_sequence`, the last record has `is_last`, and `records_in_tx`
/// and `parts_in_tx` are 1 until the caller sets them. The grouping is this project's own, for the
/// fields of
/// <https://cloud.google.com/spanner/docs/change-streams/details#data-change-records>.
///
/// The changes are of one transaction, no two of one row. The columns of each are those of its key,
/// which alone are marked as key, and those of its new and old cells, by rising ordinal. Changes of
/// one table have the same key columns and tell the same of one column. It takes time in the size
/// of what was captured.
pub fn group(
    alloc: Global,
    captured: &[Captured],
    next_sequence: u32,
) -> Result<Items<DataRecord>, Memory>
    requires agree { All (λ a. All (λ b. Agree a b) captured.now) captured.now }
    requires rows { IsDistinct same_row (map (λ c. c.change.row) captured.now) }
    requires columns { All HasItsColumns captured.now }
    requires room { next_sequence + length captured.now ≤ 99999999 }
    ensures records { IfOk result (λ records. AreRecordsOf captured.now next_sequence records) }
    ensures changes { IfOk result (λ records. flat_map changes_told records ≡ map (λ c. c.change) captured.now) }
    ensures sound { IfOk result (λ records. All (λ r. record_fault r ≡ None) records) }
{
    let records = cut(alloc, captured, next_sequence)?;
    Ok(records)
}

fn cut(
    alloc: Global,
    captured: &[Captured],
    next_sequence: u32,
) -> Result<Items<DataRecord>, Memory>
    requires { next_sequence + length captured.now ≤ 99999999 }
    ensures { IfOk result (λ records. AreCut next_sequence captured.now records) }
{
    let mut records = Items::new(alloc);
    let mut sequence = next_sequence;
    let mut at = 0;
    while at < captured.len() {
        let next = next_record(alloc, captured, at, sequence)?;
        at += next.mods.as_slice().len();
        sequence += 1;
        records.push(next)?;
    }
    Ok(records)
}

fn next_record(
    alloc: Global,
    captured: &[Captured],
    at: usize,
    sequence: u32,
) -> Result<DataRecord, Memory>
    requires { at < length captured.now }
    ensures next { IfOk result (λ r. IsNext sequence (drop at captured.now) (drop (at + length r.mods) captured.now) r) }
    ensures some { IfOk result (λ r. 0 < length r.mods) }
    ensures within { IfOk result (λ r. at + length r.mods ≤ length captured.now) }
{
    let first = &captured[at];
    let more = captured.split_at(at + 1).1;
    let count = run_length(first, more);
    let halves = more.split_at(count);
    Ok(DataRecord {
        stamp: first.change.stamp,
        sequence,
        tx: first.change.tx.copy()?,
        is_last: are_none(halves.1),
        table: first.change.row.table.copy()?,
        columns: first.columns.copy()?,
        mods: mods_of(alloc, first, halves.0)?,
        kind: first.change.kind,
        capture: first.capture,
        records_in_tx: 1,
        parts_in_tx: 1,
        tag: first.tag.copy()?,
        system: first.system,
    })
}

#[tactic(auto, using(crate::proofs::Cutting::is_nil_test))]
fn are_none(items: &[Captured]) -> bool
    ensures { result ≡ is_nil items.now }
{
    items.is_empty()
}

fn mods_of(alloc: Global, first: &Captured, more: &[Captured]) -> Result<Items<Mod>, Memory>
    ensures { IfOk result (λ mods. mods ≡ mod_of first.now ∷ map mod_of more.now) }
{
    let mut mods = Items::new(alloc);
    mods.push(mod_of(first)?)?;
    for item in more {
        mods.push(mod_of(item)?)?;
    }
    Ok(mods)
}

/// What a record holds of a captured change.
pub fn mod_of(item: &Captured) -> Result<Mod, Memory>
    ensures { IfOk result (λ m. m ≡ mod_of item.now) }
{
    Ok(Mod {
        keys: item.change.row.key.copy()?,
        new: item.change.new.copy()?,
        old: item.change.old.copy()?,
    })
}

fn run_length(first: &Captured, more: &[Captured]) -> usize
    ensures few { result ≤ 31 }
    ensures within { result ≤ length more.now }
    ensures alike { All (IsAlike first.now) (take result more.now) }
    ensures ends { result < 31 → (next : Captured) (later : List Captured) → drop result more.now ≡ next ∷ later → ¬ (IsAlike first.now next) }
{
    let mut count = 0;
    for item in more {
        if count == MORE {
            return count;
        }
        if !are_alike(first, item) {
            return count;
        }
        count += 1;
    }
    count
}

fn are_alike(a: &Captured, b: &Captured) -> bool
    ensures { IsTrue result ↔ IsAlike a.now b.now }
{
    a.change.row.table.is(&b.change.row.table)
        && a.change.kind == b.change.kind
        && same_columns(a.change.new.items(), b.change.new.items())
        && same_columns(a.change.old.items(), b.change.old.items())
}
