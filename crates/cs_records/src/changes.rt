ghost use Rattle.std.specs.Prelude.{◌≡◌, [], Some, None, IfOk, MatchResult};
ghost use Rattle.std.specs.Option.{option_map};
ghost use Rattle.cs_records.specs.Told.{row_of, change_of, changes_told, keys_of, first_key_again, record_fault, not_memory};

use crate::keys::check_keys;
use crate::{DataRecord, Mod, RecordFault};
use cs_types::{Cells, Change, Duplicate, Items, Memory, RowName};
use std::alloc::Global;
use std::collections::BTreeSet;

/// The changes that a data record tells: one for each mod, in their order.
///
/// First `KeyMissing` for the first mod whose keys are not exactly the columns marked as key; it
/// names the first column marked as key, in the order of the record's columns, that the keys lack,
/// or else the first column of the keys that is not marked. Then `KeyTwice` for the first mod whose
/// key an earlier mod has, with its row. The order of refusals is this project's own. It takes time
/// in the size of the record, times a logarithm.
pub fn changes_of(alloc: Global, item: &DataRecord) -> Result<Items<Change>, RecordFault>
    ensures changes { MatchResult result (λ changes. changes ≡ changes_told item.now) (λ e. not_memory e → record_fault item.now ≡ Some e) }
    ensures sound { IfOk result (λ _. record_fault item.now ≡ None) }
{
    check_keys(alloc, item)?;
    check_rows(alloc, item)?;
    let changes = all_changes(alloc, item)?;
    Ok(changes)
}

fn check_rows(alloc: Global, item: &DataRecord) -> Result<(), RecordFault>
    ensures { MatchResult result (λ _. first_key_again [] (keys_of item.now.mods) ≡ None)
        (λ e. not_memory e → option_map (λ key. RecordFault.KeyTwice (row_of item.now key)) (first_key_again [] (keys_of item.now.mods)) ≡ Some e) }
{
    let mut seen: BTreeSet<Cells> = BTreeSet::new(alloc);
    for one in item.mods.as_slice() {
        if !seen.insert(one.keys.copy()?)? {
            return Err(RecordFault::KeyTwice(row_of(item, one)?));
        }
    }
    Ok(())
}

fn all_changes(alloc: Global, item: &DataRecord) -> Result<Items<Change>, Memory>
    ensures { IfOk result (λ changes. changes ≡ changes_told item.now) }
{
    let mut changes = Items::new(alloc);
    for one in item.mods.as_slice() {
        changes.push(change_of(item, one)?)?;
    }
    Ok(changes)
}

fn change_of(item: &DataRecord, one: &Mod) -> Result<Change, Memory>
    ensures { IfOk result (λ c. c ≡ change_of item.now one.now) }
{
    Ok(Change {
        stamp: item.stamp,
        tx: item.tx.copy()?,
        row: row_of(item, one)?,
        kind: item.kind,
        new: one.new.copy()?,
        old: one.old.copy()?,
    })
}

fn row_of(item: &DataRecord, one: &Mod) -> Result<RowName, Memory>
    ensures { IfOk result (λ r. r ≡ row_of item.now one.now.keys) }
{
    Ok(RowName {
        table: item.table.copy()?,
        key: one.keys.copy()?,
    })
}
