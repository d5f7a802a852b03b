ghost use Rattle.std.specs.Prelude.{◌≡◌, ◌+◌, ◌<◌, ◌≤◌, ◌++◌, length, map, IfOk, option_copied, slice_get, ◌^◌};
ghost use Rattle.std.specs.HashMap.{get, spare};
ghost use Rattle.cs_txn.specs.Digests.{row_eq};
ghost use Rattle.cs_txn.specs.Places.{PlacesOf, standing, rows_of, lasts_in, place_at};

use crate::row_key::RowKey;
use crate::{Modification, Write};
use cs_types::Memory;
use std::alloc::Global;
use std::collections::HashMap;

/// The modification at a place, if there is one.
pub(crate) fn standing_at(items: &[Modification], last: Option<usize>) -> Option<&Modification>
    ensures { option_copied result ≡ standing items.now last }
{
    match last {
        Some(place) => item_at(items, place),
        None => None,
    }
}

fn place_of(rows: &HashMap<RowKey, usize>, row: &RowKey) -> Option<usize>
    ensures { result ≡ get row_eq rows.now row.now }
{
    match rows.get(row) {
        Some(place) => Some(*place),
        None => None,
    }
}

/// For each write the key of its row.
pub(crate) fn keys_of(alloc: Global, writes: &[Write]) -> Result<Vec<RowKey>, Memory>
    ensures { IfOk result (λ l. l.items ≡ rows_of writes.now) }
{
    let mut keys = Vec::with_capacity(alloc, writes.len())?;
    for write in writes {
        keys.push(RowKey::of(&write.row)?)?;
    }
    Ok(keys)
}

/// For each row the place of its last modification: each is looked up once.
pub(crate) fn lasts(
    alloc: Global,
    rows: &HashMap<RowKey, usize>,
    keys: &[RowKey],
) -> Result<Vec<Option<usize>>, Memory>
    ensures { IfOk result (λ l. l.items ≡ lasts_in rows.now keys.now) }
{
    let mut lasts = Vec::with_capacity(alloc, keys.len())?;
    for key in keys {
        lasts.push(place_of(rows, key))?;
    }
    Ok(lasts)
}

/// The place that stands at an index, if there is one.
pub(crate) fn place_at(lasts: &[Option<usize>], index: usize) -> Option<usize>
    ensures { result ≡ place_at lasts.now index }
{
    match lasts.get(index) {
        Some(Some(place)) => Some(*place),
        _ => None,
    }
}

fn item_at(items: &[Modification], place: usize) -> Option<&Modification>
    ensures { option_copied result ≡ slice_get items.now place }
{
    if place < items.len() {
        Some(&items[place])
    } else {
        None
    }
}

/// Sets the place of each row that is added behind the items: this takes no memory.
pub(crate) fn put_all(
    rows: &mut HashMap<RowKey, usize>,
    items: &[Modification],
    added: &[Modification],
    keys: Vec<RowKey>,
)
    requires places { PlacesOf items.now rows.old }
    requires room { length keys.items ≤ spare rows.old }
    requires rows { keys.items ≡ map (λ m. m.row) added.now }
    requires fits { length items.now + length keys.items < 2 ^ 64 }
    ensures { PlacesOf (items.now ++ added.now) rows.new }
{
    let mut place = items.len();
    'put: for key in keys {
        match rows.insert(key, place) {
            Ok(_) => (),
            Err(_) => unreachable!(),
        }
        place += 1;
    }
}
