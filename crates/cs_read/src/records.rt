ghost use Rattle.std.specs.Prelude.{◌≡◌, ◌∷◌, ◌+◌, ◌<◌, ◌≤◌, [], All, IfOk, length, map};
ghost use Rattle.cs_records.specs.Group.{mod_of};
ghost use Rattle.cs_steps.specs.Places.{record_at, taken_at};

use crate::IndexedStream;
use cs_records::{Captured, DataRecord, Mod};
use cs_steps::RecordPlace;
use cs_types::{Change, Items, Memory, RowName};
use std::alloc::Global;

/// The data record at a place, of changes that are captured again. It takes time in the size of the
/// record.
pub(crate) fn data_record(
    alloc: Global,
    of: &IndexedStream<'_>,
    changes: &[u32],
    place: &RecordPlace,
) -> Result<DataRecord, Memory>
    requires some { 0 < place.now.count }
    requires within { place.now.first + place.now.count ≤ length changes.now }
    requires there { All (λ k. k < length of.now.items) changes.now }
    ensures { IfOk result (λ d. record_at of.now.items changes.now place.now ≡ d ∷ []) }
{
    let behind = changes.split_at(place.first).1;
    let own = behind.split_at(place.count).0;
    let Captured {
        change,
        columns,
        capture,
        tag,
        system,
    } = of.change(alloc, own[0])?;
    let Change {
        stamp,
        tx,
        row,
        kind,
        new,
        old,
    } = change;
    let RowName { table, key } = row;
    let first = Mod {
        keys: key,
        new,
        old,
    };
    Ok(DataRecord {
        stamp,
        sequence: place.sequence,
        tx,
        is_last: place.is_last,
        table,
        columns,
        mods: mods(alloc, of, first, own.split_at(1).1)?,
        kind,
        capture,
        records_in_tx: place.records_in_tx,
        parts_in_tx: place.parts_in_tx,
        tag,
        system,
    })
}

/// A mod, and behind it those of the changes at these places.
fn mods(
    alloc: Global,
    of: &IndexedStream<'_>,
    first: Mod,
    places: &[u32],
) -> Result<Items<Mod>, Memory>
    requires { All (λ k. k < length of.now.items) places.now }
    ensures { IfOk result (λ m. m ≡ first ∷ map mod_of (taken_at of.now.items places.now)) }
{
    let mut mods = Items::new(alloc);
    mods.push(first)?;
    for place in places {
        mods.push(mod_of(of.change(alloc, *place)?))?;
    }
    Ok(mods)
}

fn mod_of(item: Captured) -> Mod
    ensures { result ≡ mod_of item }
{
    let Captured { change, .. } = item;
    let Change { row, new, old, .. } = change;
    Mod {
        keys: row.key,
        new,
        old,
    }
}
