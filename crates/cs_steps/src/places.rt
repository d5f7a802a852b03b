ghost use Rattle.std.specs.Prelude.{◌≡◌, ◌∷◌, ◌+◌, ◌<◌, ◌≤◌, [], All, IfOk, length, map};
ghost use Rattle.cs_records.specs.Group.{mod_of};
ghost use Rattle.cs_steps.specs.Places.{taken_at, record_at};

use cs_records::{Captured, DataRecord, Mod};
use cs_types::{Duplicate, Items, Memory, Stamp};
use std::alloc::Global;

/// A data record of a part, by places and numbers alone.
#[derive(Clone, Copy, Debug, PartialEq, Eq)]
pub struct RecordPlace {
    /// The stamp of its transaction.
    pub stamp: Stamp,
    /// The place of its first change among the changes of its part.
    pub first: usize,
    /// How many changes it tells.
    pub count: usize,
    /// Its place among the records of its transaction.
    pub sequence: u32,
    /// Whether it is the last one of its transaction in its part.
    pub is_last: bool,
    /// The number of records of its transaction.
    pub records_in_tx: u64,
    /// The number of parts that have a record of its transaction.
    pub parts_in_tx: u64,
}

/// The data record at a place, from what the stream captured and from the places of its part's
/// changes among that. It takes time in the size of the record.
pub fn record(
    alloc: Global,
    captured: &[Captured],
    changes: &[usize],
    place: &RecordPlace,
) -> Result<DataRecord, Memory>
    requires some { 0 < place.now.count }
    requires within { place.now.first + place.now.count ≤ length changes.now }
    requires there { All (λ k. k < length captured.now) changes.now }
    ensures { IfOk result (λ d. record_at captured.now changes.now place.now ≡ d ∷ []) }
{
    let behind = changes.split_at(place.first).1;
    let own = behind.split_at(place.count).0;
    let first = &captured[own[0]];
    Ok(DataRecord {
        stamp: first.change.stamp,
        sequence: place.sequence,
        tx: first.change.tx.copy()?,
        is_last: place.is_last,
        table: first.change.row.table.copy()?,
        columns: first.columns.copy()?,
        mods: mods(alloc, captured, own)?,
        kind: first.change.kind,
        capture: first.capture,
        records_in_tx: place.records_in_tx,
        parts_in_tx: place.parts_in_tx,
        tag: first.tag.copy()?,
        system: first.system,
    })
}

fn mods(alloc: Global, captured: &[Captured], places: &[usize]) -> Result<Items<Mod>, Memory>
    requires { All (λ k. k < length captured.now) places.now }
    ensures { IfOk result (λ m. m ≡ map mod_of (taken_at captured.now places.now)) }
{
    let mut mods = Items::new(alloc);
    for place in places {
        mods.push(mod_of(&captured[*place])?)?;
    }
    Ok(mods)
}

fn mod_of(item: &Captured) -> Result<Mod, Memory>
    ensures { IfOk result (λ m. m ≡ mod_of item.now) }
{
    Ok(Mod {
        keys: item.change.row.key.copy()?,
        new: item.change.new.copy()?,
        old: item.change.old.copy()?,
    })
}
