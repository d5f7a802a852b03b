ghost use Rattle.std.specs.Prelude.{◌≡◌, IfOk, filter_map};
ghost use Rattle.std.specs.Int.{is_in_range};
ghost use Rattle.cs_types.specs.Change.{wanted_changes};
ghost use Rattle.cs_capture.specs.Wanted.{captured_changes, change_between as change_between_of};

use crate::captured::captured_change;
use cs_schema::{Catalog, Stream};
use cs_txn::{History, Modification};
use cs_types::{Change, Items, Memory, Stamp};
use std::alloc::Global;

/// The changes that a stream captures of a history from `start` to `end`, both among them, in the
/// order of the commits. See `capture`.
#[tactic(auto, using(crate::proofs::Between::between))]
pub fn wanted(
    alloc: Global,
    history: &History,
    catalog: &Catalog,
    stream: &Stream,
    start: Stamp,
    end: Stamp,
) -> Result<Items<Change>, Memory>
    ensures { IfOk result (λ changes. changes ≡ wanted_changes start end (captured_changes catalog.now.tables stream.now history.now)) }
{
    let items = history.modifications();
    let changes = captured_between(alloc, items, catalog, stream, start, end)?;
    Ok(changes)
}

fn is_between(start: Stamp, end: Stamp, stamp: Stamp) -> bool
    ensures { result ≡ is_in_range start end stamp }
{
    if start <= stamp {
        return stamp <= end;
    }
    false
}

/// The captured change of a modification from the start to the end, where there is one.
fn change_between(
    alloc: Global,
    catalog: &Catalog,
    stream: &Stream,
    start: Stamp,
    end: Stamp,
    item: &Modification,
) -> Result<Option<Change>, Memory>
    ensures { IfOk result (λ c. c ≡ change_between_of catalog.now.tables stream.now start end item.now) }
{
    if is_between(start, end, item.stamp) {
        return captured_change(alloc, catalog, stream, item);
    }
    Ok(None)
}

fn captured_between(
    alloc: Global,
    items: &[Modification],
    catalog: &Catalog,
    stream: &Stream,
    start: Stamp,
    end: Stamp,
) -> Result<Items<Change>, Memory>
    ensures { IfOk result (λ changes. changes ≡ filter_map (change_between_of catalog.now.tables stream.now start end) items.now) }
{
    let mut changes = Items::new(alloc);
    for item in items {
        if let Some(change) = change_between(alloc, catalog, stream, start, end, item)? {
            changes.push(change)?;
        }
    }
    Ok(changes)
}
