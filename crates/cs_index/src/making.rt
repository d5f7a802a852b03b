ghost use Rattle.std.specs.Prelude.{◌≡◌, ◌≤◌, ◌∷◌, ◌++◌, [], List, IfOk, OnOk};
ghost use Rattle.cs_txn.specs.declared.txn.Modification.{Modification as AModification};
ghost use Rattle.cs_partitions.specs.Views.{IsHolder};
ghost use Rattle.cs_link.specs.Feed.{place_of};
ghost use Rattle.cs_steps.specs.Captures.{captured_since};
ghost use Rattle.cs_index.specs.Index.{IsStreamIndex};
ghost use Rattle.cs_index.specs.Walk.{IsAtPlace, IsFit, IsWalk, HasRules};

use crate::StreamIndex;
use crate::walk::{Walk, short};
use cs_capture::capture;
use cs_partitions::{Finder, Layout, holders_are_one};
use cs_place::place_of;
use cs_records::Captured;
use cs_schema::{Catalog, Stream};
use cs_steps::index_is_the_definition;
use cs_txn::{History, Modification, a_transaction_has_one_stamp_and_tag};
use cs_types::Memory;
use std::alloc::Global;

/// What the stream captures of a modification, nothing before its creation.
fn captured_since(
    alloc: Global,
    catalog: &Catalog,
    stream: &Stream,
    item: &Modification,
) -> Result<Option<Captured>, Memory>
    ensures { IfOk result (λ c. c ≡ captured_since catalog.now.tables stream.now item.now) }
{
    if item.stamp < stream.created {
        return Ok(None);
    }
    capture(alloc, catalog, stream, item)
}

/// The index of the part that holds a modification.
fn holder(
    alloc: Global,
    layout: &Layout,
    finder: &mut Finder,
    item: &Modification,
) -> Result<usize, Memory>
    requires { layout.now.created ≤ item.now.stamp }
    ensures { IfOk result (λ index. IsHolder layout.now.parts (place_of item.now.row) item.now.stamp index) }
{
    let place = place_of(alloc, &item.row)?;
    layout.holder_by(finder, &place, item.stamp)
}

/// What a walk reads.
#[derive(Drop)]
struct Sources<'a> {
    catalog: &'a Catalog,
    stream: &'a Stream,
    layout: &'a Layout,
}

/// Goes over the next modification, whose place in the history this is.
fn step<'a>(
    alloc: Global,
    from: &Sources<'_>,
    finder: &mut Finder,
    walk: &mut Walk<'a>,
    place: usize,
    item: &'a Modification,
) -> Result<(), Memory>
    requires created { from.now.layout.now.created ≤ from.now.stream.now.created }
    requires fit { IsFit walk.old }
    requires parts { walk.old.parts.now ≡ from.now.layout.now.parts }
    ensures walk { (ms front : List AModification) → HasRules from.now.stream.now.created from.now.layout.now.parts ms → IsAtPlace ms place item.now → IsWalk from.now.catalog.now.tables from.now.stream.now ms front walk.old → OnOk result (IsWalk from.now.catalog.now.tables from.now.stream.now ms (front ++ item.now ∷ []) walk.new) }
    ensures parts { OnOk result (walk.new.parts.now ≡ walk.old.parts.now) }
{
    let Some(captured) = captured_since(alloc, from.catalog, from.stream, item)? else {
        return Ok(());
    };
    let index = holder(alloc, from.layout, finder, item)?;
    let source = short(place)?;
    walk.take(index, source, item, captured)
}

/// The index of a stream that has this layout, over the whole of a history. It costs one capture of
/// each modification and a logarithm of the parts for each change, and keeps no captured change but
/// the first one of each record of the transaction under way. A history of more than 2^32
/// modifications, or a transaction of 2^32 data records, is want of memory.
pub fn stream_index(
    alloc: Global,
    catalog: &Catalog,
    stream: &Stream,
    layout: &Layout,
    history: &History,
) -> Result<StreamIndex, Memory>
    requires created { layout.now.created ≤ stream.now.created }
    ensures { IfOk result (λ index. IsStreamIndex catalog.now.tables stream.now layout.now.parts history.now index) }
{
    let _index = index_is_the_definition();
    let _holders = holders_are_one();
    let _stamps = a_transaction_has_one_stamp_and_tag();
    let from = Sources {
        catalog,
        stream,
        layout,
    };
    let items = history.modifications();
    let mut finder = Finder::new(alloc);
    let mut walk = Walk::new(alloc, layout.parts())?;
    for place in 0..items.len() {
        step(alloc, &from, &mut finder, &mut walk, place, &items[place])?;
    }
    walk.end()?;
    walk.into_index(alloc)
}
