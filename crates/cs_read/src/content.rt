ghost use Rattle.std.specs.Prelude.{◌≡◌, ◌<◌, IfOk, IfSome, length};
ghost use Rattle.cs_index.specs.Index.{IsStreamIndex};
ghost use Rattle.cs_steps.specs.Captures.{captured_items};
ghost use Rattle.cs_steps.specs.Cursor.{IsAt};
ghost use Rattle.cs_steps.specs.Refusals.{refusal_by};
ghost use Rattle.cs_read.specs.Content.{AreRecords, records_in, part_at};

use cs_capture::capture;
use cs_index::StreamIndex;
use cs_link::{ReadArgs, ReadRefusal};
use cs_partitions::Layout;
use cs_records::Captured;
use cs_schema::{Catalog, Stream};
use cs_steps::{RecordPlace, refusal};
use cs_txn::Modification;
use cs_types::{Memory, Stamp};
use std::alloc::Global;
use std::marker::Model;

/// A stream with its index, which contracts see as what its READs speak of. Nothing of what the
/// stream captured is laid out: each change is captured again where it is asked for.
#[derive(Drop)]
pub struct IndexedStream<'a> {
    catalog: &'a Catalog,
    stream: &'a Stream,
    layout: &'a Layout,
    history: &'a [Modification],
    index: &'a StreamIndex,
}

impl<'a> Model for IndexedStream<'a> {
    ghost use Rattle.cs_index.specs.Index.{IsStreamIndex};
    ghost use Rattle.cs_steps.specs.Captures.{captured_items};
    ghost use Rattle.cs_read.specs.Content.{Content};

    ghost Value = { Content };

    ghost view = { λ s. record { parts = s.layout.now.parts; items = captured_items s.catalog.now.tables s.stream.now s.history.now; created = s.stream.now.created; retention_us = s.stream.now.retention_us } };

    ghost invariant = { λ s. IsStreamIndex s.catalog.now.tables s.stream.now s.layout.now.parts s.history.now s.index.now };
}

/// The places of the data records of a part, and of their changes among what the stream captured.
#[derive(Clone, Copy)]
pub(crate) struct PartLines<'a> {
    pub changes: &'a [u32],
    pub records: &'a [RecordPlace],
}

impl<'a> IndexedStream<'a> {
    /// A stream of a catalog, with its layout and with its index over a history.
    pub fn of(
        catalog: &'a Catalog,
        stream: &'a Stream,
        layout: &'a Layout,
        history: &'a [Modification],
        index: &'a StreamIndex,
    ) -> IndexedStream<'a>
        requires { IsStreamIndex catalog.now.tables stream.now layout.now.parts history.now index.now }
        ensures parts { result.parts ≡ layout.now.parts }
        ensures items { result.items ≡ captured_items catalog.now.tables stream.now history.now }
        ensures created { result.created ≡ stream.now.created }
        ensures retention { result.retention_us ≡ stream.now.retention_us }
    {
        IndexedStream {
            catalog,
            stream,
            layout,
            history,
            index,
        }
    }

    pub(crate) fn layout(&self) -> &'a Layout
        ensures { result.now.parts ≡ self.now.parts }
    {
        self.layout
    }

    /// Why a READ is refused; None where it is not.
    pub(crate) fn refusal(&self, args: &ReadArgs, moment: Stamp) -> Option<ReadRefusal>
        ensures { result ≡ refusal_by self.now.parts self.now.created self.now.retention_us args.now moment }
    {
        refusal(args, self.stream, self.layout, moment)
    }

    /// The change at a place among those that the stream captured.
    pub(crate) fn change(&self, alloc: Global, place: u32) -> Result<Captured, Memory>
        requires { place < length self.now.items }
        ensures { IfOk result (λ c. IsAt self.now.items place c) }
    {
        let source = self.index.sources.as_slice()[place as usize];
        let item = &self.history[source as usize];
        match capture(alloc, self.catalog, self.stream, item)? {
            Some(change) => Ok(change),
            None => unreachable!(),
        }
    }

    /// The places of the data records of the part at a place; none without a part.
    pub(crate) fn lines(&self, part: Option<usize>) -> PartLines<'a>
        requires { IfSome part (λ place. place < length self.now.parts) }
        ensures { AreRecords self.now.items (records_in self.now (part_at self.now.parts part)) result.changes.now result.records.now }
    {
        let Some(place) = part else {
            return PartLines {
                changes: &[],
                records: &[],
            };
        };
        let line = &self.index.parts.as_slice()[place];
        PartLines {
            changes: line.changes.as_slice(),
            records: line.records.as_slice(),
        }
    }
}
