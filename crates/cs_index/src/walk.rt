ghost use Rattle.std.specs.Prelude.{◌≡◌, ◌∷◌, ◌++◌, ◌<◌, [], true, false, List, None, Some, length, map, replicate, slice_set, option_copied, IfOk, OnOk};
ghost use Rattle.cs_schema.specs.declared.types.Stream.{Stream};
ghost use Rattle.cs_schema.specs.declared.types.Table.{Table};
ghost use Rattle.cs_txn.specs.declared.txn.Modification.{Modification as AModification};
ghost use Rattle.cs_steps.specs.Index.{is_end};
ghost use Rattle.cs_steps.specs.Lines.{no_line, with_change};
ghost use Rattle.cs_index.specs.Walk.{IsAdded, IsFit, HasEnded, IsGiven, IsNext, IsWalk, at_index, index_of, follows};

use crate::alike::is_same;
use crate::line::PartLine;
use crate::touched::{Touched, end_all, sort_by_low, totals};
use crate::{PartIndex, StreamIndex};
use cs_place::Part;
use cs_records::Captured;
use cs_steps::index_is_the_definition;
use cs_txn::Modification;
use cs_types::{Items, Memory};
use std::alloc::Global;

/// A walk over a history, which makes the index of a stream.
#[derive(Drop)]
pub(crate) struct Walk<'a> {
    parts: &'a [Part],
    sources: Items<u32>,
    /// The index of each part, as far as it is made.
    lines: Vec<PartLine>,
    /// The parts that have a change of the transaction under way.
    touched: Vec<Touched<'a>>,
    /// The first modification of that transaction which the stream captures.
    begun: Option<&'a Modification>,
}

/// A number below 2^32; that it is not is want of memory.
pub(crate) fn short(number: usize) -> Result<u32, Memory>
    ensures { IfOk result (λ n. n ≡ number) }
{
    match u32::try_from(number) {
        Ok(number) => Ok(number),
        Err(_) => Err(Memory),
    }
}

fn no_lines(alloc: Global, count: usize) -> Result<Vec<PartLine>, Memory>
    ensures { IfOk result (λ lines. lines.items ≡ replicate count no_line) }
{
    let mut lines = Vec::new(alloc);
    for made in 0..count {
        lines.push(PartLine::new(alloc))?;
    }
    Ok(lines)
}

/// Gives a change to the line of a part.
fn give(lines: &mut [PartLine], index: usize, place: u32, item: Captured) -> Result<(), Memory>
    requires { index < length lines.old }
    ensures { OnOk result (lines.new ≡ slice_set lines.old index (with_change (at_index lines.old index) place item)) }
{
    lines[index].take(place, item)
}

/// Puts a part among those that were touched, where it is not.
fn touch<'a>(
    touched: &mut Vec<Touched<'a>>,
    parts: &'a [Part],
    lines: &[PartLine],
    index: usize,
) -> Result<(), Memory>
    requires part { index < length parts.now }
    requires line { index < length lines.now }
    ensures stays { is_end (at_index lines.now index).opened ≡ false → OnOk result (touched.new.items ≡ touched.old.items) }
    ensures added { is_end (at_index lines.now index).opened ≡ true → OnOk result (IsAdded parts.now index touched.old.items touched.new.items) }
{
    if !lines[index].is_quiet() {
        return Ok(());
    }
    let part = &parts[index];
    touched.push(Touched { index, part })?;
    Ok(())
}

fn indexes(alloc: Global, lines: Vec<PartLine>) -> Result<Items<PartIndex>, Memory>
    ensures { IfOk result (λ parts. parts ≡ map index_of lines.items) }
{
    let mut parts = Items::new(alloc);
    for line in lines {
        parts.push(line.into_index())?;
    }
    Ok(parts)
}

impl<'a> Walk<'a> {
    /// Over nothing yet, for a stream of these parts.
    pub(crate) fn new(alloc: Global, parts: &'a [Part]) -> Result<Walk<'a>, Memory>
        ensures { IfOk result (λ w. (w.parts.now ≡ parts.now) × (w.sources ≡ []) × (w.lines.items ≡ replicate (length parts.now) no_line) × (w.touched.items ≡ []) × (option_copied w.begun ≡ None)) }
    {
        Ok(Walk {
            parts,
            sources: Items::new(alloc),
            lines: no_lines(alloc, parts.len())?,
            touched: Vec::new(alloc),
            begun: None,
        })
    }

    /// Whether a captured modification is of the transaction under way.
    fn goes_on(&self, item: &Modification) -> bool
        ensures { result ≡ follows (option_copied self.now.begun) item.now }
    {
        match self.begun {
            None => false,
            Some(first) => is_same(&first.tx, &item.tx),
        }
    }

    /// The transaction under way is whole.
    pub(crate) fn end(&mut self) -> Result<(), Memory>
        requires { IsFit self.old }
        ensures { OnOk result (HasEnded self.old None self.new) }
    {
        let totals = totals(self.lines.as_slice(), self.touched.as_slice())?;
        sort_by_low(&mut self.touched)?;
        end_all(self.lines.as_mut_slice(), self.touched.as_slice(), totals)?;
        self.touched.clear();
        self.begun = None;
        Ok(())
    }

    /// A captured modification comes: it goes on with the transaction under way, or begins another.
    fn go_to(&mut self, item: &'a Modification) -> Result<(), Memory>
        requires { IsFit self.old }
        ensures stays { follows (option_copied self.old.begun) item.now ≡ true → OnOk result (self.new ≡ self.old) }
        ensures begins { follows (option_copied self.old.begun) item.now ≡ false → OnOk result (HasEnded self.old (Some item.now) self.new) }
    {
        if self.goes_on(item) {
            return Ok(());
        }
        self.end()?;
        self.begun = Some(item);
        Ok(())
    }

    /// Gives a captured change to the part that holds it.
    fn give(&mut self, index: usize, source: u32, item: Captured) -> Result<(), Memory>
        requires fit { IsFit self.old }
        requires inside { index < length self.old.parts.now }
        ensures { OnOk result (IsGiven self.old index source item self.new) }
    {
        let place = short(self.sources.as_slice().len())?;
        self.sources.push(source)?;
        touch(&mut self.touched, self.parts, self.lines.as_slice(), index)?;
        give(self.lines.as_mut_slice(), index, place, item)
    }

    /// Takes the next modification that the stream captures, whose place in the history this is,
    /// with what is captured of it and the index of the part that holds it.
    pub(crate) fn take(
        &mut self,
        index: usize,
        source: u32,
        item: &'a Modification,
        captured: Captured,
    ) -> Result<(), Memory>
        requires fit { IsFit self.old }
        requires inside { index < length self.old.parts.now }
        ensures walk { (tables : List Table) (stream : Stream) (ms front : List AModification) → IsNext tables stream ms self.old.parts.now index source item.now captured → IsWalk tables stream ms front self.old → OnOk result (IsWalk tables stream ms (front ++ item.now ∷ []) self.new) }
        ensures parts { OnOk result (self.new.parts.now ≡ self.old.parts.now) }
    {
        let _index = index_is_the_definition();
        self.go_to(item)?;
        self.give(index, source, captured)
    }

    /// What was made, when the last transaction is whole.
    pub(crate) fn into_index(self, alloc: Global) -> Result<StreamIndex, Memory>
        ensures { IfOk result (λ index. (index.sources ≡ self.entry.sources) × (index.parts ≡ map index_of self.entry.lines.items)) }
    {
        let Walk {
            parts: _,
            sources,
            lines,
            touched: _,
            begun: _,
        } = self;
        Ok(StreamIndex {
            sources,
            parts: indexes(alloc, lines)?,
        })
    }
}
