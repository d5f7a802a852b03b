ghost use Rattle.std.specs.Prelude.{◌≡◌, ◌∷◌, ◌++◌, ◌+◌, ◌<◌, [], true, length, OnOk, IfOk};
ghost use Rattle.cs_steps.specs.Index.{draft_of, is_end, finished as finished_all};
ghost use Rattle.cs_steps.specs.Lines.{last_count, one_more, goes_on, no_line, with_change, with_end};
ghost use Rattle.cs_index.specs.Walk.{count_in, finished_at, index_of};

use crate::PartIndex;
use crate::alike::is_alike;
use cs_records::Captured;
use cs_steps::RecordPlace;
use cs_types::{Items, Memory};
use std::alloc::Global;
use std::marker::Model;

/// The most changes of a data record.
const MOST: usize = 32;

/// What a transaction has in all parts together.
#[derive(Clone, Copy, Debug)]
pub(crate) struct Totals {
    /// Its data records.
    pub records: u64,
    /// The parts that have one.
    pub parts: u64,
}

/// The index of a part while it is made.
#[derive(Drop)]
pub(crate) struct PartLine {
    changes: Items<u32>,
    /// The records of the transactions that are whole.
    records: Items<RecordPlace>,
    /// The records of the one that is not, of which the totals are not known.
    opened: Vec<RecordPlace>,
    /// The first change of the last one of these.
    first: Option<Captured>,
}

impl Model for PartLine {
    ghost use Rattle.cs_steps.specs.Lines.{Line};

    ghost Value = { Line };

    ghost view = { λ l. record { changes = l.changes; records = l.records; opened = l.opened.items; first = l.first } };
}

impl PartLine {
    /// Of a part without a change. It takes no memory.
    pub(crate) fn new(alloc: Global) -> PartLine
        ensures { result ≡ no_line }
    {
        PartLine {
            changes: Items::new(alloc),
            records: Items::new(alloc),
            opened: Vec::new(alloc),
            first: None,
        }
    }

    /// Whether the part has no record of the transaction under way.
    pub(crate) fn is_quiet(&self) -> bool
        ensures { result ≡ is_end self.now.opened }
    {
        self.opened.is_empty()
    }

    /// How many records of the transaction under way the part has.
    pub(crate) fn count(&self) -> usize
        ensures { result ≡ length self.now.opened }
    {
        self.opened.len()
    }

    /// Whether a change joins the last record.
    fn goes_on(&self, item: &Captured) -> bool
        ensures joins { result ≡ goes_on self.now.first self.now.opened item.now }
        ensures few { result ≡ true → last_count self.now.opened < 32 }
    {
        match &self.first {
            None => false,
            Some(first) => {
                if !is_alike(first, item) {
                    return false;
                }
                last_count(self.opened.as_slice()) < MOST
            }
        }
    }

    /// Takes the next change that the part has, which stands at this place among the sources.
    pub(crate) fn take(&mut self, place: u32, item: Captured) -> Result<(), Memory>
        ensures { OnOk result (self.new ≡ with_change self.old place item) }
    {
        let first = self.changes.as_slice().len();
        self.changes.push(place)?;
        if self.goes_on(&item) {
            one_more(self.opened.as_mut_slice());
            return Ok(());
        }
        self.opened.push(draft(first, &item))?;
        self.first = Some(item);
        Ok(())
    }

    /// The transaction under way is whole, and this is the sequence of the part's first record of
    /// it. Gives the sequence behind its last one.
    pub(crate) fn end(&mut self, totals: Totals, sequence: u32) -> Result<u32, Memory>
        ensures line { OnOk result (self.new ≡ with_end self.old (count_in totals) sequence) }
        ensures next { IfOk result (λ next. next ≡ sequence + length self.old.opened) }
    {
        let alloc = *self.opened.allocator();
        let next = put_finished(&mut self.records, self.opened.as_slice(), totals, sequence)?;
        self.opened = Vec::new(alloc);
        self.first = None;
        Ok(next)
    }

    /// The index of the part, when no transaction is under way.
    pub(crate) fn into_index(self) -> PartIndex
        ensures { result ≡ index_of self }
    {
        let PartLine {
            changes,
            records,
            opened: _,
            first: _,
        } = self;
        PartIndex { changes, records }
    }
}

/// How many changes the last record has.
fn last_count(records: &[RecordPlace]) -> usize
    ensures { result ≡ last_count records.now }
{
    let count = records.len();
    if count == 0 {
        return 0;
    }
    records[count - 1].count
}

/// Gives the last record one change more.
fn one_more(records: &mut [RecordPlace])
    requires { last_count records.old < 32 }
    ensures { records.new ≡ one_more records.old }
{
    let count = records.len();
    if count == 0 {
        return;
    }
    records[count - 1].count += 1;
}

/// The record of one change, before it is known what its transaction has.
fn draft(first: usize, item: &Captured) -> RecordPlace
    ensures { draft_of first (item.now ∷ []) ≡ result ∷ [] }
{
    RecordPlace {
        stamp: item.change.stamp,
        first,
        count: 1,
        sequence: 0,
        is_last: false,
        records_in_tx: 0,
        parts_in_tx: 0,
    }
}

fn finished(place: &RecordPlace, totals: Totals, sequence: u32, is_last: bool) -> RecordPlace
    ensures { result ≡ finished_at (count_in totals) sequence is_last place.now }
{
    RecordPlace {
        stamp: place.stamp,
        first: place.first,
        count: place.count,
        sequence,
        is_last,
        records_in_tx: totals.records,
        parts_in_tx: totals.parts,
    }
}

/// The sequence behind this one; that there is none is want of memory.
fn behind(sequence: u32) -> Result<u32, Memory>
    ensures { IfOk result (λ next. next ≡ sequence + 1) }
{
    match sequence.checked_add(1) {
        Some(next) => Ok(next),
        None => Err(Memory),
    }
}

/// Puts the records of a whole transaction behind the others, and gives the next sequence.
fn put_finished(
    records: &mut Items<RecordPlace>,
    opened: &[RecordPlace],
    totals: Totals,
    sequence: u32,
) -> Result<u32, Memory>
    ensures records { OnOk result (records.new ≡ records.old ++ finished_all (count_in totals) sequence opened.now) }
    ensures next { IfOk result (λ next. next ≡ sequence + length opened.now) }
{
    let mut next = sequence;
    for index in 0..opened.len() {
        let is_last = index + 1 == opened.len();
        records.push(finished(&opened[index], totals, next, is_last))?;
        next = behind(next)?;
    }
    Ok(next)
}
