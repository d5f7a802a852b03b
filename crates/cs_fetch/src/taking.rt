ghost use Rattle.std.specs.Prelude.{◌≡◌, [], None, Some, IfOk, OnOk, MatchResult};
ghost use Rattle.cs_records.specs.Told.{changes_told};
ghost use Rattle.cs_records.specs.declared.records.Record.{Record};
ghost use Rattle.cs_link.specs.declared.batch.Known.{Known};
ghost use Rattle.cs_fetch.specs.Breach.{unsound, record_breach};
ghost use Rattle.cs_fetch.specs.SoFar.{with_data, with_beat, with_list, so_far, adds, with_record};
ghost use Rattle.cs_fetch.specs.Taking.{taken_of};

use crate::children::{children_breach, list_all, too_many};
use crate::judging::{beat_breach, count_at, stamp_breach, start_breach};
use crate::kept::{Kept, SeenSet};
use crate::listing::Listing;
use crate::so_far::{Marks, SoFar};
use crate::taken::Taken;
use cs_link::{Breach, Known, ReadArgs};
use cs_records::{ChildRecord, DataRecord, Record, RecordFault, changes_of};
use cs_types::{Change, Items, Memory, Stamp};
use std::alloc::Global;

/// The most child records of one READ that can add something.
const MOST_LISTS: u64 = 8192;

impl Marks {
    /// After one more data record.
    fn with_data(&self, stamp: Stamp) -> Marks
        ensures { result ≡ with_data self.now stamp }
    {
        Marks {
            last: Some(stamp),
            at_last: count_at(self, stamp).saturating_add(1),
            beat: self.beat,
            listed: self.listed,
            records: self.records.saturating_add(1),
            lists: self.lists,
            through: self.through.max(stamp.us() - 1),
        }
    }

    /// After one more heartbeat.
    fn with_beat(&self, at: Stamp) -> Marks
        ensures { result ≡ with_beat self.now at }
    {
        Marks {
            last: self.last,
            at_last: self.at_last,
            beat: Some(at),
            listed: self.listed,
            records: self.records.saturating_add(1),
            lists: self.lists,
            through: self.through.max(at.us()),
        }
    }

    /// After one more child record.
    fn with_list(&self, start: Stamp) -> Marks
        ensures { result ≡ with_list self.now start }
    {
        Marks {
            last: self.last,
            at_last: self.at_last,
            beat: self.beat,
            listed: self.listed.or(Some(start)),
            records: self.records.saturating_add(1),
            lists: self.lists.saturating_add(1),
            through: self.through,
        }
    }
}

/// The changes of a data record, or that it tells none.
fn told(
    alloc: Global,
    number: u64,
    item: &DataRecord,
) -> Result<Result<Items<Change>, Breach>, Memory>
    ensures { IfOk result (λ told. MatchResult told (λ changes. (unsound number item.now ≡ None) × (changes ≡ changes_told item.now)) (λ breach. unsound number item.now ≡ Some breach)) }
{
    match changes_of(alloc, item) {
        Ok(changes) => Ok(Ok(changes)),
        Err(RecordFault::KeyMissing(column)) => {
            let fault = RecordFault::KeyMissing(column);
            Ok(Err(Breach::BadRecord(number, fault)))
        }
        Err(RecordFault::KeyTwice(row)) => {
            let fault = RecordFault::KeyTwice(row);
            Ok(Err(Breach::BadRecord(number, fault)))
        }
        Err(RecordFault::Memory) => Err(Memory),
    }
}

impl SoFar {
    /// Before the first step. It takes no memory.
    pub(crate) fn new(alloc: Global, known: &Known) -> SoFar
        ensures { result ≡ so_far known.now [] }
    {
        SoFar {
            marks: Marks {
                last: None,
                at_last: 0,
                beat: None,
                listed: None,
                records: 0,
                lists: 0,
                through: known.through,
            },
            changes: Kept::new(alloc),
            children: Listing::new(alloc),
        }
    }

    /// Takes one more record, unless no server may answer it.
    pub(crate) fn take(
        &mut self,
        alloc: Global,
        args: &ReadArgs,
        known: &Known,
        seen: &SeenSet,
        item: &Record,
    ) -> Result<Taken, Memory>
        requires { seen.now ≡ known.now.seen }
        ensures taken { IfOk result (λ taken. taken ≡ taken_of (record_breach args.now self.old item.now) (adds known.now self.old item.now)) }
        ensures so_far { OnOk result (record_breach args.now self.old item.now ≡ None → self.new ≡ with_record known.now self.old item.now) }
    {
        match item {
            Record::Change(item) => self.take_data(alloc, args, known, seen, item),
            Record::Heartbeat(at) => Ok(self.take_beat(args, *at)),
            Record::Children(item) => self.take_list(args, item),
        }
    }

    fn take_data(
        &mut self,
        alloc: Global,
        args: &ReadArgs,
        known: &Known,
        seen: &SeenSet,
        item: &DataRecord,
    ) -> Result<Taken, Memory>
        requires { seen.now ≡ known.now.seen }
        ensures taken { IfOk result (λ taken. taken ≡ taken_of (record_breach args.now self.old (Record.Change item.now)) (adds known.now self.old (Record.Change item.now))) }
        ensures so_far { OnOk result (record_breach args.now self.old (Record.Change item.now) ≡ None → self.new ≡ with_record known.now self.old (Record.Change item.now)) }
    {
        if let Some(breach) = stamp_breach(args, &self.marks, item.stamp) {
            return Ok(Taken::Breaks(breach));
        }
        let number = self.marks.records.saturating_add(1);
        let changes = match told(alloc, number, item)? {
            Ok(changes) => changes,
            Err(breach) => return Ok(Taken::Breaks(breach)),
        };
        let new = self.changes.add_all(known, seen, changes.as_slice())?;
        let adds = new || self.marks.through < item.stamp.us() - 1;
        self.marks = self.marks.with_data(item.stamp);
        Ok(Taken::Took(adds))
    }

    fn take_beat(&mut self, args: &ReadArgs, at: Stamp) -> Taken
        ensures taken { (known : Known) → result ≡ taken_of (record_breach args.now self.old (Record.Heartbeat at)) (adds known self.old (Record.Heartbeat at)) }
        ensures so_far { (known : Known) → record_breach args.now self.old (Record.Heartbeat at) ≡ None → self.new ≡ with_record known self.old (Record.Heartbeat at) }
    {
        if let Some(breach) = beat_breach(args, &self.marks, at) {
            return Taken::Breaks(breach);
        }
        let adds = self.marks.through < at.us();
        self.marks = self.marks.with_beat(at);
        Taken::Took(adds)
    }

    fn take_list(&mut self, args: &ReadArgs, item: &ChildRecord) -> Result<Taken, Memory>
        ensures taken { (known : Known) → IfOk result (λ taken. taken ≡ taken_of (record_breach args.now self.old (Record.Children item.now)) (adds known self.old (Record.Children item.now))) }
        ensures so_far { (known : Known) → OnOk result (record_breach args.now self.old (Record.Children item.now) ≡ None → self.new ≡ with_record known self.old (Record.Children item.now)) }
    {
        if let Some(breach) = start_breach(args, &self.marks, item.start) {
            return Ok(Taken::Breaks(breach));
        }
        let all = list_all(&mut self.children, item.start, item.children.as_slice())?;
        if let Some(breach) = children_breach(
            &args.token,
            all.differing,
            item.children.as_slice(),
        )? {
            return Ok(Taken::Breaks(breach));
        }
        if let Some(breach) = too_many(self.children.as_slice()) {
            return Ok(Taken::Breaks(breach));
        }
        let adds = all.some && self.marks.lists < MOST_LISTS;
        self.marks = self.marks.with_list(item.start);
        Ok(Taken::Took(adds))
    }
}
