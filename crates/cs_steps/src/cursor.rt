ghost use Rattle.std.specs.Prelude.{◌≡◌, ◌≢◌, ◌∷◌, None, ◌+◌, ◌-◌, ◌<◌, ◌≤◌, ℕ, [], true, nat_le, length, slice_index_or, MatchOption};
ghost use Rattle.std.specs.Option.{OnSome};
ghost use Rattle.std.specs.List.Sorted.{IsNonDecreasingBy};
ghost use Rattle.cs_place.specs.Part.{IsBefore};
ghost use Rattle.cs_steps.specs.declared.places.RecordPlace.{RecordPlace};
ghost use Rattle.cs_steps.specs.Steps.{last_moment, has_ended, child_groups};
ghost use Rattle.cs_records.specs.declared.records.DataRecord.{DataRecord};
ghost use Rattle.cs_steps.specs.Cursor.{Source, IsAt, HasMore, HasNoMore, HaveStamps, steps_left, steps_from, closing_of, most_left, passed, beaten, Gives, IsCursor};

use crate::RecordPlace;
use cs_link::Closing;
use cs_types::Stamp;

/// The most data records and heartbeats of an answer.
const MOST: usize = 8192;

/// One step of an answer, by its place.
#[derive(Clone, Copy, Debug, PartialEq, Eq)]
pub enum StepPlace {
    /// The data record at this place among those of the part.
    Record(usize),
    Heartbeat(Stamp),
    /// The child record at this place among those of the answer.
    Children(usize),
    Closing(Closing),
}

/// How far the steps of an answer were given. It holds numbers alone, so that a READ which is not
/// read to its end costs no more than what was read of it.
#[derive(Clone, Copy, Debug)]
pub struct Cursor {
    /// The data records that are left, from `next` to below `end`, among those of the part.
    pub next: usize,
    pub end: usize,
    /// The last stamp that was given; the start at first.
    pub last: Stamp,
    /// The last moment of which the answer tells.
    pub top: Stamp,
    /// How far above the last stamp the next one has a heartbeat before it, in microseconds.
    pub gap: u64,
    /// How many data records and heartbeats may still be given.
    pub left: usize,
    /// How many child records were given, and how many there are.
    pub list: usize,
    pub lists: usize,
    /// How the answer ends; none where the end was given.
    pub closing: Option<Closing>,
}

/// When a READ reads, as its arguments and the present moment say.
#[derive(Clone, Copy, Debug)]
pub struct Span {
    /// The first moment that is read.
    pub start: Stamp,
    /// The last moment that is read.
    pub end: Stamp,
    /// The present moment.
    pub moment: Stamp,
    /// How far above the last stamp the next one has a heartbeat before it, in microseconds.
    pub gap: u64,
}

impl Span {
    /// The last moment of which the answer of a part that ends there tells.
    pub fn top(&self, until: Option<Stamp>) -> Stamp
        requires { IsBefore self.now.start until }
        ensures { result ≡ last_moment self.now.end self.now.moment until }
    {
        let least = if self.end <= self.moment {
            self.end
        } else {
            self.moment
        };
        let Some(until) = until else {
            return least;
        };
        if least < until {
            return least;
        }
        one_below(until, self.start)
    }

    /// Whether a part that ends there has ended by the end and by the present moment.
    pub fn has_ended(&self, until: Option<Stamp>) -> bool
        ensures { result ≡ has_ended self.now.end self.now.moment until }
    {
        match until {
            None => false,
            Some(until) => until <= self.end && until <= self.moment,
        }
    }

    /// How the answer of a part that ends there ends.
    pub fn closing(&self, until: Option<Stamp>) -> Closing
        ensures { result ≡ closing_of self.now.end self.now.moment until }
    {
        if self.has_ended(until) {
            return Closing::Finished;
        }
        if self.end <= self.moment {
            return Closing::Finished;
        }
        Closing::CaughtUp(self.moment)
    }
}

/// The number of records below a moment, in microseconds since 1970, among records whose stamps do
/// not fall. It takes no memory, and the time of a search.
fn count_below(records: &[RecordPlace], us: u64) -> usize
    requires { IsNonDecreasingBy (λ p. p.stamp) records.now }
    ensures within { result ≤ length records.now }
    ensures below { (k : ℕ) (d : RecordPlace) → k < result → (slice_index_or records.now k d).stamp < us }
    ensures above { (k : ℕ) (d : RecordPlace) → result ≤ k → k < length records.now → us ≤ (slice_index_or records.now k d).stamp }
{
    let mut low = 0;
    let mut high = records.len();
    while low < high {
        let middle = low + (high - low) / 2;
        if records[middle].stamp.us() < us {
            low = middle + 1;
        } else {
            high = middle;
        }
    }
    low
}

impl Cursor {
    /// The whole of an answer that reads these records, whose stamps do not fall, from a start to a
    /// last moment, lists so many child records, and ends so.
    pub fn over(
        records: &[RecordPlace],
        start: Stamp,
        top: Stamp,
        gap: u64,
        lists: usize,
        closing: Closing,
    ) -> Cursor
        requires window { start ≤ top }
        requires gap { 1 ≤ gap }
        requires order { IsNonDecreasingBy (λ p. p.stamp) records.now }
        ensures cursor { (s : Source) → HaveStamps records.now s.records → lists ≡ length (child_groups s.children) → IsCursor s result }
        ensures steps { (s : Source) → HaveStamps records.now s.records → lists ≡ length (child_groups s.children) → steps_left s result ≡ steps_from s gap top start closing }
        ensures within { result.end ≤ length records.now }
        ensures gap { result.gap ≡ gap }
    {
        let next = count_below(records, start.us());
        let end = count_below(records, top.us() + 1);
        Cursor {
            next,
            end,
            last: start,
            top,
            gap,
            left: MOST,
            list: 0,
            lists,
            closing: Some(closing),
        }
    }

    /// Whether a heartbeat is due before this stamp.
    fn is_late(&self, stamp: Stamp) -> bool
        ensures test { result ≡ nat_le (self.now.last + self.now.gap) stamp }
        ensures last { 1 ≤ self.now.last }
    {
        self.last <= stamp && stamp.us() - self.last.us() >= self.gap
    }

    /// Leaves nothing, since too many records stand there.
    fn cut(&mut self) -> StepPlace
        requires goes { self.old.closing ≢ None }
        ensures less { most_left self.new < most_left self.old }
        ensures kept { (self.new.end ≡ self.old.end) × (self.new.gap ≡ self.old.gap) }
        ensures gives { (s : Source) → IsCursor s self.old → self.old.left ≡ 0 → HasMore s self.old → Gives s self.old result self.new }
    {
        self.next = self.end;
        self.last = self.top;
        self.closing = None;
        StepPlace::Closing(Closing::Cut)
    }

    /// Passes the next data record.
    fn pass(&mut self, stamp: Stamp) -> StepPlace
        requires next { self.old.next < self.old.end }
        requires left { 0 < self.old.left }
        ensures place { result ≡ StepPlace.Record self.old.next }
        ensures cursor { self.new ≡ passed self.old stamp }
    {
        let place = self.next;
        self.next += 1;
        self.left -= 1;
        self.last = stamp;
        StepPlace::Record(place)
    }

    /// Gives a heartbeat that is due before a stamp.
    fn beat(&mut self, stamp: Stamp, at: Stamp) -> StepPlace
        requires left { 0 < self.old.left }
        ensures place { result ≡ StepPlace.Heartbeat at }
        ensures cursor { self.new ≡ beaten self.old stamp }
    {
        self.left -= 1;
        self.last = stamp;
        StepPlace::Heartbeat(at)
    }

    /// The next data record, or the heartbeat before it.
    fn next_record(&mut self, stamp: Stamp) -> StepPlace
        requires goes { self.old.closing ≢ None }
        requires next { self.old.next < self.old.end }
        requires gap { 1 ≤ self.old.gap }
        ensures less { most_left self.new < most_left self.old }
        ensures kept { (self.new.end ≡ self.old.end) × (self.new.gap ≡ self.old.gap) }
        ensures gives { (s : Source) (d : DataRecord) → IsCursor s self.old → IsAt s.records self.old.next d → stamp ≡ d.stamp → Gives s self.old result self.new }
    {
        if self.left == 0 {
            return self.cut();
        }
        if self.is_late(stamp) {
            return self.beat(stamp, one_below(stamp, self.last));
        }
        self.pass(stamp)
    }

    /// The heartbeat at the last moment.
    fn last_beat(&mut self) -> StepPlace
        requires goes { self.old.closing ≢ None }
        ensures less { most_left self.new < most_left self.old }
        ensures kept { (self.new.end ≡ self.old.end) × (self.new.gap ≡ self.old.gap) }
        ensures gives { (s : Source) → IsCursor s self.old → self.old.end ≤ self.old.next → nat_le (self.old.last + self.old.gap) self.old.top ≡ true → Gives s self.old result self.new }
    {
        if self.left == 0 {
            return self.cut();
        }
        self.beat(self.top, self.top)
    }

    /// The next child record, or the end.
    fn next_rest(&mut self) -> Option<StepPlace>
        ensures less { OnSome result (most_left self.new < most_left self.old) }
        ensures kept { (self.new.end ≡ self.old.end) × (self.new.gap ≡ self.old.gap) }
        ensures gives { (s : Source) → IsCursor s self.old → HasNoMore s self.old → MatchOption result (steps_left s self.old ≡ []) (λ place. Gives s self.old place self.new) }
    {
        let Some(closing) = self.closing else {
            return None;
        };
        if self.list < self.lists {
            let list = self.list;
            self.list += 1;
            return Some(StepPlace::Children(list));
        }
        self.closing = None;
        Some(StepPlace::Closing(closing))
    }

    /// The next step, by its place; None exactly where none is left. The records are those of the
    /// part. It takes no memory, and the time of a few comparisons.
    pub fn advance(&mut self, records: &[RecordPlace]) -> Option<StepPlace>
        requires within { self.old.end ≤ length records.now }
        requires gap { 1 ≤ self.old.gap }
        ensures less { OnSome result (most_left self.new < most_left self.old) }
        ensures kept { (self.new.end ≡ self.old.end) × (self.new.gap ≡ self.old.gap) }
        ensures gives { (s : Source) → IsCursor s self.old → HaveStamps records.now s.records → MatchOption result (steps_left s self.old ≡ []) (λ place. Gives s self.old place self.new) }
    {
        let Some(_closing) = self.closing else {
            return None;
        };
        if self.next < self.end {
            let stamp = records[self.next].stamp;
            return Some(self.next_record(stamp));
        }
        if self.is_late(self.top) {
            return Some(self.last_beat());
        }
        self.next_rest()
    }
}

/// The moment one microsecond below a stamp that is above another.
fn one_below(stamp: Stamp, other: Stamp) -> Stamp
    requires { other < stamp }
    ensures { result ≡ stamp - 1 }
{
    match Stamp::of(other.us().max(stamp.us() - 1)) {
        Some(below) => below,
        None => unreachable!(),
    }
}
