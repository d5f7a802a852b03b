// What is kept of the lines so far, and whether the next one is an offence.
ghost use Rattle.std.specs.Prelude.{◌≡◌, ◌≤◌, ◌<◌, ◌∷◌, ◌++◌, ◌↔◌, [], ℕ, List, All, true, false, None, length, slice_index_or, IfOk, IsTrue, MatchOption};
ghost use Rattle.std.specs.List.Sorted.{IsNonDecreasingBy};
ghost use Rattle.std.specs.Ordering.{nat_cmp};
ghost use Rattle.std.specs.Cmp.Lexicographic.{slice_cmp};
ghost use Rattle.std.specs.BTreeMap.{get};
ghost use Rattle.cs_audit.specs.Audit.{IsAbove};
ghost use Rattle.cs_audit.specs.Index.{DifferInLines, ArePrevious, AreEntries, IsIndex, IsKept, IsOffence, AreCovered, IsFirstAbsent, NoneIsAbsent, IsFree};
ghost use Rattle.cs_audit.specs.declared.index.Index.{Index};
ghost use Rattle.cs_output.specs.declared.reading.Line.{Line};

use crate::index::Index;
use cs_output::Line;
use cs_types::{Change, Memory, Stamp, Text};
use std::alloc::Global;

/// What is kept of lines without offence.
#[derive(Drop)]
pub(crate) struct Seen {
    /// For the place of each wanted change, whether it stands.
    pub stands: Vec<bool>,
    /// So many changes stand, the first ones by stamp.
    pub covered: usize,
    /// The last watermark.
    pub last: Option<Stamp>,
}

/// What a line does wrong.
#[derive(Clone, Copy)]
pub(crate) enum Offence {
    Extra,
    OutOfOrder,
    /// The place of the missing change.
    WatermarkEarly(usize),
    WatermarkBack,
}

/// Before the first line.
pub(crate) fn nothing_seen(alloc: Global, wanted: &[Change]) -> Result<Seen, Memory>
    ensures kept { (index : Index) (end : ℕ) → IfOk result (λ seen. IsKept seen index [] wanted.now end) }
    ensures covered { IfOk result (λ seen. seen.covered ≡ 0) }
{
    Ok(Seen {
        stands: vec![in alloc; false; wanted.len()]?,
        covered: 0,
        last: None,
    })
}

impl Seen {
    /// Takes the next line, unless it is an offence.
    pub fn take(
        &mut self,
        index: &Index,
        wanted: &[Change],
        end: Stamp,
        line: &Line,
    ) -> Option<Offence>
        requires index { IsIndex index.now wanted.now }
        requires apart { DifferInLines wanted.now }
        requires count { length self.old.stands.items ≡ length wanted.now }
        requires covered { self.old.covered ≤ length index.now.by_stamp.items }
        ensures count { length self.new.stands.items ≡ length wanted.now }
        ensures covered { self.new.covered ≤ length index.now.by_stamp.items }
        ensures next { (before : List Line) → IsKept self.old index.now before wanted.now end → MatchOption result (IsKept self.new index.now (before ++ line.now ∷ []) wanted.now end) (λ o. IsOffence o before wanted.now end line.now) }
    {
        match line {
            Line::Change(text) => self.take_change(index, wanted, text),
            Line::Watermark(at) => self.take_watermark(index, wanted, end, *at),
        }
    }

    fn take_change(&mut self, index: &Index, wanted: &[Change], text: &Text) -> Option<Offence>
        requires index { IsIndex index.now wanted.now }
        requires apart { DifferInLines wanted.now }
        requires count { length self.old.stands.items ≡ length wanted.now }
        requires covered { self.old.covered ≤ length index.now.by_stamp.items }
        ensures count { length self.new.stands.items ≡ length wanted.now }
        ensures covered { self.new.covered ≤ length index.now.by_stamp.items }
        ensures next { (before : List Line) (end : ℕ) → IsKept self.old index.now before wanted.now end → MatchOption result (IsKept self.new index.now (before ++ Line.Change text.now ∷ []) wanted.now end) (λ o. IsOffence o before wanted.now end (Line.Change text.now)) }
    {
        let Some(place) = place_of(index, text) else {
            return Some(Offence::Extra);
        };
        prove!(place < wanted.len());
        if !is_next(index, wanted, &self.stands, place) {
            return Some(Offence::OutOfOrder);
        }
        self.stands[place] = true;
        None
    }

    fn take_watermark(
        &mut self,
        index: &Index,
        wanted: &[Change],
        end: Stamp,
        at: Stamp,
    ) -> Option<Offence>
        requires index { IsIndex index.now wanted.now }
        requires count { length self.old.stands.items ≡ length wanted.now }
        requires covered { self.old.covered ≤ length index.now.by_stamp.items }
        ensures count { length self.new.stands.items ≡ length wanted.now }
        ensures covered { self.new.covered ≤ length index.now.by_stamp.items }
        ensures next { (before : List Line) → IsKept self.old index.now before wanted.now end → MatchOption result (IsKept self.new index.now (before ++ Line.Watermark at ∷ []) wanted.now end) (λ o. IsOffence o before wanted.now end (Line.Watermark at)) }
    {
        self.covered = cover(&self.stands, &index.by_stamp, self.covered);
        if let Some(place) = missing(&self.stands, &index.by_stamp, self.covered, wanted, at) {
            return Some(Offence::WatermarkEarly(place));
        }
        if !is_above(at, self.last) {
            return Some(Offence::WatermarkBack);
        }
        if end.us() < at.us() {
            return Some(Offence::WatermarkBack);
        }
        self.last = Some(at);
        None
    }
}

/// The place of the wanted change that has the line.
fn place_of(index: &Index, text: &Text) -> Option<usize>
    ensures { result ≡ get (slice_cmp nat_cmp) index.now.places text.now }
{
    index.places.get(text).copied()
}

/// Whether the change at the place may stand next of its row.
fn is_next(index: &Index, wanted: &[Change], stands: &[bool], place: usize) -> bool
    requires previous { ArePrevious index.now.previous.items wanted.now (length wanted.now) }
    requires count { length stands.now ≡ length wanted.now }
    requires within { place < length wanted.now }
    ensures { IsTrue result ↔ IsFree stands.now place (slice_index_or index.now.previous.items place None) }
{
    if stands[place] {
        return false;
    }
    match index.previous[place] {
        None => true,
        Some(before) => {
            prove!(before < wanted.len());
            stands[before]
        }
    }
}

/// How many entries are those of changes that stand, the first ones, of which so many are known.
fn cover(stands: &[bool], entries: &[(u64, usize)], known: usize) -> usize
    requires within { All (λ e. e.1 < length stands.now) entries.now }
    requires known { known ≤ length entries.now }
    ensures within { result ≤ length entries.now }
    ensures covered { AreCovered stands.now entries.now known → AreCovered stands.now entries.now result }
{
    let mut covered = known;
    while covered < entries.len() {
        let place = entries[covered].1;
        if !stands[place] {
            return covered;
        }
        covered += 1;
    }
    covered
}

/// The place of the first change up to a moment that does not stand.
fn missing(
    stands: &[bool],
    entries: &[(u64, usize)],
    covered: usize,
    wanted: &[Change],
    at: Stamp,
) -> Option<usize>
    requires count { length stands.now ≡ length wanted.now }
    requires entries { AreEntries entries.now wanted.now (length wanted.now) }
    requires in_order { IsNonDecreasingBy (λ e. e.0) entries.now }
    ensures { AreCovered stands.now entries.now covered → MatchOption result (NoneIsAbsent stands.now wanted.now at) (λ p. IsFirstAbsent stands.now wanted.now at p) }
{
    if !may_miss(entries, covered, at) {
        return None;
    }
    first_absent(stands, wanted, at)
}

/// Whether the next entry is one up to a moment.
fn may_miss(entries: &[(u64, usize)], covered: usize, at: Stamp) -> bool
    ensures { result ≡ false → (d : ℕ × ℕ) → covered < length entries.now → at < (slice_index_or entries.now covered d).0 }
{
    if covered < entries.len() {
        return entries[covered].0 <= at.us();
    }
    false
}

fn first_absent(stands: &[bool], wanted: &[Change], at: Stamp) -> Option<usize>
    requires { length stands.now ≡ length wanted.now }
    ensures { MatchOption result (NoneIsAbsent stands.now wanted.now at) (λ p. IsFirstAbsent stands.now wanted.now at p) }
{
    for (place, change) in wanted.iter().enumerate() {
        if change.stamp.us() <= at.us() {
            if !stands[place] {
                return Some(place);
            }
        }
    }
    None
}

fn is_above(at: Stamp, last: Option<Stamp>) -> bool
    ensures { IsTrue result ↔ IsAbove at last }
{
    match last {
        None => true,
        Some(last) => last.us() < at.us(),
    }
}

/// Whether each wanted change stands.
pub(crate) fn has_all(stands: &[bool]) -> bool
    ensures { IsTrue result ↔ All (λ there. there ≡ true) stands.now }
{
    stands.iter().all(|there| *there)
}
