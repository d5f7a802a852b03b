// What is looked up of the wanted changes.
ghost use Rattle.std.specs.Prelude.{◌≡◌, IfOk, length};
ghost use Rattle.std.specs.List.Sorted.{IsNonDecreasingBy};
ghost use Rattle.cs_audit.specs.Index.{DifferInLines, ArePlaces, ArePrevious, AreEntries, IsIndex};

use cs_output::line_of;
use cs_types::{Change, Duplicate, Memory, RowName, Text};
use std::alloc::Global;
use std::collections::BTreeMap;

/// Where wanted changes stand in their list.
#[derive(Drop)]
pub(crate) struct Index {
    /// The place of the change that has a line.
    pub places: BTreeMap<Text, usize>,
    /// For the place of each change, that of the last change before it that has its row.
    pub previous: Vec<Option<usize>>,
    /// The stamp and the place of each change, by stamp.
    pub by_stamp: Vec<(u64, usize)>,
}

/// The index of wanted changes.
pub(crate) fn index_of(alloc: Global, wanted: &[Change]) -> Result<Index, Memory>
    requires { DifferInLines wanted.now }
    ensures { IfOk result (λ index. IsIndex index wanted.now) }
{
    Ok(Index {
        places: places_of(alloc, wanted)?,
        previous: previous_of(alloc, wanted)?,
        by_stamp: by_stamp_of(alloc, wanted)?,
    })
}

fn places_of(alloc: Global, wanted: &[Change]) -> Result<BTreeMap<Text, usize>, Memory>
    requires { DifferInLines wanted.now }
    ensures { IfOk result (λ places. ArePlaces places wanted.now (length wanted.now)) }
{
    let mut places = BTreeMap::new(alloc);
    for (place, change) in wanted.iter().enumerate() {
        let line = line_of(alloc, change)?;
        places.insert(line, place)?;
    }
    Ok(places)
}

fn previous_of(alloc: Global, wanted: &[Change]) -> Result<Vec<Option<usize>>, Memory>
    ensures { IfOk result (λ previous. ArePrevious previous.items wanted.now (length wanted.now)) }
{
    let mut latest: BTreeMap<RowName, usize> = BTreeMap::new(alloc);
    let mut previous = Vec::new(alloc);
    for (place, change) in wanted.iter().enumerate() {
        let row = change.row.copy()?;
        let before = latest.insert(row, place)?;
        previous.push(before)?;
    }
    Ok(previous)
}

fn by_stamp_of(alloc: Global, wanted: &[Change]) -> Result<Vec<(u64, usize)>, Memory>
    ensures entries { IfOk result (λ entries. AreEntries entries.items wanted.now (length wanted.now)) }
    ensures in_order { IfOk result (λ entries. IsNonDecreasingBy (λ e. e.0) entries.items) }
{
    let mut entries = entries_of(alloc, wanted)?;
    entries.sort_unstable_by_key(|entry| entry.0);
    Ok(entries)
}

fn entries_of(alloc: Global, wanted: &[Change]) -> Result<Vec<(u64, usize)>, Memory>
    ensures { IfOk result (λ entries. AreEntries entries.items wanted.now (length wanted.now)) }
{
    let mut entries = Vec::new(alloc);
    for (place, change) in wanted.iter().enumerate() {
        entries.push((change.stamp.us(), place))?;
    }
    Ok(entries)
}
