ghost use Rattle.std.specs.Prelude.{◌≡◌, ◌∷◌, ◌+◌, ◌*◌, ◌<◌, ◌≤◌, [], All, IfOk, length, take, drop};
ghost use Rattle.cs_link.specs.declared.reading.Step.{Step as AStep};
ghost use Rattle.cs_steps.specs.declared.places.RecordPlace.{RecordPlace};
ghost use Rattle.cs_steps.specs.Cursor.{Source, IsAt, IsStep};
ghost use Rattle.cs_steps.specs.Places.{StandFor, record_at};

use crate::places::record;
use crate::{RecordPlace, StepPlace};
use cs_link::Step;
use cs_records::{Captured, Child, ChildRecord, DataRecord, Record};
use cs_types::{Duplicate, Items, Memory, Stamp};
use std::alloc::Global;

/// The most children of a child record.
const CHILDREN: usize = 1024;

/// What an answer is made from: what the stream captured, the places of the changes of the part and
/// of its data records, and the children that are listed from a start on.
pub struct Material<'a> {
    pub captured: &'a [Captured],
    pub changes: &'a [usize],
    pub records: &'a [RecordPlace],
    pub start: Stamp,
    pub children: &'a [Child],
}

/// The step at a place. It takes time in the size of the step.
pub fn step(alloc: Global, from: &Material<'_>, place: &StepPlace) -> Result<Step, Memory>
    requires { (s : Source) × (x : AStep) × StandFor s from.now.captured.now from.now.changes.now from.now.records.now from.now.start from.now.children.now × IsStep s place.now x }
    ensures { (s : Source) (x : AStep) → StandFor s from.now.captured.now from.now.changes.now from.now.records.now from.now.start from.now.children.now → IsStep s place.now x → IfOk result (λ y. y ≡ x) }
{
    match place {
        StepPlace::Record(place) => {
            let item = data_record(alloc, from.captured, from.changes, from.records, *place)?;
            Ok(Step::Record(Record::Change(item)))
        }
        StepPlace::Heartbeat(at) => Ok(Step::Record(Record::Heartbeat(*at))),
        StepPlace::Children(place) => {
            let item = child_record(alloc, from.children, from.start, *place)?;
            Ok(Step::Record(Record::Children(item)))
        }
        StepPlace::Closing(closing) => Ok(Step::Closing(*closing)),
    }
}

fn data_record(
    alloc: Global,
    captured: &[Captured],
    changes: &[usize],
    records: &[RecordPlace],
    place: usize,
) -> Result<DataRecord, Memory>
    requires inside { place < length records.now }
    requires some { All (λ p. 0 < p.count) records.now }
    requires within { All (λ p. p.first + p.count ≤ length changes.now) records.now }
    requires there { All (λ k. k < length captured.now) changes.now }
    ensures { (p : RecordPlace) → IsAt records.now place p → IfOk result (λ d. record_at captured.now changes.now p ≡ d ∷ []) }
{
    record(alloc, captured, changes, &records[place])
}

/// The child record at a place among those of an answer whose children these are, from a start on.
pub fn child_record(
    alloc: Global,
    children: &[Child],
    start: Stamp,
    place: usize,
) -> Result<ChildRecord, Memory>
    requires within { 1024 * place ≤ length children.now }
    requires sequence { place < 8192 }
    ensures { IfOk result (λ r. r ≡ record { start = start; sequence = place; children = take 1024 (drop (1024 * place) children.now) }) }
{
    let behind = children.split_at(CHILDREN * place).1;
    let count = behind.len().min(CHILDREN);
    Ok(ChildRecord {
        start,
        sequence: place as u32,
        children: copied(alloc, behind.split_at(count).0)?,
    })
}

fn copied(alloc: Global, children: &[Child]) -> Result<Items<Child>, Memory>
    ensures { IfOk result (λ l. l ≡ children.now) }
{
    let mut list = Items::new(alloc);
    for child in children {
        list.push(child.copy()?)?;
    }
    Ok(list)
}
