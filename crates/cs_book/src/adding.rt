//! What is written for an entry, made before anything is written.
ghost use Rattle.std.specs.Prelude.{◌≡◌, ◌≤◌, ◌<◌, IfOk, IfErr, IfSome, OnOk};
ghost use Rattle.cs_journal.specs.Rows.{limit};
ghost use Rattle.cs_journal.specs.State.{length_after};
ghost use Rattle.cs_schedule.specs.Spelling.{payload};
ghost use Rattle.cs_text.specs.Adding.{AreAdded};
ghost use Rattle.cs_book.specs.Adding.{IsAsBig};

use crate::fault::ReserveFault;
use cs_journal::{Framed, frame};
use cs_schedule::{Entry, Plan};
use cs_text::added_text;
use cs_types::Text;
use std::alloc::Global;

/// The most bytes that a journal may have.
const LIMIT: u64 = 268_435_456;

/// An entry's payload in its frame, what it adds to the output, and the first moment behind the last
/// watermark then.
#[derive(Debug, Drop)]
pub(crate) struct Addition {
    pub framed: Framed,
    pub text: Text,
    pub marked: u64,
}

/// What a batch makes of a book as it stands, with all the memory that `commit` needs.
#[derive(Debug, Drop)]
pub struct BookPlan {
    pub(crate) plan: Plan,
    pub(crate) addition: Option<Addition>,
    pub(crate) caught_up: bool,
}

/// How many bytes a journal has with an entry behind the gate at this place.
fn length_with(entry: &Entry, gate: u64) -> u64
    ensures { result ≡ length_after gate (payload entry.now) }
{
    gate.saturating_add(6).saturating_add(entry.size())
}

/// The payload of an entry in its frame, if it fits behind the gate at this place.
fn framed(alloc: Global, entry: &Entry, gate: u64) -> Result<Framed, ReserveFault>
    ensures bytes { IfOk result (λ f. f ≡ payload entry.now) }
    ensures fits { OnOk result (length_after gate (payload entry.now) ≤ limit) }
    ensures full { IfErr result (IsAsBig gate entry.now) }
{
    let length = length_with(entry, gate);
    if length > LIMIT {
        return Err(ReserveFault::Full(length));
    }
    let payload = entry.encode(alloc)?;
    Ok(frame(alloc, payload.as_slice())?)
}

/// What is written for an entry behind the gate at this place, where the low watermark then is this.
pub(crate) fn add(
    alloc: Global,
    entry: &Entry,
    gate: u64,
    marked: u64,
    mark: Option<u64>,
) -> Result<Addition, ReserveFault>
    requires range { IfSome mark (λ n. n ≤ 253402300799999999) }
    requires least { 1 ≤ marked }
    ensures framed { IfOk result (λ a. a.framed ≡ payload entry.now) }
    ensures fits { OnOk result (length_after gate (payload entry.now) ≤ limit) }
    ensures text { IfOk result (λ a. AreAdded entry.now marked mark a.text a.marked) }
    ensures least { IfOk result (λ a. 1 ≤ a.marked) }
    ensures full { IfErr result (IsAsBig gate entry.now) }
{
    let framed = framed(alloc, entry, gate)?;
    let (text, marked) = added_text(alloc, entry, marked, mark)?;
    Ok(Addition {
        framed,
        text,
        marked,
    })
}
