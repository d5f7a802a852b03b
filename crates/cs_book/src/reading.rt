//! The entries that a journal holds, and what they tell.
ghost use Rattle.std.specs.Prelude.{◌≡◌, ◌≤◌, ◌++◌, [], ◌∷◌, List, true, false, IfOk};
ghost use Rattle.cs_schedule.specs.declared.entry.Entry.{Entry as TheEntry};
ghost use Rattle.cs_schedule.specs.declared.entry.Entry.TheVariants.{Begin};
ghost use Rattle.cs_schedule.specs.Rows.{Folds};
ghost use Rattle.cs_schedule.specs.Spelling.{IsInFormat, Spells};
ghost use Rattle.cs_book.specs.Reading.{IsTold, IsMore, IsBegunBy, IsFound};

use crate::found::Found;
use cs_journal::Stored;
use cs_output::OutputText;
use cs_schedule::{Board, Entry, journals_stay_consistent};
use cs_text::{Telling, tell_on, texts_are_by_entries};
use cs_types::{Memory, Window};
use std::alloc::Global;

/// What a journal tells that begins a window.
pub(crate) fn begin_telling(alloc: Global, window: &Window) -> Result<Telling, Memory>
    requires { IsInFormat (Begin window.now) }
    ensures window { IfOk result (λ t. t.board.window ≡ window.now) }
    ensures told { IfOk result (λ t. IsTold t (Begin window.now ∷ [])) }
{
    texts_are_by_entries();
    Ok(Telling {
        board: Board::begin(alloc, window)?,
        lines: OutputText::new(alloc),
        marked: window.start.us(),
    })
}

/// Tells one entry more; false where it may not follow.
fn tell_more(alloc: Global, telling: &mut Telling, entry: &Entry) -> Result<bool, Memory>
    requires least { 1 ≤ telling.old.marked }
    requires in_format { IsInFormat entry.now }
    ensures told { IfOk result (λ fits. fits ≡ true → (es : List TheEntry) → IsTold telling.old es → IsTold telling.new (es ++ entry.now ∷ [])) }
    ensures refused { IfOk result (λ fits. fits ≡ false → (es : List TheEntry) → IsTold telling.old es → Folds telling.old.board.window (es ++ entry.now ∷ []) → ⊥) }
{
    journals_stay_consistent();
    let _start = telling.board.window().start.us();
    let _rows = telling.board.rows();
    tell_on(alloc, telling, entry)
}

/// Tells the entry of a payload; false where it is of none, or of one that may not follow.
fn read_more(alloc: Global, telling: &mut Telling, payload: &[u8]) -> Result<bool, Memory>
    requires { 1 ≤ telling.old.marked }
    ensures told { IfOk result (λ fits. fits ≡ true → (es : List TheEntry) → IsTold telling.old es → IsMore telling.old telling.new payload.now es) }
    ensures refused { IfOk result (λ fits. fits ≡ false → (es : List TheEntry) → IsTold telling.old es → (e : TheEntry) → Spells payload.now e → Folds telling.old.board.window (es ++ e ∷ []) → ⊥) }
{
    let Some(entry) = Entry::decode(alloc, payload)? else {
        return Ok(false);
    };
    tell_more(alloc, telling, &entry)
}

/// The window that the first payload begins.
fn begun_by(alloc: Global, payload: &[u8]) -> Result<Option<Window>, Memory>
    ensures { IfOk result (IsBegunBy payload.now) }
{
    match Entry::decode(alloc, payload)? {
        Some(Entry::Begin(window)) => Ok(Some(window)),
        Some(Entry::Opened(_)) => Ok(None),
        Some(Entry::Progress { .. }) => Ok(None),
        Some(Entry::Finished { .. }) => Ok(None),
        None => Ok(None),
    }
}

/// What payloads stand for.
pub(crate) fn read_all(alloc: Global, stored: &[Stored]) -> Result<Found, Memory>
    ensures { IfOk result (IsFound stored.now) }
{
    let [first, rest @ ..] = stored else {
        return Ok(Found::Nothing);
    };
    let Some(window) = begun_by(alloc, first.payload.as_slice())? else {
        return Ok(Found::Bad(first.gate));
    };
    let mut telling = begin_telling(alloc, &window)?;
    let mut rest = rest;
    'following: while let [next, after @ ..] = rest {
        if !read_more(alloc, &mut telling, next.payload.as_slice())? {
            return Ok(Found::Bad(next.gate));
        }
        rest = after;
    }
    Ok(Found::Whole(telling))
}
