//! What one entry more adds to an output.
ghost use Rattle.std.specs.Prelude.{◌≡◌, ◌≤◌, ◌++◌, [], ◌∷◌, List, map, true, false, IfOk, IfSome, OnOk};
ghost use Rattle.cs_output.specs.Output.{of_change, of_watermark, text_of_lines};
ghost use Rattle.cs_schedule.specs.declared.entry.Entry.{Entry as TheEntry};
ghost use Rattle.cs_schedule.specs.Rows.{changes_in, low_watermark, Folds};
ghost use Rattle.cs_schedule.specs.Spelling.{IsInFormat};
ghost use Rattle.cs_text.specs.Adding.{mark_lines, mark_now, Tells, AreAdded};

use cs_output::OutputText;
use cs_schedule::{Board, Entry, boards_are_of_entries};
use cs_types::{Change, Memory, Stamp, Text};
use std::alloc::Global;

/// The board of entries, their lines, and the first moment behind the last watermark.
#[derive(Debug, Drop)]
pub struct Telling {
    pub board: Board,
    pub lines: OutputText,
    pub marked: u64,
}

/// The changes of an entry.
fn changes_of(entry: &Entry) -> &[Change]
    ensures { result.now ≡ changes_in entry.now }
{
    match entry {
        Entry::Begin(_) | Entry::Opened(_) => &[],
        Entry::Progress { changes, .. } | Entry::Finished { changes, .. } => changes.as_slice(),
    }
}

/// Adds the lines of changes.
fn add_changes(lines: &mut OutputText, changes: &[Change]) -> Result<(), Memory>
    ensures { OnOk result (lines.new ≡ lines.old ++ text_of_lines (map of_change changes.now)) }
{
    let mut rest = changes;
    'changes: while let [first, after @ ..] = rest {
        lines.add_change(first)?;
        rest = after;
    }
    Ok(())
}

/// Adds the line of the watermark of a moment.
fn add_watermark(lines: &mut OutputText, at: u64) -> Result<(), Memory>
    requires { (1 ≤ at) × (at ≤ 253402300799999999) }
    ensures { OnOk result (lines.new ≡ lines.old ++ text_of_lines (of_watermark at ∷ [])) }
{
    let Some(stamp) = Stamp::of(at) else {
        unreachable!();
    };
    lines.add_watermark(stamp)
}

/// Adds the line of a watermark that is not below the moment that is marked, and gives the moment
/// that then is.
fn add_mark(lines: &mut OutputText, marked: u64, mark: Option<u64>) -> Result<u64, Memory>
    requires range { IfSome mark (λ n. n ≤ 253402300799999999) }
    requires least { 1 ≤ marked }
    ensures lines { OnOk result (lines.new ≡ lines.old ++ text_of_lines (mark_lines marked mark)) }
    ensures now { IfOk result (λ now. now ≡ mark_now marked mark) }
{
    let Some(at) = mark else {
        return Ok(marked);
    };
    if at < marked {
        return Ok(marked);
    }
    add_watermark(lines, at)?;
    Ok(at + 1)
}

/// Adds the lines of an entry, and of the watermark that then is, and gives the moment that is
/// marked.
fn add_lines(
    lines: &mut OutputText,
    entry: &Entry,
    marked: u64,
    mark: Option<u64>,
) -> Result<u64, Memory>
    requires range { IfSome mark (λ n. n ≤ 253402300799999999) }
    requires least { 1 ≤ marked }
    ensures lines { OnOk result (lines.new ≡ lines.old ++ (text_of_lines (map of_change (changes_in entry.now)) ++ text_of_lines (mark_lines marked mark))) }
    ensures now { IfOk result (λ now. now ≡ mark_now marked mark) }
{
    add_changes(lines, changes_of(entry))?;
    add_mark(lines, marked, mark)
}

/// The low watermark of a board.
fn mark_of(board: &Board) -> Option<u64>
    ensures range { IfSome result (λ n. n ≤ 253402300799999999) }
    ensures mark { result ≡ low_watermark board.now.window.end board.now.rows }
{
    boards_are_of_entries();
    let _end = board.window().end.us();
    board.watermark()
}

/// What one entry more adds to an output: the lines of its changes, and that of the watermark where
/// it then has risen. It gives the text, and the first moment behind the last watermark then.
pub fn added_text(
    alloc: Global,
    entry: &Entry,
    marked: u64,
    mark: Option<u64>,
) -> Result<(Text, u64), Memory>
    requires range { IfSome mark (λ n. n ≤ 253402300799999999) }
    requires least { 1 ≤ marked }
    ensures added { IfOk result (λ r. AreAdded entry.now marked mark r.0 r.1) }
    ensures least { IfOk result (λ r. 1 ≤ r.1) }
{
    let mut lines = OutputText::new(alloc);
    let marked = add_lines(&mut lines, entry, marked, mark)?;
    let text = lines.into_text()?;
    Ok((text, marked))
}

/// Tells one entry more; false where it may not follow.
pub fn tell_on(alloc: Global, telling: &mut Telling, entry: &Entry) -> Result<bool, Memory>
    requires least { 1 ≤ telling.old.marked }
    requires in_format { IsInFormat entry.now }
    ensures least { IfOk result (λ _. 1 ≤ telling.new.marked) }
    ensures window { telling.new.board.window ≡ telling.old.board.window }
    ensures tells { IfOk result (λ fits. fits ≡ true → (es : List TheEntry) → Tells telling.old.board telling.old.marked telling.old.lines es → Tells telling.new.board telling.new.marked telling.new.lines (es ++ entry.now ∷ [])) }
    ensures refused { IfOk result (λ fits. fits ≡ false → (es : List TheEntry) → Tells telling.old.board telling.old.marked telling.old.lines es → Folds telling.old.board.window (es ++ entry.now ∷ []) → ⊥) }
{
    boards_are_of_entries();
    if !telling.board.fold_entry(alloc, entry)? {
        return Ok(false);
    }
    let mark = mark_of(&telling.board);
    telling.marked = add_lines(&mut telling.lines, entry, telling.marked, mark)?;
    Ok(true)
}
