ghost use Rattle.std.specs.Prelude.{◌≡◌, IfOk, Contains};
ghost use Rattle.cs_schedule.specs.declared.entry.Entry.{Entry as TheEntry};
ghost use Rattle.cs_schedule.specs.Fold.{DoFold};
ghost use Rattle.cs_schedule.specs.Rows.{Folds};
ghost use Rattle.cs_schedule.specs.Spelling.{IsInFormat};
ghost use Rattle.cs_types.specs.declared.names.Window.{Window};
ghost use Rattle.cs_text.specs.Output.{output_of};

use crate::telling::{Telling, tell_on};
use cs_output::OutputText;
use cs_schedule::{Board, Entry};
use cs_types::{Memory, Text};
use std::alloc::Global;

/// The text of the output of entries that fold: entry by entry the lines of its changes, and behind
/// them that of the watermark where it rose above the last one written. Before the first, that
/// counts as the moment before the window's start. It takes time in the size of the entries, times
/// a logarithm.
pub fn text_of(alloc: Global, entries: &[Entry]) -> Result<Text, Memory>
    requires format { (e : TheEntry) → Contains entries.now e → IsInFormat e }
    requires fold { DoFold entries.now }
    ensures { (w : Window) → Folds w entries.now → IfOk result (λ text. text ≡ output_of w entries.now) }
{
    if entries.is_empty() {
        return Text::of(alloc, "");
    }
    let Entry::Begin(window) = &entries[0] else {
        unreachable!();
    };
    let mut telling = Telling {
        board: Board::begin(alloc, window)?,
        lines: OutputText::new(alloc),
        marked: window.start.us(),
    };
    for place in 1..entries.len() {
        if !tell_on(alloc, &mut telling, &entries[place])? {
            unreachable!();
        }
    }
    telling.lines.into_text()
}
