ghost use Rattle.std.specs.Prelude.{◌≡◌, ◌↔◌, ℕ, List, Some, None, map, string_bytes, slice_get, IfOk, IfErr, IsTrue, MatchOption};
ghost use Rattle.cs_types.specs.Stamp.{Spells};
ghost use Rattle.cs_words.specs.Words.{IsWindow, AreWindow, IsFaultIn, IsUpTo};

use crate::WordsFault;
use crate::numbers::is_name;
use cs_types::{Stamp, Text, Window, written_stamps_read_back};
use std::alloc::Global;

/// The window that all of these words name: a stream, a start and an end.
pub(crate) fn read_window(alloc: Global, words: &[String]) -> Result<Window, WordsFault>
    ensures read { IfOk result (IsWindow (map string_bytes words.now)) }
    ensures refused { IfErr result (IsFaultIn AreWindow (map string_bytes words.now)) }
    ensures near { IfErr result (IsUpTo 3) }
{
    written_stamps_read_back();
    let Some(stream) = word_at(words, 0) else {
        return Err(WordsFault::At(0));
    };
    if !is_name(stream.as_bytes()) {
        return Err(WordsFault::At(0));
    }
    let Some(start) = stamp_word(words, 1) else {
        return Err(WordsFault::At(1));
    };
    let Some(end) = stamp_word(words, 2) else {
        return Err(WordsFault::At(2));
    };
    if end.us() < start.us() {
        return Err(WordsFault::At(2));
    }
    if words.len() > 3 {
        return Err(WordsFault::At(3));
    }
    Ok(Window {
        stream: Text::of(alloc, stream)?,
        start,
        end,
    })
}

/// The word at a place, where there is one.
pub(crate) fn word_at(words: &[String], at: usize) -> Option<&str>
    ensures { MatchOption result (slice_get (map string_bytes words.now) at ≡ None)
        (λ word. slice_get (map string_bytes words.now) at ≡ Some word.now) }
{
    match words.get(at) {
        Some(word) => Some(word.as_str()),
        None => None,
    }
}

/// Whether the word at a place is this.
pub(crate) fn is_word(words: &[String], at: usize, text: &str) -> bool
    ensures { IsTrue result ↔ (slice_get (map string_bytes words.now) at ≡ Some text.now) }
{
    let Some(word) = word_at(words, at) else {
        return false;
    };
    word == text
}

/// The stamp that the word at a place spells.
pub(crate) fn stamp_word(words: &[String], at: usize) -> Option<Stamp>
    ensures { MatchOption result
        ((text : List ℕ) (s : ℕ) → slice_get (map string_bytes words.now) at ≡ Some text → Spells text s → ⊥)
        (λ s. (text : List ℕ) × (slice_get (map string_bytes words.now) at ≡ Some text) × Spells text s) }
{
    let word = word_at(words, at)?;
    stamp_of(word.as_bytes())
}

fn stamp_of(text: &[u8]) -> Option<Stamp>
    ensures { MatchOption result ((s : ℕ) → Spells text.now s → ⊥) (Spells text.now) }
{
    match Stamp::read(text) {
        Ok(stamp) => Some(stamp),
        Err(_) => None,
    }
}
