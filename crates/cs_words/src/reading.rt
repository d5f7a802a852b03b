ghost use Rattle.std.specs.Prelude.{◌≡◌, ◌≤◌, length, drop, take, ℕ, List, MatchOption, Some, map, string_bytes, slice_get, codes, IfOk, IfErr};
ghost use Rattle.cs_generator.specs.Generated.{IsSize};
ghost use Rattle.cs_words.specs.Numbers.{number_reading};
ghost use Rattle.cs_words.specs.Words.{IsCommand, IsWordsFault};

use crate::numbers::number_of;
use crate::options::read_options;
use crate::query::query_word;
use crate::window::{is_word, read_window, stamp_word, word_at};
use crate::{Command, WordsFault};
use cs_generator::is_size;
use cs_types::{Text, Window, written_stamps_read_back};
use std::alloc::Global;

/// Reads the words of a command line, those behind the program's name. A refusal names the place
/// of the first word that no command has there, or the number of words where one is missing.
/// `Memory` comes where there is none.
pub fn read_words(alloc: Global, words: &[String]) -> Result<Command, WordsFault>
    ensures read { IfOk result (IsCommand (map string_bytes words.now)) }
    ensures refused { IfErr result (IsWordsFault (map string_bytes words.now)) }
{
    written_stamps_read_back();
    if is_word(words, 0, "replay") {
        return read_replay(alloc, words);
    }
    if is_word(words, 0, "check") {
        return read_check(alloc, words);
    }
    if is_word(words, 0, "show") {
        return read_show(alloc, words);
    }
    if is_word(words, 0, "gen") {
        return read_gen(words);
    }
    Err(WordsFault::At(0))
}

fn read_replay(alloc: Global, words: &[String]) -> Result<Command, WordsFault>
    requires { slice_get (map string_bytes words.now) 0 ≡ Some (codes "replay") }
    ensures read { IfOk result (IsCommand (map string_bytes words.now)) }
    ensures refused { IfErr result (IsWordsFault (map string_bytes words.now)) }
{
    written_stamps_read_back();
    let Some(script) = word_at(words, 1) else {
        return Err(WordsFault::At(1));
    };
    let Some(journal) = word_at(words, 2) else {
        return Err(WordsFault::At(2));
    };
    let Some(output) = word_at(words, 3) else {
        return Err(WordsFault::At(3));
    };
    match read_window(alloc, three_behind(words, 4)) {
        Ok(Window { stream, start, end }) => {
            let options = match read_options(words, 7, end) {
                Ok(options) => options,
                Err(fault) => return Err(fault),
            };
            Ok(Command::Replay {
                script: Text::of(alloc, script)?,
                journal: Text::of(alloc, journal)?,
                output: Text::of(alloc, output)?,
                stream,
                start,
                end,
                options,
            })
        }
        Err(WordsFault::At(place)) => Err(WordsFault::At(place + 4)),
        Err(WordsFault::Memory) => Err(WordsFault::Memory),
    }
}

fn read_check(alloc: Global, words: &[String]) -> Result<Command, WordsFault>
    requires { slice_get (map string_bytes words.now) 0 ≡ Some (codes "check") }
    ensures read { IfOk result (IsCommand (map string_bytes words.now)) }
    ensures refused { IfErr result (IsWordsFault (map string_bytes words.now)) }
{
    written_stamps_read_back();
    let Some(script) = word_at(words, 1) else {
        return Err(WordsFault::At(1));
    };
    let Some(output) = word_at(words, 2) else {
        return Err(WordsFault::At(2));
    };
    match read_window(alloc, behind(words, 3)) {
        Ok(Window { stream, start, end }) => Ok(Command::Check {
            script: Text::of(alloc, script)?,
            output: Text::of(alloc, output)?,
            stream,
            start,
            end,
        }),
        Err(WordsFault::At(place)) => Err(WordsFault::At(place + 3)),
        Err(WordsFault::Memory) => Err(WordsFault::Memory),
    }
}

/// The words from a place on.
fn behind(words: &[String], at: usize) -> &[String]
    requires { at ≤ length words.now }
    ensures { map string_bytes result.now ≡ drop at (map string_bytes words.now) }
{
    &words[at..]
}

/// The words from a place on, at most three.
fn three_behind(words: &[String], at: usize) -> &[String]
    requires { at ≤ length words.now }
    ensures { map string_bytes result.now ≡ take 3 (drop at (map string_bytes words.now)) }
{
    let rest = behind(words, at);
    if rest.len() <= 3 {
        return rest;
    }
    &rest[..3]
}

fn read_show(alloc: Global, words: &[String]) -> Result<Command, WordsFault>
    requires { slice_get (map string_bytes words.now) 0 ≡ Some (codes "show") }
    ensures read { IfOk result (IsCommand (map string_bytes words.now)) }
    ensures refused { IfErr result (IsWordsFault (map string_bytes words.now)) }
{
    written_stamps_read_back();
    let Some(script) = word_at(words, 1) else {
        return Err(WordsFault::At(1));
    };
    let Some(moment) = stamp_word(words, 2) else {
        return Err(WordsFault::At(2));
    };
    let query = match query_word(alloc, words, 3) {
        Ok(query) => query,
        Err(fault) => return Err(fault),
    };
    if words.len() > 4 {
        return Err(WordsFault::At(4));
    }
    Ok(Command::Show {
        script: Text::of(alloc, script)?,
        moment,
        query,
    })
}

fn read_gen(words: &[String]) -> Result<Command, WordsFault>
    requires { slice_get (map string_bytes words.now) 0 ≡ Some (codes "gen") }
    ensures read { IfOk result (IsCommand (map string_bytes words.now)) }
    ensures refused { IfErr result (IsWordsFault (map string_bytes words.now)) }
{
    let Some(commits) = size_at(words, 1) else {
        return Err(WordsFault::At(1));
    };
    if words.len() == 2 {
        return Ok(Command::Gen {
            commits,
            text: false,
        });
    }
    if !is_word(words, 2, "--text") {
        return Err(WordsFault::At(2));
    }
    if words.len() > 3 {
        return Err(WordsFault::At(3));
    }
    Ok(Command::Gen {
        commits,
        text: true,
    })
}

/// The number of commits at a place, where it is one that the generator takes.
fn size_at(words: &[String], at: usize) -> Option<u64>
    ensures { MatchOption result
        ((text : List ℕ) (n : ℕ) → slice_get (map string_bytes words.now) at ≡ Some text → number_reading text ≡ Some n → IsSize n → ⊥)
        (λ n. IsSize n × ((text : List ℕ) × (slice_get (map string_bytes words.now) at ≡ Some text) × (number_reading text ≡ Some n))) }
{
    let word = word_at(words, at)?;
    let commits = number_of(word)?;
    if is_size(commits) {
        Some(commits)
    } else {
        None
    }
}
