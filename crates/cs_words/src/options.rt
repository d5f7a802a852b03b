// The options of a replay among the words of a command line.
ghost use Rattle.std.specs.Prelude.{◌≡◌, ◌≢◌, ◌≤◌, ◌<◌, ◌+◌, ℕ, length, List, Some, None, true, false, drop, map, string_bytes, slice_get, IfOk, IfErr, MatchOption};
ghost use Rattle.cs_words.specs.Chosen.{value_chosen, values_before, chosen_with, MayFollow};
ghost use Rattle.cs_words.specs.Numbers.{number_reading};
ghost use Rattle.cs_words.specs.Options.{option_name, IsOptions, AreOptions, HasValueAt, HasNoValueAt, IsGiven};
ghost use Rattle.cs_words.specs.Words.{IsFaultFrom};

use crate::numbers::number_of;
use crate::window::{is_word, stamp_word, word_at};
use crate::{ReplayOptions, WordsFault};
use cs_types::{Stamp, written_stamps_read_back};

/// The options of a replay.
#[derive(Clone, Copy, Debug, PartialEq, Eq)]
pub(crate) enum ReplayOption {
    Order,
    Turns,
    Batch,
    Moment,
}

/// The values of the options that were given so far.
#[derive(Clone, Copy, Debug)]
pub(crate) struct Chosen {
    pub order: Option<u64>,
    pub turns: Option<u32>,
    pub batch: Option<u32>,
    pub moment: Option<Stamp>,
}

/// How many turns there are at most.
const MOST_TURNS: u32 = 1_000_000;

/// How many records a batch has at most.
const MOST_RECORDS: u32 = 8_192;

const DEFAULT_ORDER: u64 = 0;

const DEFAULT_TURNS: u32 = 100;

const DEFAULT_RECORDS: u32 = 1_024;

/// The options that all words from a place on are, in a replay up to an end.
pub(crate) fn read_options(
    words: &[String],
    from: usize,
    end: Stamp,
) -> Result<ReplayOptions, WordsFault>
    ensures read { IfOk result (IsOptions end (drop from (map string_bytes words.now))) }
    ensures refused { IfErr result (IsFaultFrom (AreOptions end) (map string_bytes words.now) from) }
{
    written_stamps_read_back();
    let mut chosen = Chosen {
        order: None,
        turns: None,
        batch: None,
        moment: None,
    };
    let mut at = from;
    'options: while at < words.len() {
        match take_option(words, at, &mut chosen) {
            Ok(()) => (),
            Err(fault) => return Err(fault),
        }
        at += 2;
    }
    Ok(options_of(&chosen, end))
}

/// The options with these values, and with their defaults where there are none.
fn options_of(chosen: &Chosen, end: Stamp) -> ReplayOptions
    ensures order { IsGiven (values_before chosen.now.order) 0 result.order }
    ensures turns { IsGiven (values_before chosen.now.turns) 100 result.turns }
    ensures batch { IsGiven (values_before chosen.now.batch) 1024 result.batch }
    ensures moment { IsGiven (values_before chosen.now.moment) end result.moment }
{
    ReplayOptions {
        order: chosen.order.unwrap_or(DEFAULT_ORDER),
        turns: chosen.turns.unwrap_or(DEFAULT_TURNS),
        batch: chosen.batch.unwrap_or(DEFAULT_RECORDS),
        moment: chosen.moment.unwrap_or(end),
    }
}

/// Takes the option whose word stands at a place, with its value behind it.
fn take_option(words: &[String], at: usize, chosen: &mut Chosen) -> Result<(), WordsFault>
    requires { at < length words.now }
    ensures taken { IfOk result (λ _. (option : ReplayOption) × (value : ℕ) × (slice_get (map string_bytes words.now) at ≡ Some (option_name option)) × HasValueAt (map string_bytes words.now) (at + 1) option value × (value_chosen chosen.old option ≡ None) × (chosen.new ≡ chosen_with chosen.old option value)) }
    ensures refused { (end : ℕ) → IfErr result (IsFaultFrom (MayFollow chosen.old end) (map string_bytes words.now) at) }
{
    written_stamps_read_back();
    let Some(option) = option_at(words, at) else {
        return Err(WordsFault::At(at));
    };
    if is_chosen(chosen, option) {
        return Err(WordsFault::At(at));
    }
    if !choose(words, at + 1, option, chosen) {
        return Err(WordsFault::At(at + 1));
    }
    Ok(())
}

/// The option whose word stands at a place.
pub(crate) fn option_at(words: &[String], at: usize) -> Option<ReplayOption>
    ensures { MatchOption result
        ((option : ReplayOption) → slice_get (map string_bytes words.now) at ≡ Some (option_name option) → ⊥)
        (λ option. slice_get (map string_bytes words.now) at ≡ Some (option_name option)) }
{
    if is_word(words, at, "--order") {
        return Some(ReplayOption::Order);
    }
    if is_word(words, at, "--turns") {
        return Some(ReplayOption::Turns);
    }
    if is_word(words, at, "--batch") {
        return Some(ReplayOption::Batch);
    }
    if is_word(words, at, "--moment") {
        return Some(ReplayOption::Moment);
    }
    None
}

/// Whether an option was given.
fn is_chosen(chosen: &Chosen, option: ReplayOption) -> bool
    ensures there { result ≡ true → value_chosen chosen.now option ≢ None }
    ensures absent { result ≡ false → value_chosen chosen.now option ≡ None }
{
    match option {
        ReplayOption::Order => chosen.order.is_some(),
        ReplayOption::Turns => chosen.turns.is_some(),
        ReplayOption::Batch => chosen.batch.is_some(),
        ReplayOption::Moment => chosen.moment.is_some(),
    }
}

/// Gives an option the value at a place, where one that it takes stands there.
fn choose(words: &[String], at: usize, option: ReplayOption, chosen: &mut Chosen) -> bool
    ensures there { result ≡ true → (value : ℕ) × HasValueAt (map string_bytes words.now) at option value × (chosen.new ≡ chosen_with chosen.old option value) }
    ensures none { result ≡ false → HasNoValueAt (map string_bytes words.now) at option }
{
    match option {
        ReplayOption::Order => {
            let Some(order) = number_word(words, at) else {
                return false;
            };
            chosen.order = Some(order);
        }
        ReplayOption::Turns => {
            let Some(turns) = number_within(words, at, MOST_TURNS) else {
                return false;
            };
            chosen.turns = Some(turns);
        }
        ReplayOption::Batch => {
            let Some(batch) = number_within(words, at, MOST_RECORDS) else {
                return false;
            };
            chosen.batch = Some(batch);
        }
        ReplayOption::Moment => {
            let Some(moment) = stamp_word(words, at) else {
                return false;
            };
            chosen.moment = Some(moment);
        }
    }
    true
}

/// The number at a place.
fn number_word(words: &[String], at: usize) -> Option<u64>
    ensures { MatchOption result
        ((text : List ℕ) (n : ℕ) → slice_get (map string_bytes words.now) at ≡ Some text → number_reading text ≡ Some n → ⊥)
        (λ n. (text : List ℕ) × (slice_get (map string_bytes words.now) at ≡ Some text) × (number_reading text ≡ Some n)) }
{
    let word = word_at(words, at)?;
    number_of(word)
}

/// The number at a place, where it is from 1 to another.
fn number_within(words: &[String], at: usize, most: u32) -> Option<u32>
    ensures { MatchOption result
        ((text : List ℕ) (n : ℕ) → slice_get (map string_bytes words.now) at ≡ Some text → number_reading text ≡ Some n → 1 ≤ n → n ≤ most → ⊥)
        (λ n. (text : List ℕ) × (slice_get (map string_bytes words.now) at ≡ Some text) × (number_reading text ≡ Some n) × (1 ≤ n) × (n ≤ most)) }
{
    let number = number_word(words, at)?;
    if number < 1 || u64::from(most) < number {
        return None;
    }
    match u32::try_from(number) {
        Ok(number) => Some(number),
        Err(_) => None,
    }
}
