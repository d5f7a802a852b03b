ghost use Rattle.std.specs.Prelude.{◌≡◌, ◌+◌, ◌*◌, ◌-◌, ◌%◌, ◌<◌, ◌≤◌, ℤ, pos, ◌+ℤ◌, ◌*ℤ◌, ◌-ℤ◌, ◌≤ℤ◌, Ok, length, drop, IfOk, MatchResult, MatchOption, SomeIff, IfSome, string_bytes};
ghost use Rattle.cs_types.specs.Shape.{IsFaultPlace};
ghost use Rattle.cs_types.specs.Civil.{IsDay};
ghost use Rattle.cs_types.specs.Moment.{IsMoment, IsMomentShape, HasClock, HasCivilMoment, IsFaultBetween, IsMomentFault, SpellsBetween, SpellsMoment, moment_field, clock_field, nanosecond_field, moment_text};
ghost use Rattle.cs_types.specs.ShapeWalk.{ended, zulu, closing, digits_fault, fraction_fault};

use crate::civil::{date_string, first_date};
use crate::clock::put_clock;
use crate::shape::{is_digit, two_at, unfit};
use crate::{Memory, Text};
use std::alloc::Global;

/// A date, `T` and a time of day, as far as the seconds.
const HEAD: &[u8] = b"dddd-dd-ddTdd:dd:dd";

/// The first moment, 0001-01-01T00:00:00Z, in microseconds since 1970.
const LEAST: i64 = -62_135_596_800_000_000;

/// The last moment, 9999-12-31T23:59:59.999999Z.
const GREATEST: i64 = 253_402_300_799_999_999;

const DAY: i64 = 86_400_000_000;

/// Why a text is no stamp.
#[derive(Clone, Copy, Debug, PartialEq, Eq)]
pub enum StampFault {
    /// The text is not of the shape; with the byte at this place no text of the shape goes on, or
    /// the text ends there.
    Shape(usize),
    /// The fields are no civil date and time, or the moment is outside of the range.
    Range,
    /// A digit after the sixth of the fraction is not zero.
    TooFine,
}

/// A moment as a text tells it.
#[derive(Clone, Copy)]
struct Told {
    /// Whole microseconds since 1970.
    us: i64,
    /// The nanoseconds above them.
    rest: u64,
}

/// The microseconds since 1970 of a text of the years 1 to 9999.
pub(crate) fn read_moment(text: &[u8]) -> Result<i64, StampFault>
    ensures exact { MatchResult result (SpellsMoment text.now) (λ e. IsMomentFault e text.now) }
    ensures all { (us : ℤ) → SpellsMoment text.now us → result ≡ Ok us }
{
    read_between(text, LEAST, GREATEST)
}

/// The microseconds since 1970 of a text whose moment is from `least` to `greatest`.
pub(crate) fn read_between(text: &[u8], least: i64, greatest: i64) -> Result<i64, StampFault>
    ensures { MatchResult result (SpellsBetween least greatest text.now) (λ e. IsFaultBetween least greatest e text.now) }
{
    if let Some(place) = shape_fault(text) {
        return Err(StampFault::Shape(place));
    }
    let Some(told) = fields(text) else {
        return Err(StampFault::Range);
    };
    if told.us < least {
        return Err(StampFault::Range);
    }
    if told.us > greatest {
        return Err(StampFault::Range);
    }
    if told.rest == 0 {
        return Ok(told.us);
    }
    if told.us == greatest {
        return Err(StampFault::Range);
    }
    Err(StampFault::TooFine)
}

/// The moment that the fields of a text tell; None exactly where they are no civil date and time.
fn fields(text: &[u8]) -> Option<Told>
    requires { 20 ≤ length text.now }
    ensures { MatchOption result (¬ HasCivilMoment text.now)
        (λ m. HasCivilMoment text.now × (moment_field text.now ≡ m.us *ℤ pos 1000 +ℤ pos m.rest) × (m.rest < 1000)) }
{
    let day = first_date(text)?;
    let second = clock(text)?;
    let nanoseconds = nanoseconds(text);
    Some(Told {
        us: microseconds(day, second, nanoseconds),
        rest: nanoseconds % 1000,
    })
}

/// The whole microseconds of a day, of seconds and of nanoseconds.
fn microseconds(day: i32, second: u32, nanoseconds: u64) -> i64
    requires day_in { IsDay day }
    requires second_in { second < 86400 }
    requires nanoseconds_in { nanoseconds ≤ 23000000000 }
    ensures { result *ℤ pos 1000 +ℤ pos (nanoseconds % 1000)
        ≡ day *ℤ pos 86400000000000 +ℤ pos (second * 1000000000 + nanoseconds) }
{
    i64::from(day) * DAY + i64::from(second) * 1_000_000 + (nanoseconds / 1000) as i64
}

/// The seconds since midnight; None exactly where no clock shows the time of day.
fn clock(text: &[u8]) -> Option<u32>
    requires { 20 ≤ length text.now }
    ensures value { SomeIff result (HasClock text.now) (clock_field text.now) }
    ensures small { IfSome result (λ s. s < 86400) }
{
    let hour = two_at(text, 11);
    let minute = two_at(text, 14);
    let second = two_at(text, 17);
    if hour > 23 {
        return None;
    }
    if minute > 59 {
        return None;
    }
    if second > 59 {
        return None;
    }
    Some((hour * 60 + minute) * 60 + second)
}

/// The nanoseconds of the digits behind the point.
fn nanoseconds(text: &[u8]) -> u64
    requires { 20 ≤ length text.now }
    ensures value { result ≡ nanosecond_field text.now }
    ensures small { result ≤ 23000000000 }
{
    let mut unit: u64 = 100_000_000;
    let mut sum: u64 = 0;
    for at in 20..text.len() - 1 {
        sum += u64::from(text[at].saturating_sub(b'0')) * unit;
        unit /= 10;
    }
    sum
}

/// The place at which the text leaves the shape of a moment.
fn shape_fault(text: &[u8]) -> Option<usize>
    ensures { MatchOption result (IsMomentShape text.now) (λ place. IsFaultPlace IsMomentShape text.now place) }
{
    if let Some(place) = unfit(HEAD, text) {
        return Some(place);
    }
    fraction_fault(text)
}

/// The same behind the seconds, which end at place 19.
fn fraction_fault(text: &[u8]) -> Option<usize>
    ensures { result ≡ fraction_fault 19 (drop 19 text.now) }
{
    if text.len() <= 19 {
        return Some(19);
    }
    if text[19] == b'.' {
        digits_fault(text)
    } else {
        zulu_fault(text, 19)
    }
}

/// The same behind the point, which stands at place 19.
fn digits_fault(text: &[u8]) -> Option<usize>
    ensures { result ≡ digits_fault 20 (drop 20 text.now) }
{
    if text.len() <= 20 {
        return Some(20);
    }
    if !is_digit(text[20]) {
        return Some(20);
    }
    closing_fault(text)
}

/// The same behind the first digit of the fraction, which stands at place 20.
fn closing_fault(text: &[u8]) -> Option<usize>
    ensures { result ≡ closing 8 21 (drop 21 text.now) }
{
    for at in 21..29 {
        if text.len() <= at {
            return Some(at);
        }
        if !is_digit(text[at]) {
            return zulu_fault(text, at);
        }
    }
    zulu_fault(text, 29)
}

/// Where the rest of the text is not `Z` alone.
fn zulu_fault(text: &[u8], at: usize) -> Option<usize>
    requires { at < 30 }
    ensures { result ≡ zulu at (drop at text.now) }
{
    if text.len() <= at {
        return Some(at);
    }
    if text[at] != b'Z' {
        return Some(at);
    }
    if text.len() > at + 1 {
        return Some(at + 1);
    }
    None
}

/// The one text of a moment: no fraction where the microseconds are zero, else six digits.
pub(crate) fn write_moment(alloc: Global, us: i64) -> Result<Text, Memory>
    requires { IsMoment us }
    ensures text { IfOk result (λ t. t ≡ moment_text us) }
    ensures spelled { SpellsMoment (moment_text us) us }
{
    let text = moment_string(alloc, us)?;
    Text::from_string(text)
}

/// The same, as a string.
pub(crate) fn moment_string(alloc: Global, us: i64) -> Result<String, Memory>
    requires { IsMoment us }
    ensures { IfOk result (λ s. string_bytes s ≡ moment_text us) }
{
    let mut text = date_string(alloc, us.div_euclid(DAY) as i32)?;
    put_clock(&mut text, us.rem_euclid(DAY) as u64)?;
    Ok(text)
}
