ghost use Rattle.std.specs.Prelude.{◌≡◌, ◌+◌, ◌<◌, ◌≤◌, ℤ, pos, Some, ◌≤ℤ◌, length, IfOk, IfSome, Ok, MatchResult, SomeIff, string_bytes};
ghost use Rattle.cs_types.specs.Civil.{IsCivil, IsDay, HasCivilDate, date_field, IsDateShape, IsDateFault, SpellsDate, date_text, year_of, month_of, day_of};
ghost use Rattle.jiff_core.specs.Calendar.{days_from_civil};

use crate::shape::{fits, four_digits, two_at, two_digits};
use crate::{Memory, Text};
use jiff::civil::Date;
use jiff_core::civil;
use std::alloc::{AllocError, Global};

const DATE_SHAPE: &[u8] = b"dddd-dd-dd";

/// Why a text is no date.
#[derive(Clone, Copy, Debug, PartialEq, Eq)]
pub(crate) enum DateFault {
    /// It is not of four digits, two and two with `-` between.
    Shape,
    /// The calendar has no such date in the years 1 to 9999.
    Range,
}

/// The days since 1970-01-01 of a text YYYY-MM-DD.
pub(crate) fn read_date(text: &[u8]) -> Result<i32, DateFault>
    ensures exact { MatchResult result (SpellsDate text.now) (λ e. IsDateFault e text.now) }
    ensures range { IfOk result IsDay }
    ensures all { (day : ℤ) → SpellsDate text.now day → result ≡ Ok day }
{
    if !fits(DATE_SHAPE, text) {
        return Err(DateFault::Shape);
    }
    match first_date(text) {
        Some(day) => Ok(day),
        None => Err(DateFault::Range),
    }
}

/// The day number of the date with which a text begins; None exactly where the calendar has no such date.
pub(crate) fn first_date(text: &[u8]) -> Option<i32>
    requires { 10 ≤ length text.now }
    ensures value { SomeIff result (HasCivilDate text.now) (date_field text.now) }
    ensures range { IfSome result IsDay }
{
    let year = two_at(text, 0) * 100 + two_at(text, 2);
    civil_day(year, two_at(text, 5), two_at(text, 8))
}

/// The day number of a date of the years 1 to 9999; None exactly where the calendar has no such date.
fn civil_day(year: u32, month: u32, day: u32) -> Option<i32>
    ensures value { SomeIff result (IsCivil year month day) (days_from_civil (pos year) month day) }
    ensures range { IfSome result IsDay }
{
    if year < 1 {
        return None;
    }
    if year > 9999 {
        return None;
    }
    if month > 12 {
        return None;
    }
    if day > 31 {
        return None;
    }
    match Date::new(year as i16, month as i8, day as i8) {
        Ok(date) => Some(date.to_plain().to_unix_epoch_day()),
        Err(_) => None,
    }
}

/// The text YYYY-MM-DD of a date, in days since 1970-01-01.
pub(crate) fn write_date(alloc: Global, day: i32) -> Result<Text, Memory>
    requires { IsDay day }
    ensures text { IfOk result (λ t. t ≡ date_text day) }
    ensures spelled { SpellsDate (date_text day) day }
{
    let text = date_string(alloc, day)?;
    Text::from_string(text)
}

/// The same, as a string.
pub(crate) fn date_string(alloc: Global, day: i32) -> Result<String, AllocError>
    requires { IsDay day }
    ensures { IfOk result (λ s. string_bytes s ≡ date_text day) }
{
    let (year, month, day) = date_parts(day);
    let year = four_digits(alloc, year)?;
    let month = two_digits(alloc, month)?;
    let day = two_digits(alloc, day)?;
    format!(in alloc; "{year}-{month}-{day}")
}

/// The year, the month and the day of the month.
fn date_parts(day: i32) -> (u32, u32, u32)
    requires { IsDay day }
    ensures year { result.0 ≡ year_of day }
    ensures month { result.1 ≡ month_of day }
    ensures day { result.2 ≡ day_of day }
    ensures civil { IsCivil (year_of day) (month_of day) (day_of day) }
    ensures short { result.2 ≤ 31 }
{
    let Ok(date) = civil::Date::from_unix_epoch_day(i64::from(day)) else {
        unreachable!();
    };
    (date.year as u32, u32::from(date.month), u32::from(date.day))
}
