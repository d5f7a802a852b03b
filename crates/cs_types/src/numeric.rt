ghost use Rattle.std.specs.Prelude.{◌≡◌, ◌+◌, ◌^◌, ◌<◌, ◌≤◌, ◌++◌, true, drop, IfOk, string_bytes};
ghost use Rattle.std.specs.Str.Parse.{digits_value};
ghost use Rattle.cs_types.specs.Digits.{all_digits, all_zeros, first_digits, capped};
ghost use Rattle.cs_types.specs.Numeric.{IsNumeric, whole_reading, magnitude_reading, signed, numeric_reading, fraction_text, magnitude_text, numeric_text};

use crate::digits::{are_zeros, is_digits, with_digits, with_first_digits};
use crate::{Memory, ValueFault};
use std::alloc::Global;

/// How many bytes a text of a NUMERIC has at most.
const TEXT_LIMIT: usize = 64;
/// How many digits stand behind the point.
const PLACES: u32 = 9;
/// How many billionths are one.
const ONE: u128 = 1_000_000_000;

/// The billionths that a text stands for: a minus or none, digits, and a point with digits or
/// none. `BadText` for another text; `Range` from 10^29 on, and where a digit behind the ninth of
/// the fraction is not zero.
pub(crate) fn read_numeric(text: &str) -> Result<i128, ValueFault>
    ensures value { result ≡ numeric_reading text.now }
    ensures range { IfOk result IsNumeric }
{
    if text.len() > TEXT_LIMIT {
        return Err(ValueFault::BadText);
    }
    match text.strip_prefix('-') {
        Some(magnitude) => with_sign(true, read_magnitude(magnitude)),
        None => with_sign(false, read_magnitude(text)),
    }
}

fn with_sign(negative: bool, magnitude: Result<u128, ValueFault>) -> Result<i128, ValueFault>
    requires { IfOk magnitude (λ n. n < 10 ^ 38) }
    ensures value { result ≡ signed negative magnitude }
    ensures range { IfOk result IsNumeric }
{
    let n = magnitude? as i128;
    Ok(if negative { -n } else { n })
}

fn read_magnitude(text: &str) -> Result<u128, ValueFault>
    ensures value { result ≡ magnitude_reading text.now }
    ensures below { IfOk result (λ n. n < 10 ^ 38) }
{
    match text.split_once('.') {
        Some((whole, fraction)) => {
            if !is_digits(fraction.as_bytes()) {
                return Err(ValueFault::BadText);
            }
            read_parts(whole.as_bytes(), fraction.as_bytes())
        }
        None => read_parts(text.as_bytes(), &[]),
    }
}

fn read_parts(whole: &[u8], fraction: &[u8]) -> Result<u128, ValueFault>
    requires { all_digits fraction.now ≡ true }
    ensures value { result ≡ whole_reading whole.now fraction.now }
    ensures below { IfOk result (λ n. n < 10 ^ 38) }
{
    if !is_digits(whole) {
        return Err(ValueFault::BadText);
    }
    if !fits_places(fraction) {
        return Err(ValueFault::Range);
    }
    match read_billionths(whole, fraction) {
        Some(n) => Ok(n),
        None => Err(ValueFault::Range),
    }
}

/// Whether no digit behind the ninth is other than zero.
fn fits_places(fraction: &[u8]) -> bool
    ensures { result ≡ all_zeros (drop 9 fraction.now) }
{
    if fraction.len() <= 9 {
        return true;
    }
    are_zeros(&fraction[9..])
}

fn read_billionths(whole: &[u8], fraction: &[u8]) -> Option<u128>
    requires whole { all_digits whole.now ≡ true }
    requires fraction { all_digits fraction.now ≡ true }
    ensures { result ≡ capped (digits_value 10 (whole.now ++ first_digits 9 fraction.now)) }
{
    let number = with_digits(0, whole)?;
    with_first_digits(number, fraction, PLACES)
}

/// The one text that is written for billionths below 10^38 in absolute value: no zero stands in
/// front but one before the point, and none behind the fraction's last other digit.
pub(crate) fn write_numeric(alloc: Global, n: i128) -> Result<String, Memory>
    ensures { IfOk result (λ t. string_bytes t ≡ numeric_text n) }
{
    let magnitude = write_magnitude(alloc, n.unsigned_abs())?;
    if n < 0 {
        return Ok(format!(in alloc; "-{magnitude}")?);
    }
    Ok(magnitude)
}

#[tactic(auto, unfolding(crate::specs::Numeric::magnitude_text))]
fn write_magnitude(alloc: Global, n: u128) -> Result<String, Memory>
    ensures { IfOk result (λ t. string_bytes t ≡ magnitude_text n) }
{
    let whole = n / ONE;
    let fraction = write_fraction(alloc, (n % ONE) as u64)?;
    Ok(format!(in alloc; "{whole}{fraction}")?)
}

fn write_fraction(alloc: Global, n: u64) -> Result<String, Memory>
    requires { n < 1000000000 }
    ensures { IfOk result (λ t. string_bytes t ≡ fraction_text n) }
{
    let mut text = String::new(alloc);
    if n == 0 {
        return Ok(text);
    }
    text.push('.')?;
    let mut rest = n;
    let mut places = PLACES;
    while rest > 0 {
        places -= 1;
        let unit = power_of_ten(places);
        text.push(digit(rest / unit))?;
        rest %= unit;
    }
    Ok(text)
}

fn power_of_ten(places: u32) -> u64
    requires { places ≤ 9 }
    ensures { result ≡ 10 ^ places }
{
    10_u64.pow(places)
}

fn digit(n: u64) -> char
    requires { n < 10 }
    ensures { result ≡ 48 + n }
{
    char::from(48 + n as u8)
}
