ghost use Rattle.std.specs.Prelude.{◌≡◌, ◌≤◌, IfOk, length, string_bytes};
ghost use Rattle.std.specs.Fmt.{decimal, signed_decimal};
ghost use Rattle.cs_types.specs.Integer.{integer_reading, is_integer_text, is_numeral};

use crate::digits::are_digits;
use crate::{Memory, ValueFault};
use std::alloc::Global;

/// How many digits a text of an INT64 has at most.
const DIGITS: usize = 64;

/// The number that a text stands for: a minus or none, and 1 to 64 digits. `BadText` for another
/// text, `Range` for a number that has more than 64 bits.
pub(crate) fn read_integer(text: &str) -> Result<i64, ValueFault>
    ensures { result ≡ integer_reading text.now }
{
    if !is_integer_text(text.as_bytes()) {
        return Err(ValueFault::BadText);
    }
    match text.parse::<i64>() {
        Ok(n) => Ok(n),
        Err(_) => Err(ValueFault::Range),
    }
}

fn is_integer_text(text: &[u8]) -> bool
    ensures { result ≡ is_integer_text text.now }
{
    if let [b'-', digits @ ..] = text {
        is_numeral(digits)
    } else {
        is_numeral(text)
    }
}

fn is_numeral(digits: &[u8]) -> bool
    ensures { result ≡ is_numeral digits.now }
{
    !digits.is_empty() && digits.len() <= DIGITS && are_digits(digits)
}

/// The one text that is written for a number.
pub(crate) fn write_integer(alloc: Global, n: i64) -> Result<String, Memory>
    ensures { IfOk result (λ t. string_bytes t ≡ signed_decimal n) }
{
    Ok(format!(in alloc; "{n}")?)
}

/// How many bytes the text of a number has, counted and not written.
pub fn integer_length(n: i64) -> usize
    ensures { result ≡ length (signed_decimal n) }
{
    let digits = count_digits(n.unsigned_abs());
    if n < 0 { 1 + digits } else { digits }
}

fn count_digits(n: u64) -> usize
    ensures value { result ≡ length (decimal n) }
    ensures few { result ≤ 20 }
{
    let mut count = 1;
    let mut rest = n;
    while rest >= 10 {
        rest /= 10;
        count += 1;
    }
    count
}
