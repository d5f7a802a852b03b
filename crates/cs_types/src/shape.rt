ghost use Rattle.std.specs.Prelude.{◌≡◌, ◌+◌, ◌<◌, ◌≤◌, ◌↔◌, length, IfOk, string_bytes, IsTrue};
ghost use Rattle.cs_types.specs.Shape.{allows, Fits, digit_at, two_at, two_digits as two_digits_text, four_digits as four_digits_text};
ghost use Rattle.cs_types.specs.ShapeWalk.{unfit};

use std::alloc::{AllocError, Global};

/// Whether the byte is a digit.
pub(crate) fn is_digit(byte: u8) -> bool
    ensures { result ≡ allows 100 byte }
{
    byte.is_ascii_digit()
}

/// Whether a byte of a pattern, `d` for any digit and each other byte for itself, allows the byte.
fn allows(mark: u8, byte: u8) -> bool
    ensures { result ≡ allows mark byte }
{
    if mark == b'd' {
        is_digit(byte)
    } else {
        byte == mark
    }
}

/// The first place at which the text does not fit the pattern, or where it ends early.
#[tactic(auto, unfolding(crate::specs::ShapeWalk::unfit))]
pub(crate) fn unfit(pattern: &[u8], text: &[u8]) -> Option<usize>
    ensures { result ≡ unfit 0 pattern.now text.now }
{
    for (at, mark) in pattern.iter().enumerate() {
        if at >= text.len() {
            return Some(at);
        }
        if !allows(*mark, text[at]) {
            return Some(at);
        }
    }
    None
}

/// Whether the text fits the pattern.
pub(crate) fn fits(pattern: &[u8], text: &[u8]) -> bool
    ensures { IsTrue result ↔ Fits pattern.now text.now }
{
    if let Some(_) = unfit(pattern, text) {
        return false;
    }
    text.len() <= pattern.len()
}

/// The digit that stands at the place; 0 for a byte below the digits.
fn digit_at(text: &[u8], at: usize) -> u32
    requires { at < length text.now }
    ensures value { result ≡ digit_at text.now at }
    ensures small { result ≤ 207 }
{
    u32::from(text[at].saturating_sub(b'0'))
}

/// The number of the two digits from the place.
pub(crate) fn two_at(text: &[u8], at: usize) -> u32
    requires { at + 1 < length text.now }
    ensures value { result ≡ two_at text.now at }
    ensures small { result ≤ 2277 }
{
    digit_at(text, at) * 10 + digit_at(text, at + 1)
}

/// A number below 100 in two digits.
#[tactic(auto, using(std::proofs::lemmas::Fmt::decimal_digit))]
pub fn two_digits(alloc: Global, n: u32) -> Result<String, AllocError>
    requires { n < 100 }
    ensures { IfOk result (λ s. string_bytes s ≡ two_digits_text n) }
{
    format!(in alloc; "{}{}", n / 10, n % 10)
}

/// A number below 10,000 in four digits.
pub fn four_digits(alloc: Global, n: u32) -> Result<String, AllocError>
    requires { n < 10000 }
    ensures { IfOk result (λ s. string_bytes s ≡ four_digits_text n) }
{
    let high = two_digits(alloc, n / 100)?;
    let low = two_digits(alloc, n % 100)?;
    format!(in alloc; "{high}{low}")
}
