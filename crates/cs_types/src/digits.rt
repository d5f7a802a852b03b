ghost use Rattle.std.specs.Prelude.{◌≡◌, ◌^◌, ◌<◌, ◌≤◌, ◌*◌, ◌+◌, [], true, IfSome, None};
ghost use Rattle.std.specs.Str.Parse.{digits_value_after};
ghost use Rattle.cs_types.specs.Digits.{all_digits, all_zeros, is_digits, first_digits, capped};

/// What a NUMERIC's billionths stay below: 10^38.
const END: u128 = 100_000_000_000_000_000_000_000_000_000_000_000_000;

/// Whether each byte is a decimal digit. It takes no memory.
pub fn are_digits(bytes: &[u8]) -> bool
    ensures { result ≡ all_digits bytes.now }
{
    let mut rest = bytes;
    while let [first, after @ ..] = rest {
        if *first < 48 {
            return false;
        }
        if 57 < *first {
            return false;
        }
        rest = after;
    }
    true
}

/// Whether there is one digit or more, and nothing else. It takes no memory.
pub fn is_digits(bytes: &[u8]) -> bool
    ensures { result ≡ is_digits bytes.now }
{
    !bytes.is_empty() && are_digits(bytes)
}

/// Whether each byte is the digit 0.
pub(crate) fn are_zeros(bytes: &[u8]) -> bool
    ensures { result ≡ all_zeros bytes.now }
{
    let mut rest = bytes;
    while let [first, after @ ..] = rest {
        if *first != 48 {
            return false;
        }
        rest = after;
    }
    true
}

/// The number with one more digit behind it; None where that is 10^38 or more.
fn shifted(number: u128, digit: u8) -> Option<u128>
    requires { digit < 10 }
    ensures value { IfSome result (λ n. (n ≡ number * 10 + digit) × (n < 10 ^ 38)) }
    ensures none { result ≡ None → 10 ^ 38 ≤ number * 10 + digit }
{
    let longer = number.checked_mul(10)?.checked_add(u128::from(digit))?;
    if longer < END { Some(longer) } else { None }
}

/// The number with these digits behind it; None where that is 10^38 or more.
pub(crate) fn with_digits(number: u128, digits: &[u8]) -> Option<u128>
    requires below { number < 10 ^ 38 }
    requires digits { all_digits digits.now ≡ true }
    ensures { result ≡ capped (digits_value_after 10 number digits.now) }
{
    let mut longer = number;
    let mut rest = digits;
    while let [first, after @ ..] = rest {
        longer = shifted(longer, *first - 48)?;
        rest = after;
    }
    Some(longer)
}

/// The number with zeros behind it; None where that is 10^38 or more.
fn with_zeros(number: u128, places: u32) -> Option<u128>
    requires { number < 10 ^ 38 }
    ensures { result ≡ capped (digits_value_after 10 number (first_digits places [])) }
{
    let mut longer = number;
    let mut left = places;
    while left > 0 {
        longer = shifted(longer, 0)?;
        left -= 1;
    }
    Some(longer)
}

/// The number with the first digits of these behind it, filled up with zeros; None where that is
/// 10^38 or more.
pub(crate) fn with_first_digits(number: u128, digits: &[u8], places: u32) -> Option<u128>
    requires below { number < 10 ^ 38 }
    requires digits { all_digits digits.now ≡ true }
    ensures { result ≡ capped (digits_value_after 10 number (first_digits places digits.now)) }
{
    let mut longer = number;
    let mut left = places;
    let mut rest = digits;
    while let [first, after @ ..] = rest {
        if left == 0 {
            return Some(longer);
        }
        longer = shifted(longer, *first - 48)?;
        rest = after;
        left -= 1;
    }
    with_zeros(longer, left)
}
