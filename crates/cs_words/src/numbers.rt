ghost use Rattle.std.specs.Prelude.{◌≡◌};
ghost use Rattle.cs_words.specs.Numbers.{number_reading, is_letter, is_name_byte, are_name_bytes, is_name};

use cs_types::is_digits;

/// How many digits a number has at most.
const NUMBER_DIGITS: usize = 10;

/// How many bytes a name has at most.
const NAME_BYTES: usize = 128;

/// The number of 1 to 10 digits.
pub(crate) fn number_of(text: &str) -> Option<u64>
    ensures { result ≡ number_reading text.now }
{
    if !is_digits(text.as_bytes()) {
        return None;
    }
    if text.len() > NUMBER_DIGITS {
        return None;
    }
    match text.parse::<u64>() {
        Ok(n) => Some(n),
        Err(_) => None,
    }
}

/// Whether a text is a name: a letter, then letters, digits and underscores, at most 128 bytes.
#[tactic(auto, unfolding(crate::specs::Numbers::is_name))]
pub(crate) fn is_name(text: &[u8]) -> bool
    ensures { result ≡ is_name text.now }
{
    match text {
        [first, after @ ..] => is_letter(*first)
            && are_name_bytes(after)
            && text.len() <= NAME_BYTES,
        [] => false,
    }
}

fn are_name_bytes(text: &[u8]) -> bool
    ensures { result ≡ are_name_bytes text.now }
{
    let mut rest = text;
    while let [first, after @ ..] = rest {
        if !is_name_byte(*first) {
            return false;
        }
        rest = after;
    }
    true
}

fn is_name_byte(b: u8) -> bool
    ensures { result ≡ is_name_byte b }
{
    is_letter(b) || (b'0' <= b && b <= b'9') || b == b'_'
}

fn is_letter(b: u8) -> bool
    ensures { result ≡ is_letter b }
{
    (b'A' <= b && b <= b'Z') || (b'a' <= b && b <= b'z')
}
