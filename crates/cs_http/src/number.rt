ghost use Rattle.std.specs.Prelude.{◌≡◌, true};
ghost use Rattle.cs_types.specs.Digits.{is_digits};
ghost use Rattle.cs_http.specs.Fields.{length_of};
ghost use Rattle.cs_http.specs.RefusalLine.{number_reading};

use cs_types::is_digits;

/// The most digits of a length.
const LENGTH_DIGITS: usize = 10;

fn parsed(text: &str) -> Option<u64>
    requires { is_digits text.now ≡ true }
    ensures { result ≡ number_reading text.now }
{
    match text.parse::<u64>() {
        Ok(n) => Some(n),
        Err(_) => None,
    }
}

/// The number of one digit or more, where it is one of 64 bits. Other bytes write none.
pub(crate) fn number_of(text: &[u8]) -> Option<u64>
    ensures { result ≡ number_reading text.now }
{
    if !is_digits(text) {
        return None;
    }
    match str::from_utf8(text) {
        Ok(text) => parsed(text),
        Err(_) => unreachable!(),
    }
}

/// The number of 1 to 10 digits. Other bytes write none.
#[tactic(auto, using(crate::proofs::Lengths::length_long, crate::proofs::Lengths::length_is_number))]
pub(crate) fn length_of(text: &[u8]) -> Option<u64>
    ensures { result ≡ length_of text.now }
{
    if text.len() > LENGTH_DIGITS {
        return None;
    }
    number_of(text)
}
