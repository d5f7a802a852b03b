ghost use Rattle.std.specs.Prelude.{◌≡◌, ◌+◌, ◌-◌, ◌%◌, ◌<◌, ℕ, List, true, IfOk};
ghost use Rattle.cs_types.specs.Token.{is_token};
ghost use Rattle.cs_types.specs.Names.{is_same};
ghost use Rattle.cs_partitions.specs.Tokens.{token_of, last_digits};

use cs_types::{Memory, Text, Token};
use std::alloc::Global;
use std::cmp::Ordering;

/// The token of a part of a stream, by its number in order of birth.
pub(crate) fn token(alloc: Global, stream: &Text, number: usize) -> Result<Token, Memory>
    requires name { is_token (token_of stream.now 0) ≡ true }
    requires number { number < 100000 }
    ensures { IfOk result (λ t. t ≡ token_of stream.now number) }
{
    let bytes = token_bytes(alloc, stream, number)?;
    match Token::of(alloc, bytes.as_slice())? {
        Some(token) => Ok(token),
        None => unreachable!(),
    }
}

#[tactic(auto, unfolding(crate::specs::Tokens::token_of))]
fn token_bytes(alloc: Global, stream: &Text, number: usize) -> Result<Vec<u8>, Memory>
    ensures { IfOk result (λ bytes. bytes.items ≡ token_of stream.now number) }
{
    let mut bytes = Vec::new(alloc);
    bytes.extend_from_slice(stream.as_str().as_bytes())?;
    bytes.push(b'-')?;
    bytes.extend_from_slice(&five_digits(number))?;
    Ok(bytes)
}

fn five_digits(number: usize) -> [u8; 5]
    ensures { result ≡ last_digits 5 number }
{
    let tens = number / 10;
    let hundreds = tens / 10;
    let thousands = hundreds / 10;
    let ten_thousands = thousands / 10;
    [
        digit(ten_thousands),
        digit(thousands),
        digit(hundreds),
        digit(tens),
        digit(number),
    ]
}

fn digit(number: usize) -> u8
    ensures { result ≡ 48 + number % 10 }
{
    b'0' + (number % 10) as u8
}

/// The number of the part that has a token of a stream; of any other bytes, some number.
pub(crate) fn number_in(token: &[u8]) -> usize
    ensures { (stream : List ℕ) (n : ℕ) → n < 100000 → token.now ≡ token_of stream n → result ≡ n }
{
    let Some(at) = token.len().checked_sub(5) else {
        return 0;
    };
    value(token[at]) * 10_000
        + value(token[at + 1]) * 1_000
        + value(token[at + 2]) * 100
        + value(token[at + 3]) * 10
        + value(token[at + 4])
}

fn value(digit: u8) -> usize
    ensures { result ≡ digit - 48 }
{
    usize::from(digit.saturating_sub(b'0'))
}

/// Whether two tokens are the same bytes.
pub(crate) fn is_same(a: &Token, b: &Token) -> bool
    ensures { result ≡ is_same a.now b.now }
{
    match a.cmp(b) {
        Ordering::Equal => true,
        _ => false,
    }
}
