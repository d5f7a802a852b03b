ghost use Rattle.std.specs.Prelude.{◌≡◌, ◌-◌, length, drop};
ghost use Rattle.cs_ddl.specs.Text.{answer_of, place_of};

use crate::fault::{Refusal, SyntaxFault};
use crate::token::Token;

/// Where the token begins behind which so many are left, or the end.
fn place(end: usize, tokens: &[Token], left: usize) -> usize
    ensures { result ≡ place_of end (drop (length tokens.now - left) tokens.now) }
{
    let i = tokens.len().saturating_sub(left);
    if i < tokens.len() {
        tokens[i].at()
    } else {
        end
    }
}

/// What was read of a text of so many bytes with these tokens, or the place of its fault.
pub(crate) fn answer<T>(
    end: usize,
    tokens: &[Token],
    read: Result<T, Refusal>,
) -> Result<T, SyntaxFault>
    ensures { result ≡ answer_of end tokens.now read }
{
    match read {
        Ok(tree) => Ok(tree),
        Err(Refusal::Left(left)) => Err(SyntaxFault::At(place(end, tokens, left))),
        Err(Refusal::Memory) => Err(SyntaxFault::Memory),
    }
}
