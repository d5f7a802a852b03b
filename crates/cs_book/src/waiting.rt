//! Rows that wait.
ghost use Rattle.std.specs.Prelude.{◌≡◌};
ghost use Rattle.std.specs.Option.{option_map};
ghost use Rattle.cs_book.specs.Waiting.{first_unfinished, first_missing};

use cs_schedule::{Board, Row};
use cs_types::Token;

pub(crate) fn first_unfinished(rows: &[Row]) -> Option<&Row>
    ensures { option_map (λ r. r.now) result ≡ first_unfinished rows.now }
{
    let mut rest = rows;
    while let [first, after @ ..] = rest {
        if !first.finished {
            return Some(first);
        }
        rest = after;
    }
    None
}

/// The first of the tokens that has no finished row.
pub(crate) fn first_missing<'t>(board: &Board, tokens: &'t [Token]) -> Option<&'t Token>
    ensures { option_map (λ t. t.now) result ≡ first_missing board.now.rows tokens.now }
{
    let mut rest = tokens;
    while let [first, after @ ..] = rest {
        if !board.has_ended(first) {
            return Some(first);
        }
        rest = after;
    }
    None
}
