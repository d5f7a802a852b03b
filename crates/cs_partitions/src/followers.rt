ghost use Rattle.std.specs.Prelude.{◌≡◌, ◌+◌, ◌<◌, length, IfOk, true};
ghost use Rattle.cs_types.specs.Token.{is_token};
ghost use Rattle.cs_partitions.specs.Tokens.{token_of};
ghost use Rattle.cs_partitions.specs.Reshape.{do_meet, parents_of, follower, followers, ranges_between};

use crate::tokens::token;
use cs_place::{Part, Place, Range};
use cs_types::{Duplicate, Items, Memory, Stamp, Text, Token};
use std::alloc::Global;

fn do_meet(a: &Range, b: &Range) -> bool
    ensures { result ≡ do_meet a.now b.now }
{
    b.is_below_high(&a.low) && a.is_below_high(&b.low)
}

/// The tokens of those parts whose range meets this one.
fn parents_of(alloc: Global, range: &Range, named: &[Part]) -> Result<Items<Token>, Memory>
    ensures { IfOk result (λ tokens. tokens ≡ parents_of range.now named.now) }
{
    let mut parents = Items::new(alloc);
    for part in named {
        if do_meet(&part.range, range) {
            parents.push(part.token.copy()?)?;
        }
    }
    Ok(parents)
}

/// What the new parts of a reshape have in common.
#[derive(Drop)]
pub(crate) struct Birth<'a> {
    pub stream: &'a Text,
    pub at: Stamp,
    pub named: &'a [Part],
}

fn follower(alloc: Global, birth: &Birth, number: usize, range: Range) -> Result<Part, Memory>
    requires name { is_token (token_of birth.now.stream.now 0) ≡ true }
    requires number { number < 100000 }
    ensures { IfOk result (λ part. part ≡ follower birth.now.stream.now birth.now.at birth.now.named.now number range) }
{
    Ok(Part {
        token: token(alloc, birth.stream, number)?,
        parents: parents_of(alloc, &range, birth.named)?,
        range,
        from: birth.at,
        until: None,
    })
}

/// The new parts of a reshape: one for each range between the borders, numbered on.
pub(crate) fn followers(
    alloc: Global,
    birth: &Birth,
    first: usize,
    range: Range,
    borders: &[Place],
) -> Result<Vec<Part>, Memory>
    requires name { is_token (token_of birth.now.stream.now 0) ≡ true }
    requires numbers { first + length borders.now < 100000 }
    ensures { IfOk result (λ parts. parts.items ≡ followers birth.now.stream.now birth.now.at birth.now.named.now first (ranges_between range.low borders.now range.high)) }
{
    let Range { low, high } = range;
    let mut low = low;
    let mut number = first;
    let mut parts = Vec::new(alloc);
    for border in borders {
        let range = Range {
            low,
            high: Some(border.copy()?),
        };
        parts.push(follower(alloc, birth, number, range)?)?;
        low = border.copy()?;
        number += 1;
    }
    parts.push(follower(alloc, birth, number, Range { low, high })?)?;
    Ok(parts)
}
