ghost use Rattle.std.specs.Prelude.{◌≡◌, ◌-◌, ◌<◌, ◌≤◌, ℕ, length, cond, slice_index_or, IfOk, take, drop};
ghost use Rattle.cs_place.specs.declared.part.Part.{Part as part};
ghost use Rattle.cs_types.specs.Names.{is_among};
ghost use Rattle.cs_partitions.specs.Tokens.{AreOfOneStream};
ghost use Rattle.cs_partitions.specs.Views.{children_of};
ghost use Rattle.cs_partitions.specs.Births.{AreBirths};

use crate::finding::index_named;
use crate::tokens::is_same;
use cs_place::Part;
use cs_types::{Duplicate, Items, Memory, Token};
use std::alloc::Global;

fn is_among(token: &Token, tokens: &[Token]) -> bool
    ensures { result ≡ is_among token.now tokens.now }
{
    for other in tokens {
        if is_same(other, token) {
            return true;
        }
    }
    false
}

/// The parts from an index to below another.
fn between(parts: &[Part], start: usize, end: usize) -> &[Part]
    requires rising { start ≤ end }
    requires inside { end ≤ length parts.now }
    ensures { result.now ≡ take (end - start) (drop start parts.now) }
{
    &parts[start..end]
}

fn span_at(births: &[(usize, usize)], index: usize) -> (usize, usize)
    requires { index < length births.now }
    ensures { result ≡ slice_index_or births.now index (0, 0) }
{
    births[index]
}

/// Copies of the children of the part at an index.
pub(crate) fn children_at(
    alloc: Global,
    parts: &[Part],
    births: &[(usize, usize)],
    index: usize,
) -> Result<Items<Part>, Memory>
    requires births { AreBirths parts.now births.now }
    requires inside { index < length parts.now }
    ensures { (d : part) → IfOk result (λ children. children ≡ children_of (slice_index_or parts.now index d).token parts.now) }
{
    let span = span_at(births, index);
    let near = between(parts, span.0, span.1);
    children_of(alloc, &parts[index].token, near)
}

/// Copies of those of the parts that name a token as a parent's.
pub(crate) fn children_of(
    alloc: Global,
    token: &Token,
    parts: &[Part],
) -> Result<Items<Part>, Memory>
    ensures { IfOk result (λ children. children ≡ children_of token.now parts.now) }
{
    let mut children = Items::new(alloc);
    for part in parts {
        if is_among(token, part.parents.as_slice()) {
            children.push(part.copy()?)?;
        }
    }
    Ok(children)
}

/// Sets where the children of the parts of these tokens stand: this takes no memory.
pub(crate) fn set_births(
    births: &mut [(usize, usize)],
    parts: &[Part],
    tokens: &[Token],
    span: (usize, usize),
)
    requires stream { AreOfOneStream parts.now }
    requires count { length births.old ≡ length parts.now }
    ensures count { length births.new ≡ length births.old }
    ensures each { (i : ℕ) (d : part) → i < length parts.now → slice_index_or births.new i (0, 0) ≡ cond (is_among (slice_index_or parts.now i d).token tokens.now) span (slice_index_or births.old i (0, 0)) }
{
    for token in tokens {
        if let Some(index) = index_named(parts, token) {
            births[index] = span;
        }
    }
}
