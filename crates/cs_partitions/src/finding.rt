ghost use Rattle.std.specs.Prelude.{◌≡◌, ◌<◌, length, IfSome, None, Some, IfOk, MatchResult, option_copied, slice_get, map};
ghost use Rattle.cs_partitions.specs.Tokens.{AreOfOneStream};
ghost use Rattle.cs_partitions.specs.Fault.{not_memory, unknown};
ghost use Rattle.cs_partitions.specs.Reshape.{part_named, index_named, parts_named, with_end};

use crate::LayoutFault;
use crate::tokens::{is_same, number_in};
use cs_place::Part;
use cs_types::{Duplicate, Stamp, Token};
use std::alloc::Global;

/// The part at an index, if there is one.
pub(crate) fn part_at(parts: &[Part], index: usize) -> Option<&Part>
    ensures { option_copied result ≡ slice_get parts.now index }
{
    if index < parts.len() {
        Some(&parts[index])
    } else {
        None
    }
}

/// The index of the part of a token, if there is one: the token has it as its number.
pub(crate) fn index_named(parts: &[Part], token: &Token) -> Option<usize>
    requires { AreOfOneStream parts.now }
    ensures index { result ≡ index_named token.now parts.now }
    ensures inside { IfSome result (λ index. index < length parts.now) }
{
    let index = number_in(token.bytes());
    match part_at(parts, index) {
        Some(part) => {
            if is_same(&part.token, token) {
                return Some(index);
            }
            None
        }
        None => None,
    }
}

/// The part of a token, if there is one.
pub(crate) fn part_named<'a>(parts: &'a [Part], token: &Token) -> Option<&'a Part>
    requires { AreOfOneStream parts.now }
    ensures { option_copied result ≡ part_named token.now parts.now }
{
    match index_named(parts, token) {
        Some(index) => part_at(parts, index),
        None => None,
    }
}

/// Copies of the parts of these tokens, in the order of the tokens.
pub(crate) fn parts_named(
    alloc: Global,
    parts: &[Part],
    tokens: &[Token],
) -> Result<Vec<Part>, LayoutFault>
    requires { AreOfOneStream parts.now }
    ensures found { IfOk result (λ named. named.items ≡ parts_named tokens.now parts.now) }
    ensures refused { MatchResult result (λ _. unknown parts.now tokens.now ≡ None) (λ e. not_memory e → unknown parts.now tokens.now ≡ Some e) }
{
    let mut named = Vec::new(alloc);
    for token in tokens {
        match part_named(parts, token) {
            Some(part) => named.push(part.copy()?)?,
            None => return Err(LayoutFault::NoPart(token.copy()?)),
        }
    }
    Ok(named)
}

/// Ends the parts of these tokens at a moment. It takes no memory.
pub(crate) fn end_all(parts: &mut [Part], tokens: &[Token], at: Stamp)
    requires { AreOfOneStream parts.old }
    ensures { parts.new ≡ map (with_end tokens.now at) parts.old }
{
    for token in tokens {
        if let Some(index) = index_named(parts, token) {
            parts[index].until = Some(at);
        }
    }
}
