ghost use Rattle.std.specs.Prelude.{◌≡◌, IfOk, option_map, map, bytes_eq, codes, Ok, Err, MatchResult};
ghost use Rattle.serde_json.specs.Find.{get, as_str, as_object};
ghost use Rattle.cs_tree.specs.View.{view, items_view, members_view};
ghost use Rattle.cs_script.specs.Readings.{Gives, not_memory};
ghost use Rattle.cs_script.specs.Members.{required, id_value, is_id, is_tag, tag_of, tokens_value, token_value, each_token, is_listed, first_other, no_others, has};
ghost use Rattle.cs_script.specs.declared.fault.LineCause.TheVariants.{Member};

use crate::LineCause;
use crate::texts::shared;
use cs_tree::{Members, Tree};
use cs_types::{Items, Json, Memory, Text, Token, are_token_bytes};
use std::alloc::Global;

/// How many bytes an id and a tag have at most.
const MOST_BYTES: usize = 64;

/// The cause of a member that is not as it should be.
pub(crate) fn bad(alloc: Global, name: &str) -> LineCause
    ensures { not_memory result → result ≡ Member name.now }
{
    match Text::of(alloc, name) {
        Ok(name) => LineCause::Member(name),
        Err(_) => LineCause::Memory,
    }
}

/// Whether a member stands.
pub(crate) fn has(tree: &Tree<'_>, name: &str) -> bool
    ensures { result ≡ has name.now (view tree.now) }
{
    match tree.get(name) {
        Some(_) => true,
        None => false,
    }
}

/// The text of a member that must be one.
pub(crate) fn text_of<'a>(
    alloc: Global,
    tree: &'a Tree<'_>,
    name: &str,
) -> Result<&'a str, LineCause>
    ensures { MatchResult result (λ text. required as_str name.now (view tree.now) ≡ Ok text.now) (λ e. not_memory e → required as_str name.now (view tree.now) ≡ Err e) }
{
    let Some(member) = tree.get(name) else {
        return Err(bad(alloc, name));
    };
    match member.as_str() {
        Some(text) => Ok(text),
        None => Err(bad(alloc, name)),
    }
}

/// The text of a member that must be one, as a text of its own.
pub(crate) fn required_text(alloc: Global, tree: &Tree<'_>, name: &str) -> Result<Text, LineCause>
    ensures { Gives result (required as_str name.now (view tree.now)) }
{
    let text = text_of(alloc, tree, name)?;
    Ok(Text::of(alloc, text)?)
}

#[tactic(auto, unfolding(crate::specs::Members::is_id))]
fn is_id(text: &[u8]) -> bool
    ensures { result ≡ is_id text.now }
{
    !text.is_empty() && text.len() <= MOST_BYTES && are_token_bytes(text)
}

/// The id of a transaction.
pub(crate) fn required_id(alloc: Global, tree: &Tree<'_>) -> Result<Text, LineCause>
    ensures { Gives result (required id_value (codes "id") (view tree.now)) }
{
    let text = text_of(alloc, tree, "id")?;
    if !is_id(text.as_bytes()) {
        return Err(bad(alloc, "id"));
    }
    Ok(Text::of(alloc, text)?)
}

#[tactic(auto, unfolding(crate::specs::Members::is_tag))]
fn is_tag(text: &[u8]) -> bool
    ensures { result ≡ is_tag text.now }
{
    text.len() <= MOST_BYTES
}

/// The tag of a transaction, which may be absent. It shares the bytes of the last one where both
/// are the same.
pub(crate) fn tag_of(
    alloc: Global,
    last_tag: Option<&Text>,
    tree: &Tree<'_>,
) -> Result<Text, LineCause>
    ensures { Gives result (tag_of (get (codes "tag") (view tree.now))) }
{
    let Some(member) = tree.get("tag") else {
        return Ok(shared(alloc, "", last_tag)?);
    };
    let Some(text) = member.as_str() else {
        return Err(bad(alloc, "tag"));
    };
    if !is_tag(text.as_bytes()) {
        return Err(bad(alloc, "tag"));
    }
    Ok(shared(alloc, text, last_tag)?)
}

/// The tokens of the member `parts`.
pub(crate) fn required_tokens(alloc: Global, tree: &Tree<'_>) -> Result<Items<Token>, LineCause>
    ensures { Gives result (required tokens_value (codes "parts") (view tree.now)) }
{
    let Some(member) = tree.get("parts") else {
        return Err(bad(alloc, "parts"));
    };
    let Some(trees) = member.as_array() else {
        return Err(bad(alloc, "parts"));
    };
    match each_token(alloc, trees)? {
        Some(tokens) => Ok(tokens),
        None => Err(bad(alloc, "parts")),
    }
}

fn each_token(alloc: Global, trees: &[Tree<'_>]) -> Result<Option<Items<Token>>, Memory>
    ensures { IfOk result (λ o. o ≡ each_token (items_view trees.now)) }
{
    let mut tokens = Items::new(alloc);
    for tree in trees {
        let Some(token) = token_of(alloc, tree)? else {
            return Ok(None);
        };
        tokens.push(token)?;
    }
    Ok(Some(tokens))
}

fn token_of(alloc: Global, tree: &Tree<'_>) -> Result<Option<Token>, Memory>
    ensures { IfOk result (λ o. o ≡ token_value (view tree.now)) }
{
    let Some(text) = tree.as_str() else {
        return Ok(None);
    };
    Token::of(alloc, text.as_bytes())
}

fn is_same(one: &str, other: &str) -> bool
    ensures { result ≡ bytes_eq one.now other.now }
{
    one == other
}

/// Whether a name stands in a list.
fn is_listed(name: &str, known: &[&'static str]) -> bool
    ensures { result ≡ is_listed name.now (map (λ s. s.now) known.now) }
{
    let mut rest = known;
    while let [first, after @ ..] = rest {
        if is_same(name, first) {
            return true;
        }
        rest = after;
    }
    false
}

/// That an object has no members but those listed; else the first other one.
pub(crate) fn no_others(
    alloc: Global,
    tree: &Tree<'_>,
    known: &[&'static str],
) -> Result<(), LineCause>
    ensures { Gives result (no_others (map (λ s. s.now) known.now) (view tree.now)) }
{
    match tree {
        Tree::Object(members) => first_other(alloc, members, known),
        _ => Ok(()),
    }
}

fn first_other(
    alloc: Global,
    members: &Members<'_>,
    known: &[&'static str],
) -> Result<(), LineCause>
    ensures { Gives result (first_other (map (λ s. s.now) known.now) (members_view members.now)) }
{
    for entry in members.as_slice() {
        if !is_listed(entry.name, known) {
            return Err(bad(alloc, entry.name));
        }
    }
    Ok(())
}
