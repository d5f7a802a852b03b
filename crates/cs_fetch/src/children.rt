ghost use Rattle.std.specs.Prelude.{◌≡◌, [], ◌∷◌, map, IfOk, OnOk};
ghost use Rattle.std.specs.Option.{option_or};
ghost use Rattle.std.specs.Ordering.{nat_cmp, is_eq};
ghost use Rattle.std.specs.Cmp.Lexicographic.{slice_cmp};
ghost use Rattle.cs_fetch.specs.Breach.{only_if, are_same, is_token_among, first_differing, first_with_parents, first_without, has_some, children_breach, too_many};
ghost use Rattle.cs_fetch.specs.Keeping.{parents_of, keep_children, has_new_child};
ghost use Rattle.cs_link.specs.Reading.{new_child};
ghost use Rattle.cs_fetch.specs.Taking.{listed_of, is_new, is_differing};

use crate::listing::{Listed, Listing};
use crate::taken::either;
use cs_link::{Breach, NewChild};
use cs_records::Child;
use cs_types::{Duplicate, Items, Memory, Stamp, Token};

/// The most children of one READ.
const MOST_CHILDREN: u64 = 65_536;

/// Whether both are the same tokens in the same order.
fn are_same(a: &Items<Token>, b: &Items<Token>) -> bool
    ensures { result ≡ are_same a.now b.now }
{
    a.cmp(b).is_eq()
}

fn is_same(a: &Token, b: &Token) -> bool
    ensures { result ≡ is_eq (slice_cmp nat_cmp a.now b.now) }
{
    a.cmp(b).is_eq()
}

fn is_among(tokens: &[Token], token: &Token) -> bool
    ensures { result ≡ is_token_among tokens.now token.now }
{
    for one in tokens {
        if is_same(token, one) {
            return true;
        }
    }
    false
}

fn has_some(tokens: &[Token]) -> bool
    ensures { result ≡ has_some tokens.now }
{
    let [] = tokens else {
        return true;
    };
    false
}

/// The first child that has parents.
fn first_with_parents(children: &[Child]) -> Result<Option<Token>, Memory>
    ensures { IfOk result (λ token. token ≡ first_with_parents children.now) }
{
    for child in children {
        if has_some(child.parents.as_slice()) {
            return Ok(Some(child.token.copy()?));
        }
    }
    Ok(None)
}

/// The first child whose parents have not the token.
fn first_without(part: &Token, children: &[Child]) -> Result<Option<Token>, Memory>
    ensures { IfOk result (λ token. token ≡ first_without part.now children.now) }
{
    for child in children {
        if !is_among(child.parents.as_slice(), part) {
            return Ok(Some(child.token.copy()?));
        }
    }
    Ok(None)
}

/// Lists a child where its token is new.
fn list_one(listing: &mut Listing, start: Stamp, child: &Child) -> Result<Listed, Memory>
    ensures listed { IfOk result (λ listed. listed ≡ listed_of (parents_of child.now.token listing.old) child.now.parents) }
    ensures children { OnOk result (listing.new ≡ keep_children listing.old (new_child start child.now ∷ [])) }
{
    if let Some(parents) = listing.parents_of(&child.token) {
        if are_same(parents, &child.parents) {
            return Ok(Listed::Same);
        }
        return Ok(Listed::Differs);
    }
    listing.add(NewChild {
        token: child.token.copy()?,
        parents: child.parents.copy()?,
        start,
    })?;
    Ok(Listed::New)
}

/// What became of the children of a record.
#[derive(Debug, Drop)]
pub(crate) struct ListedAll {
    /// Whether one of them was new.
    pub some: bool,
    /// The first one that was listed before with other parents.
    pub differing: Option<Token>,
}

/// Lists those children whose tokens are new.
pub(crate) fn list_all(
    listing: &mut Listing,
    start: Stamp,
    children: &[Child],
) -> Result<ListedAll, Memory>
    ensures some { IfOk result (λ all. all.some ≡ has_new_child listing.old children.now) }
    ensures differing { IfOk result (λ all. all.differing ≡ first_differing listing.old start children.now) }
    ensures children { OnOk result (listing.new ≡ keep_children listing.old (map (new_child start) children.now)) }
{
    let mut some = false;
    let mut differing = None;
    for child in children {
        let listed = list_one(listing, start, child)?;
        some = either(some, is_new(listed));
        differing = or_differing(differing, listed, child)?;
    }
    Ok(ListedAll { some, differing })
}

fn is_new(listed: Listed) -> bool
    ensures { result ≡ is_new listed }
{
    match listed {
        Listed::New => true,
        Listed::Same | Listed::Differs => false,
    }
}

/// The token that differs, or else that of the child, where it differs.
fn or_differing(
    differing: Option<Token>,
    listed: Listed,
    child: &Child,
) -> Result<Option<Token>, Memory>
    ensures { IfOk result (λ token. token ≡ option_or differing (only_if (is_differing listed) child.now.token)) }
{
    if let Some(token) = differing {
        return Ok(Some(token));
    }
    match listed {
        Listed::New | Listed::Same => Ok(None),
        Listed::Differs => Ok(Some(child.token.copy()?)),
    }
}

/// What so many children break.
pub(crate) fn too_many(children: &[NewChild]) -> Option<Breach>
    ensures { result ≡ too_many children.now }
{
    let count = children.len() as u64;
    if MOST_CHILDREN < count {
        return Some(Breach::TooManyChildren(count, MOST_CHILDREN));
    }
    None
}

/// What the children of a record break, of which this is the first that differs.
pub(crate) fn children_breach(
    part: &Option<Token>,
    differing: Option<Token>,
    children: &[Child],
) -> Result<Option<Breach>, Memory>
    ensures { IfOk result (λ breach. breach ≡ children_breach part.now differing children.now) }
{
    let Some(part) = part else {
        return match first_with_parents(children)? {
            None => Ok(None),
            Some(token) => Ok(Some(Breach::ChildDiffers(token.copy()?, token))),
        };
    };
    if let Some(token) = differing {
        return Ok(Some(Breach::ChildDiffers(token.copy()?, token)));
    }
    match first_without(part, children)? {
        None => Ok(None),
        Some(token) => Ok(Some(Breach::ParentMissing(token, part.copy()?))),
    }
}
