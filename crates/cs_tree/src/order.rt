ghost use Rattle.std.specs.Prelude.{◌≡◌, [], IfOk, OnOk};
ghost use Rattle.std.specs.Ordering.{nat_cmp, is_lt};
ghost use Rattle.std.specs.Cmp.Lexicographic.{slice_cmp};
ghost use Rattle.cs_tree.specs.Order.{names, climbs, seek, put_entry, put_all};

use crate::{Entries, Entry};
use std::alloc::{AllocError, Global};
use std::cmp::Ordering;
use std::collections::BTreeMap;

/// How many entries in no order are put in their order by places in a list. More go through a map,
/// so that their order costs no more than the sorting of so many.
const FEW: usize = 32;

/// Entries as they stand in a text, put in byte order of their names; of a name that comes twice
/// the last. Names that rise already cost one walk.
pub(crate) fn in_order<'a, T: Drop>(
    alloc: Global,
    found: Vec<Entry<&'a str, T>>,
) -> Result<Entries<&'a str, T>, AllocError>
    ensures { IfOk result (λ es. es ≡ put_all [] found.entry.items) }
{
    if rises(found.as_slice()) {
        return Ok(Entries::rising(found));
    }
    let placed = ordered(alloc, found)?;
    Ok(Entries::rising(placed))
}

/// Whether each name is below the next.
fn rises<T>(items: &[Entry<&str, T>]) -> bool
    ensures { result ≡ climbs (names items.now) }
{
    let mut rest = items;
    while let [first, after @ ..] = rest {
        if let [second, ..] = after {
            if !is_below(first.name, second.name) {
                return false;
            }
        }
        rest = after;
    }
    true
}

fn is_below(one: &str, other: &str) -> bool
    ensures { result ≡ is_lt (slice_cmp nat_cmp one.now other.now) }
{
    one.cmp(other).is_lt()
}

fn ordered<'a, T: Drop>(
    alloc: Global,
    found: Vec<Entry<&'a str, T>>,
) -> Result<Vec<Entry<&'a str, T>>, AllocError>
    ensures { IfOk result (λ es. es.items ≡ put_all [] found.entry.items) }
{
    if found.len() <= FEW {
        by_places(alloc, found)
    } else {
        by_map(alloc, found)
    }
}

/// Puts each entry at its place in a list.
fn by_places<'a, T: Drop>(
    alloc: Global,
    found: Vec<Entry<&'a str, T>>,
) -> Result<Vec<Entry<&'a str, T>>, AllocError>
    ensures { IfOk result (λ es. es.items ≡ put_all [] found.entry.items) }
{
    let mut placed = Vec::new(alloc);
    for entry in found {
        put_in(&mut placed, entry)?;
    }
    Ok(placed)
}

/// Puts an entry at its place; where its name stands already, its tree takes the place of that one's.
fn put_in<'a, T: Drop>(
    placed: &mut Vec<Entry<&'a str, T>>,
    entry: Entry<&'a str, T>,
) -> Result<(), AllocError>
    ensures { OnOk result (placed.new.items ≡ put_entry entry.entry placed.old.items) }
{
    match place_of(placed.as_slice(), entry.name) {
        Ok(at) => placed[at].tree = entry.tree,
        Err(at) => placed.insert(at, entry)?,
    }
    Ok(())
}

/// The index at which a name stands, or else that of the first name above it.
fn place_of<T>(items: &[Entry<&str, T>], name: &str) -> Result<usize, usize>
    ensures { result ≡ seek name.now (names items.now) }
{
    let mut at = 0;
    for entry in items {
        match name.cmp(entry.name) {
            Ordering::Less => return Err(at),
            Ordering::Equal => return Ok(at),
            Ordering::Greater => at += 1,
        }
    }
    Err(at)
}

/// Puts the entries in a map, and takes them out of it in its order.
fn by_map<'a, T: Drop>(
    alloc: Global,
    found: Vec<Entry<&'a str, T>>,
) -> Result<Vec<Entry<&'a str, T>>, AllocError>
    ensures { IfOk result (λ es. es.items ≡ put_all [] found.entry.items) }
{
    let mut map = BTreeMap::new(alloc);
    for entry in found {
        drop(map.insert(entry.name, entry.tree)?);
    }
    let mut placed = Vec::new(alloc);
    for (name, tree) in map {
        placed.push(Entry { name, tree })?;
    }
    Ok(placed)
}
