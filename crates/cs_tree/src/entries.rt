ghost use Rattle.std.specs.Prelude.{◌≡◌, length};
ghost use Rattle.cs_tree.specs.Order.{IsRising};

use std::marker::Model;

/// A tree under its name.
#[derive(Drop)]
pub struct Entry<N, T> {
    /// The name.
    pub name: N,
    /// The tree.
    pub tree: T,
}

/// Trees under names, in rising order of the names, no two of which are the same.
#[derive(Drop)]
pub struct Entries<N: Ord, T> {
    items: Vec<Entry<N, T>>,
}

impl<N: Ord, T> Model for Entries<N, T> {
    ghost use Rattle.std.specs.Prelude.{List, map};
    ghost use Rattle.std.specs.List.Sorted.{IsStrictlySortedBy};
    ghost use Rattle.cs_tree.specs.declared.entries.Entry.{Entry};

    ghost Value = { List (Entry N T) };

    ghost view = { λ it. it.items.items };

    ghost invariant = { λ it. IsStrictlySortedBy N.cmp (map (λ e. e.name) it.items.items) };
}

impl<'a, T> Entries<&'a str, T> {
    /// Entries that stand in their order already.
    pub(crate) fn rising(items: Vec<Entry<&'a str, T>>) -> Entries<&'a str, T>
        requires { IsRising items.items }
        ensures { result ≡ items.entry.items }
    {
        Entries { items }
    }

    /// The entries, in rising order of their names.
    pub fn as_slice(&self) -> &[Entry<&'a str, T>]
        ensures entries { result.now ≡ self.now }
        ensures rising { IsRising self.now }
    {
        self.items.as_slice()
    }

    /// How many there are.
    pub fn len(&self) -> usize
        ensures { result ≡ length self.now }
    {
        self.items.len()
    }
}
