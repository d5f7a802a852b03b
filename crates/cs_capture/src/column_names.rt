ghost use Rattle.std.specs.Prelude.{◌≡◌, [], IfOk};
ghost use Rattle.cs_types.specs.Names.{is_among};

use cs_types::{Duplicate, Items, Memory, Names, Text, is_among};
use std::alloc::Global;
use std::marker::Model;

/// How many names are searched one after another.
const FEW: usize = 16;

/// Names of columns, which contracts see as their list. One of a few is found by a walk, and one of
/// many in the time of a search.
#[derive(Drop)]
pub(crate) struct ColumnNames<'a> {
    list: &'a [Text],
    set: Option<Names>,
}

impl<'a> Model for ColumnNames<'a> {
    ghost use Rattle.std.specs.Prelude.{◌≡◌, List, ℕ, IfSome};

    ghost Value = { List (List ℕ) };

    ghost view = { λ n. n.list.now };

    ghost invariant = { λ n. IfSome n.set (λ s. s ≡ n.list.now) };
}

impl<'a> ColumnNames<'a> {
    /// No name. It takes no memory.
    pub(crate) fn none() -> ColumnNames<'a>
        ensures { result ≡ [] }
    {
        ColumnNames {
            list: &[],
            set: None,
        }
    }

    /// These names. A few take no memory.
    pub(crate) fn of(alloc: Global, names: &'a Items<Text>) -> Result<ColumnNames<'a>, Memory>
        ensures { IfOk result (λ n. n ≡ names.now) }
    {
        let list = names.as_slice();
        if list.len() <= FEW {
            return Ok(ColumnNames { list, set: None });
        }
        let set = Some(Names::of(alloc, names.copy()?)?);
        Ok(ColumnNames { list, set })
    }

    /// Whether a name is among them. It takes no memory.
    pub(crate) fn has(&self, name: &Text) -> bool
        ensures { result ≡ is_among name.now self.now }
    {
        match &self.set {
            Some(set) => set.has(name),
            None => is_among(name, self.list),
        }
    }
}
