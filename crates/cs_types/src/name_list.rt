ghost use Rattle.std.specs.Prelude.{◌≡◌, IfOk};
ghost use Rattle.cs_types.specs.Names.{is_among, HoldsNames};

use crate::{Duplicate, Items, Memory, Text};
use std::alloc::Global;
use std::collections::BTreeMap;
use std::marker::Model;

/// Whether a name stands in a list of names. It looks at one after another, and takes no memory.
pub fn is_among(name: &Text, names: &[Text]) -> bool
    ensures { result ≡ is_among name.now names.now }
{
    for one in names {
        if one.is(name) {
            return true;
        }
    }
    false
}

/// A list of names, of which one is found in the time of a search.
#[derive(Debug, Drop)]
pub struct Names {
    list: Items<Text>,
    set: BTreeMap<Text, ()>,
}

impl Model for Names {
    ghost use Rattle.std.specs.Prelude.{List, ℕ};
    ghost use Rattle.cs_types.specs.Names.{HoldsNames};

    ghost Value = { List (List ℕ) };

    ghost view = { λ n. n.list };

    ghost invariant = { λ n. HoldsNames n.list n.set };
}

impl Names {
    /// These names.
    pub fn of(alloc: Global, list: Items<Text>) -> Result<Names, Memory>
        ensures { IfOk result (λ n. n ≡ list) }
    {
        let set = set_of(alloc, list.as_slice())?;
        Ok(Names { list, set })
    }

    /// The names in their order.
    pub fn as_slice(&self) -> &[Text]
        ensures { result.now ≡ self.now }
    {
        self.list.as_slice()
    }

    /// Whether a name is among them. It takes no memory.
    pub fn has(&self, name: &Text) -> bool
        ensures { result ≡ is_among name.now self.now }
    {
        self.set.contains_key(name)
    }
}

fn set_of(alloc: Global, names: &[Text]) -> Result<BTreeMap<Text, ()>, Memory>
    ensures { IfOk result (λ s. HoldsNames names.now s) }
{
    let mut set = BTreeMap::new(alloc);
    for name in names {
        set.insert(name.copy()?, ())?;
    }
    Ok(set)
}
