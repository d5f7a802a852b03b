ghost use Rattle.std.specs.Prelude.{◌≡◌, [], ◌∷◌, ◌++◌, cond, length, IfOk, OnOk};
ghost use Rattle.cs_fetch.specs.Keeping.{is_new, keep, has_new};
ghost use Rattle.cs_fetch.specs.Sets.{HoldsSeen, is_known_by};

use crate::dated::{Dated, dated_of};
use crate::taken::either;
use cs_link::{Known, Seen};
use cs_types::{Change, Duplicate, Items, Memory};
use std::alloc::Global;
use std::collections::BTreeSet;
use std::marker::Model;
use std::mem;

/// A list of seen changes, of which one is found in the time of a search.
#[derive(Debug, Drop)]
pub(crate) struct SeenSet {
    list: Items<Seen>,
    set: BTreeSet<Seen>,
}

impl Model for SeenSet {
    ghost use Rattle.std.specs.Prelude.{List};
    ghost use Rattle.cs_link.specs.declared.batch.Seen.{Seen};
    ghost use Rattle.cs_fetch.specs.Sets.{HoldsSeen};

    ghost Value = { List Seen };

    ghost view = { λ s. s.list };

    ghost invariant = { λ s. HoldsSeen s.list s.set };
}

impl SeenSet {
    pub(crate) fn of(alloc: Global, list: &Items<Seen>) -> Result<SeenSet, Memory>
        ensures { IfOk result (λ s. s ≡ list.now) }
    {
        let set = set_of(alloc, list.as_slice())?;
        Ok(SeenSet {
            list: list.copy()?,
            set,
        })
    }

    /// Whether a change is known, of which what stands after `through` is seen here.
    fn has(&self, through: u64, name: &Dated) -> bool
        ensures { result ≡ is_known_by through self.now name.now }
    {
        let stamp = name.stamp.us();
        if stamp <= through {
            return true;
        }
        if stamp != through + 1 {
            return false;
        }
        self.set.contains(&name.seen)
    }
}

fn set_of(alloc: Global, list: &[Seen]) -> Result<BTreeSet<Seen>, Memory>
    ensures { IfOk result (HoldsSeen list.now) }
{
    let mut set = BTreeSet::new(alloc);
    for one in list {
        set.insert(one.copy()?)?;
    }
    Ok(set)
}

/// The new changes of a READ, of which one is found in the time of a search.
#[derive(Debug, Drop)]
pub(crate) struct Kept {
    changes: Vec<Change>,
    names: BTreeSet<Dated>,
}

impl Model for Kept {
    ghost use Rattle.std.specs.Prelude.{List};
    ghost use Rattle.cs_types.specs.declared.change.Change.{Change};
    ghost use Rattle.cs_fetch.specs.Sets.{HoldsDated};

    ghost Value = { List Change };

    ghost view = { λ k. k.changes.items };

    ghost invariant = { λ k. HoldsDated k.changes.items k.names };
}

impl Kept {
    /// No change. It takes no memory.
    pub(crate) fn new(alloc: Global) -> Kept
        ensures { result ≡ [] }
    {
        Kept {
            changes: Vec::new(alloc),
            names: BTreeSet::new(alloc),
        }
    }

    /// Takes the changes out, and leaves none.
    pub(crate) fn take(&mut self, alloc: Global) -> Items<Change>
        ensures { result ≡ self.old }
    {
        self.names = BTreeSet::new(alloc);
        Items::from_vec(mem::replace(&mut self.changes, Vec::new(alloc)))
    }

    /// Puts a change behind the others where it is new, and answers whether it is.
    fn add(&mut self, known: &Known, seen: &SeenSet, change: &Change) -> Result<bool, Memory>
        requires { seen.now ≡ known.now.seen }
        ensures new { IfOk result (λ new. new ≡ is_new known.now self.old change.now) }
        ensures changes { OnOk result (self.new ≡ cond (is_new known.now self.old change.now) (self.old ++ change.now ∷ []) self.old) }
    {
        let name = dated_of(change)?;
        if seen.has(known.through, &name) {
            return Ok(false);
        }
        if self.names.contains(&name) {
            return Ok(false);
        }
        let copy = change.copy()?;
        self.changes.reserve(1)?;
        self.names.insert(name)?;
        match self.changes.push(copy) {
            Ok(()) => Ok(true),
            Err(_) => unreachable!(),
        }
    }

    /// Puts those of the changes behind the others that are new, and answers whether there is one.
    pub(crate) fn add_all(
        &mut self,
        known: &Known,
        seen: &SeenSet,
        changes: &[Change],
    ) -> Result<bool, Memory>
        requires { seen.now ≡ known.now.seen }
        ensures new { IfOk result (λ new. new ≡ has_new known.now self.old changes.now) }
        ensures changes { OnOk result (self.new ≡ keep known.now self.old changes.now) }
    {
        let mut some = false;
        for change in changes {
            let new = self.add(known, seen, change)?;
            some = either(some, new);
        }
        Ok(some)
    }
}
