ghost use Rattle.std.specs.Prelude.{◌≡◌, [], ◌∷◌, ◌++◌, None, OnOk};
ghost use Rattle.std.specs.Option.{option_copied};
ghost use Rattle.cs_fetch.specs.Keeping.{parents_of};

use cs_link::NewChild;
use cs_types::{Duplicate, Items, Memory, Token};
use std::alloc::Global;
use std::collections::BTreeMap;
use std::marker::Model;
use std::mem;

/// What became of a child that a record names.
#[derive(Clone, Copy, Debug, PartialEq, Eq)]
pub(crate) enum Listed {
    /// It was not listed before.
    New,
    /// It was listed before, with the same parents.
    Same,
    /// It was listed before, with other parents.
    Differs,
}

/// The children of a READ, each once, of which one is found in the time of a search.
#[derive(Debug, Drop)]
pub(crate) struct Listing {
    children: Vec<NewChild>,
    parents: BTreeMap<Token, Items<Token>>,
}

impl Model for Listing {
    ghost use Rattle.std.specs.Prelude.{List};
    ghost use Rattle.cs_link.specs.declared.batch.NewChild.{NewChild};
    ghost use Rattle.cs_fetch.specs.Sets.{HoldsParents};

    ghost Value = { List NewChild };

    ghost view = { λ l. l.children.items };

    ghost invariant = { λ l. HoldsParents l.children.items l.parents };
}

impl Listing {
    /// No child. It takes no memory.
    pub(crate) fn new(alloc: Global) -> Listing
        ensures { result ≡ [] }
    {
        Listing {
            children: Vec::new(alloc),
            parents: BTreeMap::new(alloc),
        }
    }

    /// The children.
    pub(crate) fn as_slice(&self) -> &[NewChild]
        ensures { result.now ≡ self.now }
    {
        self.children.as_slice()
    }

    /// Takes the children out, and leaves none.
    pub(crate) fn take(&mut self, alloc: Global) -> Items<NewChild>
        ensures { result ≡ self.old }
    {
        self.parents = BTreeMap::new(alloc);
        Items::from_vec(mem::replace(&mut self.children, Vec::new(alloc)))
    }

    /// The parents with which the child was listed, if it was.
    pub(crate) fn parents_of(&self, token: &Token) -> Option<&Items<Token>>
        ensures { option_copied result ≡ parents_of token.now self.now }
    {
        self.parents.get(token)
    }

    /// Puts a child behind the others, of which none has its token.
    pub(crate) fn add(&mut self, child: NewChild) -> Result<(), Memory>
        requires { parents_of child.token self.old ≡ None }
        ensures { OnOk result (self.new ≡ self.old ++ child ∷ []) }
    {
        let token = child.token.copy()?;
        let parents = child.parents.copy()?;
        self.children.reserve(1)?;
        self.parents.insert(token, parents)?;
        match self.children.push(child) {
            Ok(()) => Ok(()),
            Err(_) => unreachable!(),
        }
    }
}
