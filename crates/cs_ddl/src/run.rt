ghost use Rattle.std.specs.Prelude.{◌≡◌, [], ◌∷◌, ◌++◌, IfOk, OnOk, OnErr};

use std::alloc::{AllocError, Global};
use std::marker::Model;

/// A tree of which an equal one can be made, in memory of the same allocator.
pub trait CopyTree {
    /// An equal tree.
    fn copy(&self) -> Result<Self, AllocError>
    where
        Self: Sized,
        ensures { IfOk result (λ x. x ≡ self.now) };
}

impl<T: CopyTree> CopyTree for Option<T> {
    fn copy(&self) -> Result<Option<T>, AllocError> {
        match self {
            Some(tree) => Ok(Some(tree.copy()?)),
            None => Ok(None),
        }
    }
}

/// Some trees in their order, which contracts see as their list.
#[derive(Debug, Drop)]
pub struct Run<T> {
    trees: Vec<T>,
}

impl<T> Model for Run<T> {
    ghost use Rattle.std.specs.Prelude.{List};
    ghost use Rattle.std.specs.Coded.{coded_list};

    ghost Value = { List T };

    ghost coded = { coded_list T.code };

    ghost view = { λ r. r.trees.items };
}

impl<T> Run<T> {
    /// No tree. It takes no memory.
    pub fn new(alloc: Global) -> Run<T>
        ensures { result ≡ [] }
    {
        Run {
            trees: Vec::new(alloc),
        }
    }

    /// The trees in their order.
    pub fn as_slice(&self) -> &[T]
        ensures { result.now ≡ self.now }
    {
        self.trees.as_slice()
    }
}

impl<T: Drop> Run<T> {
    /// Puts one tree behind the others. After an error the run is what it was.
    pub fn push(&mut self, tree: T) -> Result<(), AllocError>
        ensures ok { OnOk result (self.new ≡ self.old ++ tree ∷ []) }
        ensures err { OnErr result (self.new ≡ self.old) }
    {
        match self.trees.push(tree) {
            Ok(()) => Ok(()),
            Err(_refused) => Err(AllocError),
        }
    }
}

impl<T: CopyTree + Drop> CopyTree for Run<T> {
    fn copy(&self) -> Result<Run<T>, AllocError> {
        let mut run = Run::new(*self.trees.allocator());
        for tree in self.trees.iter() {
            run.push(tree.copy()?)?;
        }
        Ok(run)
    }
}
