ghost use Rattle.std.specs.Prelude.{◌≡◌, IfOk};

use crate::CopyTree;
use std::alloc::{AllocError, Global};
use std::marker::Model;

/// Some bytes of a text, which contracts see as their list: a name without its backquotes, what
/// stands between the quotes of a text, or a number as it is spelled.
#[derive(Debug, Drop)]
pub struct Word {
    bytes: Vec<u8>,
}

impl Model for Word {
    ghost use Rattle.std.specs.Prelude.{ℕ, List};

    ghost Value = { List ℕ };

    ghost view = { λ w. w.bytes.items };
}

impl Word {
    /// A word of its own with the same bytes.
    pub fn of(alloc: Global, bytes: &[u8]) -> Result<Word, AllocError>
        ensures { IfOk result (λ w. w ≡ bytes.now) }
    {
        Ok(Word {
            bytes: Vec::from_slice(alloc, bytes)?,
        })
    }

    /// The bytes.
    pub fn as_slice(&self) -> &[u8]
        ensures { result.now ≡ self.now }
    {
        self.bytes.as_slice()
    }
}

impl CopyTree for Word {
    fn copy(&self) -> Result<Word, AllocError> {
        Word::of(*self.bytes.allocator(), self.bytes.as_slice())
    }
}
