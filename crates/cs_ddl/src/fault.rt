ghost use Rattle.std.specs.Prelude.{◌≡◌};
ghost use Rattle.cs_ddl.specs.declared.fault.Refusal.TheVariants.{Memory};
ghost use Rattle.cs_ddl.specs.declared.fault.SyntaxFault.TheVariants as faults;

use std::alloc::AllocError;
use std::fmt;

/// Why a text was not read.
#[derive(Debug, Drop)]
pub enum SyntaxFault {
    /// The place in bytes, from 0, of the first token with which no text of the grammar goes on,
    /// or the length of the text where it ends too early.
    At(usize),
    /// Want of memory.
    Memory,
}

/// The same, by how many tokens are left at the fault.
#[derive(Debug, Drop)]
pub(crate) enum Refusal {
    Left(usize),
    Memory,
}

impl fmt::Display for SyntaxFault {
    fn fmt<W: fmt::Write>(&self, f: &mut fmt::Formatter<W>) -> fmt::Result {
        match self {
            SyntaxFault::At(place) => write!(f, "the text is not understood from byte {place} on"),
            SyntaxFault::Memory => write!(f, "there is no memory left"),
        }
    }
}

impl From<AllocError> for Refusal {
    ghost from_gives = { λ _ e. e ≡ Memory };

    fn from(_e: AllocError) -> Refusal {
        Refusal::Memory
    }
}

impl From<AllocError> for SyntaxFault {
    ghost from_gives = { λ _ e. e ≡ faults.Memory };

    fn from(_e: AllocError) -> SyntaxFault {
        SyntaxFault::Memory
    }
}
