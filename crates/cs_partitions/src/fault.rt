use cs_types::{Duplicate, Memory, Token};
use std::alloc::{AllocError, AllocFailed};
use std::fmt;

/// Why a reshape is refused. Where several hold, the first of them in this order is answered, and
/// of its kind that of the first token, but for `Memory`, which may come before any other.
#[derive(Debug, Drop)]
pub enum LayoutFault {
    /// No part of the stream has this token.
    NoPart(Token),
    /// The part of this token has ended.
    NotLive(Token),
    /// No part is named, or one does not begin where the one named before it ends.
    NotNeighbours,
    /// A border is not strictly inside of the range that the named parts have together.
    BorderOutside,
    /// A border is not above the one before it.
    BordersNotRising,
    /// The moment is not above the first moment of each named part.
    StampNotAfter,
    /// The stream would have more parts than this.
    TooManyParts(u32),
    /// More parts than this are named or made.
    TooWide(u32),
    /// Want of memory.
    Memory,
}

impl Duplicate for LayoutFault {
    fn copy(&self) -> Result<LayoutFault, Memory> {
        Ok(match self {
            LayoutFault::NoPart(token) => LayoutFault::NoPart(token.copy()?),
            LayoutFault::NotLive(token) => LayoutFault::NotLive(token.copy()?),
            LayoutFault::NotNeighbours => LayoutFault::NotNeighbours,
            LayoutFault::BorderOutside => LayoutFault::BorderOutside,
            LayoutFault::BordersNotRising => LayoutFault::BordersNotRising,
            LayoutFault::StampNotAfter => LayoutFault::StampNotAfter,
            LayoutFault::TooManyParts(most) => LayoutFault::TooManyParts(*most),
            LayoutFault::TooWide(most) => LayoutFault::TooWide(*most),
            LayoutFault::Memory => LayoutFault::Memory,
        })
    }
}

impl fmt::Display for LayoutFault {
    fn fmt<W: fmt::Write>(&self, f: &mut fmt::Formatter<W>) -> fmt::Result {
        match self {
            LayoutFault::NoPart(token) => of_token(f, "there is no part ", token),
            LayoutFault::NotLive(token) => of_token(f, "this part has ended: ", token),
            LayoutFault::NotNeighbours => write!(f, "the parts are no neighbours in order"),
            LayoutFault::BorderOutside => write!(f, "a border is not inside of the parts' range"),
            LayoutFault::BordersNotRising => write!(f, "the borders do not rise"),
            LayoutFault::StampNotAfter => write!(f, "the moment is not above the parts' first"),
            LayoutFault::TooManyParts(most) => write!(
                f,
                "the stream would have more than {most} parts"
            ),
            LayoutFault::TooWide(most) => write!(f, "more than {most} parts are named or made"),
            LayoutFault::Memory => write!(f, "want of memory"),
        }
    }
}

/// The bytes of a token are ASCII.
fn of_token<W: fmt::Write>(f: &mut fmt::Formatter<W>, words: &str, token: &Token) -> fmt::Result {
    f.write_str(words)?;
    for byte in token.bytes() {
        f.write_char(char::from(*byte))?;
    }
    Ok(())
}

impl From<Memory> for LayoutFault {
    ghost use Rattle.std.specs.Prelude.{◌≡◌};
    ghost use Rattle.cs_partitions.specs.declared.fault.LayoutFault.TheVariants.{Memory as memory};

    ghost from_gives = { λ _ e. e ≡ memory };

    fn from(_: Memory) -> LayoutFault {
        LayoutFault::Memory
    }
}

impl From<AllocError> for LayoutFault {
    ghost use Rattle.std.specs.Prelude.{◌≡◌};
    ghost use Rattle.cs_partitions.specs.declared.fault.LayoutFault.TheVariants.{Memory as memory};

    ghost from_gives = { λ _ e. e ≡ memory };

    fn from(_: AllocError) -> LayoutFault {
        LayoutFault::Memory
    }
}

impl<T: Drop> From<AllocFailed<T>> for LayoutFault {
    ghost use Rattle.std.specs.Prelude.{◌≡◌};
    ghost use Rattle.cs_partitions.specs.declared.fault.LayoutFault.TheVariants.{Memory as memory};

    ghost from_gives = { λ _ e. e ≡ memory };

    fn from(_: AllocFailed<T>) -> LayoutFault {
        LayoutFault::Memory
    }
}
