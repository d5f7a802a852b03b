use cs_link::ReadRefusal;
use cs_types::Memory;
use std::alloc::AllocError;

/// Why a READ is not answered.
#[derive(Debug, Drop)]
pub enum ReadFault {
    /// It is refused. The refusals are numbered in the order in which they are tried.
    Refused(ReadRefusal),
    /// There was not enough memory. It may come before any refusal.
    Memory,
}

impl From<Memory> for ReadFault {
    ghost use Rattle.std.specs.Prelude.{◌≡◌};
    ghost use Rattle.cs_steps.specs.declared.fault.ReadFault.TheVariants.{Memory as memory};

    ghost from_gives = { λ _ e. e ≡ memory };

    fn from(_: Memory) -> ReadFault {
        ReadFault::Memory
    }
}

impl From<AllocError> for ReadFault {
    ghost use Rattle.std.specs.Prelude.{◌≡◌};
    ghost use Rattle.cs_steps.specs.declared.fault.ReadFault.TheVariants.{Memory as memory};

    ghost from_gives = { λ _ e. e ≡ memory };

    fn from(_: AllocError) -> ReadFault {
        ReadFault::Memory
    }
}
