use cs_device::Failed;
use cs_types::Memory;

/// Why a file was not made to hold its text.
#[derive(Clone, Copy, Debug, PartialEq, Eq)]
pub enum RedoFault {
    /// A call of the disk failed.
    DiskFault,
    /// There is no room in memory.
    Memory,
}

impl From<Failed> for RedoFault {
    ghost use Rattle.std.specs.Prelude.{◌≡◌};
    ghost use Rattle.cs_redo.specs.declared.fault.RedoFault.TheVariants.{DiskFault};

    ghost from_gives = { λ _ e. e ≡ DiskFault };

    fn from(_: Failed) -> RedoFault {
        RedoFault::DiskFault
    }
}

impl From<Memory> for RedoFault {
    ghost use Rattle.std.specs.Prelude.{◌≡◌};
    ghost use Rattle.cs_redo.specs.declared.fault.RedoFault.TheVariants.{Memory};

    ghost from_gives = { λ _ e. e ≡ Memory };

    fn from(_: Memory) -> RedoFault {
        RedoFault::Memory
    }
}
