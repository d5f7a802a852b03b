use crate::{Duplicate, Memory, Text};
use std::alloc::AllocFailed;

/// Why a list of cells is no row's.
#[derive(Debug, Drop)]
pub enum CellsFault {
    /// The first column, in the order of the list, that an earlier cell has already.
    ColumnTwice(Text),
    /// The column of the first cell whose value is out of the range of its type.
    OutOfRange(Text),
    /// Want of memory.
    Memory,
}

impl Duplicate for CellsFault {
    fn copy(&self) -> Result<CellsFault, Memory> {
        Ok(match self {
            CellsFault::ColumnTwice(column) => CellsFault::ColumnTwice(column.copy()?),
            CellsFault::OutOfRange(column) => CellsFault::OutOfRange(column.copy()?),
            CellsFault::Memory => CellsFault::Memory,
        })
    }
}

impl From<Memory> for CellsFault {
    ghost use Rattle.std.specs.Prelude.{◌≡◌};
    ghost use Rattle.cs_types.specs.declared.cells_fault.CellsFault.TheVariants.{Memory as memory};

    ghost from_gives = { λ _ e. e ≡ memory };

    fn from(_: Memory) -> CellsFault {
        CellsFault::Memory
    }
}

impl<T: Drop> From<AllocFailed<T>> for CellsFault {
    ghost use Rattle.std.specs.Prelude.{◌≡◌};
    ghost use Rattle.cs_types.specs.declared.cells_fault.CellsFault.TheVariants.{Memory as memory};

    ghost from_gives = { λ _ e. e ≡ memory };

    fn from(_: AllocFailed<T>) -> CellsFault {
        CellsFault::Memory
    }
}
