use cs_types::{Duplicate, Memory, RowName, Text};
use std::alloc::{AllocError, AllocFailed};

/// Why a line is no record. The refusals are numbered in the order in which they are tried.
#[derive(Debug, Drop)]
pub enum LineFault {
    /// 1: the line is not JSON.
    NotJson,
    /// 2: a required member, which is named, is not there.
    Member(Text),
    /// 3: the three arrays of a line have not one element between them.
    ArrayCount,
    /// 4: the member, column or array that is named has a value that it cannot have.
    BadValue(Text),
    /// 5: the line is longer than a line may be.
    TooLong,
    /// There was not enough memory. It has no number.
    Memory,
}

impl Duplicate for LineFault {
    fn copy(&self) -> Result<LineFault, Memory> {
        match self {
            LineFault::NotJson => Ok(LineFault::NotJson),
            LineFault::Member(name) => Ok(LineFault::Member(name.copy()?)),
            LineFault::ArrayCount => Ok(LineFault::ArrayCount),
            LineFault::BadValue(name) => Ok(LineFault::BadValue(name.copy()?)),
            LineFault::TooLong => Ok(LineFault::TooLong),
            LineFault::Memory => Ok(LineFault::Memory),
        }
    }
}

impl From<Memory> for LineFault {
    ghost use Rattle.std.specs.Prelude.{◌≡◌};
    ghost use Rattle.cs_records.specs.declared.faults.LineFault.TheVariants.{Memory as memory};

    ghost from_gives = { λ _ e. e ≡ memory };

    fn from(_: Memory) -> LineFault {
        LineFault::Memory
    }
}

impl From<AllocError> for LineFault {
    ghost use Rattle.std.specs.Prelude.{◌≡◌};
    ghost use Rattle.cs_records.specs.declared.faults.LineFault.TheVariants.{Memory as memory};

    ghost from_gives = { λ _ e. e ≡ memory };

    fn from(_: AllocError) -> LineFault {
        LineFault::Memory
    }
}

impl<T: Drop> From<AllocFailed<T>> for LineFault {
    ghost use Rattle.std.specs.Prelude.{◌≡◌};
    ghost use Rattle.cs_records.specs.declared.faults.LineFault.TheVariants.{Memory as memory};

    ghost from_gives = { λ _ e. e ≡ memory };

    fn from(_: AllocFailed<T>) -> LineFault {
        LineFault::Memory
    }
}

/// Why a data record's mods are no changes.
#[derive(Debug, Drop)]
pub enum RecordFault {
    /// 1: the keys of a mod are not exactly the columns that are marked as key.
    KeyMissing(Text),
    /// 2: two mods are of this row.
    KeyTwice(RowName),
    /// There was not enough memory. It has no number.
    Memory,
}

impl Duplicate for RecordFault {
    fn copy(&self) -> Result<RecordFault, Memory> {
        match self {
            RecordFault::KeyMissing(column) => Ok(RecordFault::KeyMissing(column.copy()?)),
            RecordFault::KeyTwice(row) => Ok(RecordFault::KeyTwice(row.copy()?)),
            RecordFault::Memory => Ok(RecordFault::Memory),
        }
    }
}

impl From<Memory> for RecordFault {
    ghost use Rattle.std.specs.Prelude.{◌≡◌};
    ghost use Rattle.cs_records.specs.declared.faults.RecordFault.TheVariants.{Memory as memory};

    ghost from_gives = { λ _ e. e ≡ memory };

    fn from(_: Memory) -> RecordFault {
        RecordFault::Memory
    }
}

impl From<AllocError> for RecordFault {
    ghost use Rattle.std.specs.Prelude.{◌≡◌};
    ghost use Rattle.cs_records.specs.declared.faults.RecordFault.TheVariants.{Memory as memory};

    ghost from_gives = { λ _ e. e ≡ memory };

    fn from(_: AllocError) -> RecordFault {
        RecordFault::Memory
    }
}

impl<T: Drop> From<AllocFailed<T>> for RecordFault {
    ghost use Rattle.std.specs.Prelude.{◌≡◌};
    ghost use Rattle.cs_records.specs.declared.faults.RecordFault.TheVariants.{Memory as memory};

    ghost from_gives = { λ _ e. e ≡ memory };

    fn from(_: AllocFailed<T>) -> RecordFault {
        RecordFault::Memory
    }
}
