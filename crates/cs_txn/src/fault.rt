use cs_types::{Memory, RowName, Text};
use std::alloc::{AllocError, AllocFailed};

/// Why a transaction is refused. Where several hold, the first of them in this order is answered,
/// and of its kind that of the first write, but for `Memory`, which may come before any other.
#[derive(Debug, Drop)]
pub enum TxnFault {
    /// An earlier transaction has the id.
    IdUsed,
    /// The stamp is below that of an earlier transaction.
    StampBack,
    /// Two writes name this row.
    RowTwice(RowName),
    /// An INSERT of this row, which is there.
    RowThere(RowName),
    /// An UPDATE or DELETE of this row, which is not there.
    NoRow(RowName),
    /// A cell of this column does not fit its type or length, or is NULL where it may not be.
    BadValue(Text),
    /// A write sets this column, which is one of the table's primary key.
    KeyColumnSet(Text),
    /// An earlier transaction of the same stamp, with this id, wrote one of the rows.
    SharedStampRow(Text),
    /// No table has this name.
    NoTable(Text),
    /// A write sets this column, which its table has not, or this is a column of the row's key and
    /// not of the table's, or the other way round.
    NoColumn(Text),
    /// This row would be larger than 65,536 bytes.
    RowTooLarge(RowName),
    /// The history would be larger than 134,217,728 bytes.
    HistoryFull,
    /// Want of memory.
    Memory,
}

impl From<Memory> for TxnFault {
    ghost use Rattle.std.specs.Prelude.{◌≡◌};
    ghost use Rattle.cs_txn.specs.declared.fault.TxnFault.TheVariants.{Memory as memory};

    ghost from_gives = { λ _ e. e ≡ memory };

    fn from(_: Memory) -> TxnFault {
        TxnFault::Memory
    }
}

impl From<AllocError> for TxnFault {
    ghost use Rattle.std.specs.Prelude.{◌≡◌};
    ghost use Rattle.cs_txn.specs.declared.fault.TxnFault.TheVariants.{Memory as memory};

    ghost from_gives = { λ _ e. e ≡ memory };

    fn from(_: AllocError) -> TxnFault {
        TxnFault::Memory
    }
}

impl<T: Drop> From<AllocFailed<T>> for TxnFault {
    ghost use Rattle.std.specs.Prelude.{◌≡◌};
    ghost use Rattle.cs_txn.specs.declared.fault.TxnFault.TheVariants.{Memory as memory};

    ghost from_gives = { λ _ e. e ≡ memory };

    fn from(_: AllocFailed<T>) -> TxnFault {
        TxnFault::Memory
    }
}
