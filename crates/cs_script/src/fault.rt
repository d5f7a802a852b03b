use cs_ddl::SyntaxFault;
use cs_partitions::LayoutFault;
use cs_schema::SchemaFault;
use cs_txn::TxnFault;
use cs_types::{Memory, StampFault, Text, ValueFault};
use std::alloc::{AllocError, AllocFailed};

/// Why a line of a script is refused. Where several hold, the first of them in this order is
/// answered, and of its kind the first in the order of the line: write by write, border by border,
/// and within each the members in the order in which they are listed. `Memory` may come before any
/// other.
#[derive(Debug, Drop)]
pub enum LineCause {
    /// The line is no JSON object in UTF-8.
    NotJson,
    /// The member of this name is absent, unknown or of a wrong kind, or has a value that it cannot
    /// have.
    Member(Text),
    /// `at` is no stamp.
    Stamp(StampFault),
    /// `at` is below that of the line before, or a statement or a reshape is not above all commits
    /// before it.
    Order,
    /// The text of `ddl` is no statement.
    Syntax(SyntaxFault),
    /// The catalog refuses the statement.
    Schema(SchemaFault),
    /// A write or a border names this table, or a reshape this stream, which is not there.
    NoTable(Text),
    /// A cell is of this column, which is not there, or a key has this column and should not, or
    /// has it not and should.
    NoColumn(Text),
    /// A cell's JSON stands for no value of its column's type.
    Value(ValueFault),
    /// The commits of this stamp would have more than 1,024 writes together.
    TooManyAtStamp,
    /// The history refuses the transaction.
    Txn(TxnFault),
    /// The stream's layout refuses the reshape.
    Layout(LayoutFault),
    /// `system` or `excluded` stands in a commit. It is tried before `Member`.
    NotBuilt,
    /// Want of memory.
    Memory,
}

impl LineCause {
    ghost use Rattle.std.specs.Prelude.{◌≡◌};
    ghost use Rattle.cs_script.specs.Readings.{is_memory};

    /// Whether it is want of memory.
    pub(crate) fn is_memory(&self) -> bool
        ensures { result ≡ is_memory self.now }
    {
        matches!(self, LineCause::Memory)
    }
}

impl From<Memory> for LineCause {
    ghost use Rattle.std.specs.Prelude.{◌≡◌};
    ghost use Rattle.cs_script.specs.declared.fault.LineCause.TheVariants.{Memory as memory};

    ghost from_gives = { λ _ e. e ≡ memory };

    fn from(_: Memory) -> LineCause {
        LineCause::Memory
    }
}

impl From<AllocError> for LineCause {
    ghost use Rattle.std.specs.Prelude.{◌≡◌};
    ghost use Rattle.cs_script.specs.declared.fault.LineCause.TheVariants.{Memory as memory};

    ghost from_gives = { λ _ e. e ≡ memory };

    fn from(_: AllocError) -> LineCause {
        LineCause::Memory
    }
}

impl<T: Drop> From<AllocFailed<T>> for LineCause {
    ghost use Rattle.std.specs.Prelude.{◌≡◌};
    ghost use Rattle.cs_script.specs.declared.fault.LineCause.TheVariants.{Memory as memory};

    ghost from_gives = { λ _ e. e ≡ memory };

    fn from(_: AllocFailed<T>) -> LineCause {
        LineCause::Memory
    }
}

/// Why a script was not read to its end.
#[derive(Debug, Drop)]
pub enum ScriptFault {
    /// A read of the source failed.
    SourceFault,
    /// The first bad line, by its number from 1, and why it is bad.
    Line(u64, LineCause),
    /// There are more than 67,108,864 bytes, and no line that ends within these is bad.
    TooLong,
    /// Want of memory.
    Memory,
}

impl From<Memory> for ScriptFault {
    ghost use Rattle.std.specs.Prelude.{◌≡◌};
    ghost use Rattle.cs_script.specs.declared.fault.ScriptFault.TheVariants.{Memory as memory};

    ghost from_gives = { λ _ e. e ≡ memory };

    fn from(_: Memory) -> ScriptFault {
        ScriptFault::Memory
    }
}

impl From<AllocError> for ScriptFault {
    ghost use Rattle.std.specs.Prelude.{◌≡◌};
    ghost use Rattle.cs_script.specs.declared.fault.ScriptFault.TheVariants.{Memory as memory};

    ghost from_gives = { λ _ e. e ≡ memory };

    fn from(_: AllocError) -> ScriptFault {
        ScriptFault::Memory
    }
}

impl From<AllocFailed<u8>> for ScriptFault {
    ghost use Rattle.std.specs.Prelude.{◌≡◌};
    ghost use Rattle.cs_script.specs.declared.fault.ScriptFault.TheVariants.{Memory as memory};

    ghost from_gives = { λ _ e. e ≡ memory };

    fn from(_: AllocFailed<u8>) -> ScriptFault {
        ScriptFault::Memory
    }
}
