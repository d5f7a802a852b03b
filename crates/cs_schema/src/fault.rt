use cs_types::{Memory, Text};
use std::fmt;

/// Why a statement is refused. Where several hold, the first of them in this order is answered,
/// but for `Memory`, which may come before any other.
#[derive(Debug, Drop)]
pub enum SchemaFault {
    /// A table to be made has the name of one that is there.
    TableThere,
    /// No table has this name.
    NoTable(Text),
    /// A key or a watch names this column, which is not there.
    NoColumn(Text),
    /// A watch lists this column, which is one of the table's primary key.
    KeyListed(Text),
    /// The columns of a table, a key or a list of a watch have this name twice.
    ColumnTwice(Text),
    /// A stream to be made has the name of one that is there.
    StreamThere,
    /// A stream to be changed is not there.
    NoStream,
    /// There would be more streams than this.
    TooManyStreams(u32),
    /// More streams than this would watch this column, which is no key column.
    ColumnWatched(Text, u32),
    /// The option of this name is unknown, stands twice or has a value that it does not take.
    BadOption(Text),
    /// The retention is not `Nh` from 24 to 168 or `Nd` from 1 to 7.
    BadRetention,
    /// The statement, or an option of it, is not built.
    NotBuilt,
    /// A watch names this table twice.
    ItemTwice(Text),
    /// A table would have more columns than this.
    TooManyColumns(u32),
    /// A length is outside of 1 to 2,621,440 (STRING) or 1 to 10,485,760 (BYTES).
    BadLength,
    /// Want of memory.
    Memory,
}

impl From<Memory> for SchemaFault {
    ghost use Rattle.std.specs.Prelude.{◌≡◌};
    ghost use Rattle.cs_schema.specs.declared.fault.SchemaFault.TheVariants.{Memory as memory};

    ghost from_gives = { λ _ e. e ≡ memory };

    fn from(_: Memory) -> SchemaFault {
        SchemaFault::Memory
    }
}

impl fmt::Display for SchemaFault {
    fn fmt<W: fmt::Write>(&self, f: &mut fmt::Formatter<W>) -> fmt::Result {
        match self {
            SchemaFault::TableThere => write!(f, "a table of this name is there"),
            SchemaFault::NoTable(name) => of_name(f, "there is no table ", name),
            SchemaFault::NoColumn(name) => of_name(f, "there is no column ", name),
            SchemaFault::KeyListed(name) => of_name(f, "a watch lists the key column ", name),
            SchemaFault::ColumnTwice(name) => of_name(f, "a list has twice the column ", name),
            SchemaFault::StreamThere => write!(f, "a stream of this name is there"),
            SchemaFault::NoStream => write!(f, "there is no stream of this name"),
            SchemaFault::TooManyStreams(most) => write!(f, "more than {most} streams"),
            SchemaFault::ColumnWatched(name, most) => crowded(f, name, *most),
            SchemaFault::BadOption(name) => of_name(
                f,
                "unknown, twice or of a wrong value: ",
                name,
            ),
            SchemaFault::BadRetention => write!(f, "a retention is 24h to 168h or 1d to 7d"),
            SchemaFault::NotBuilt => write!(f, "this statement or option is not built"),
            SchemaFault::ItemTwice(table) => of_name(f, "a watch has twice the table ", table),
            SchemaFault::TooManyColumns(most) => write!(f, "more than {most} columns"),
            SchemaFault::BadLength => write!(f, "a length is 1 to 2621440, of BYTES to 10485760"),
            SchemaFault::Memory => write!(f, "want of memory"),
        }
    }
}

fn of_name<W: fmt::Write>(f: &mut fmt::Formatter<W>, words: &str, name: &Text) -> fmt::Result {
    f.write_str(words)?;
    f.write_str(name.as_str())
}

fn crowded<W: fmt::Write>(f: &mut fmt::Formatter<W>, name: &Text, most: u32) -> fmt::Result {
    write!(f, "more than {most} streams would watch the column ")?;
    f.write_str(name.as_str())
}
