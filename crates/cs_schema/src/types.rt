use crate::WatchList;
use cs_types::{CaptureType, ColumnType, Items, Names, Stamp, Text};

/// A column of a table.
#[derive(Debug, Drop)]
pub struct Column {
    /// Its name.
    pub name: Text,
    /// Its type.
    pub ty: ColumnType,
    /// The greatest length, in characters of a STRING and in bytes of BYTES; other types have none.
    pub limit: Option<u32>,
    /// Whether NOT NULL stands behind its type.
    pub not_null: bool,
}

/// A table.
#[derive(Debug, Drop)]
pub struct Table {
    /// Its name.
    pub name: Text,
    /// Its columns by ordinal, 1,024 at most.
    pub columns: Items<Column>,
    /// The names of the columns of its primary key, in order.
    pub key: Items<Text>,
}

/// A table that a stream watches.
#[derive(Debug, Drop)]
pub struct Watched {
    /// Its name.
    pub table: Text,
    /// The names of the watched columns that are no key columns; none stands for all of them.
    pub columns: Option<Names>,
}

/// What a stream watches.
#[derive(Debug, Drop)]
pub enum Watch {
    /// No table.
    Nothing,
    /// All columns of all tables, also of those that are made later.
    All,
    /// Some tables.
    Tables(WatchList),
}

/// A change stream.
#[derive(Debug, Drop)]
pub struct Stream {
    /// Its name.
    pub name: Text,
    /// What it watches.
    pub watch: Watch,
    /// What its changes give of a row.
    pub capture: CaptureType,
    /// How long its changes are kept, in microseconds.
    pub retention_us: u64,
    /// When it was made.
    pub created: Stamp,
}
