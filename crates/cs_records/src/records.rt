use crate::ColumnInfo;
use cs_types::{CaptureType, Cells, Duplicate, Items, Kind, Memory, Stamp, Text, Token};

/// What a data record tells of one row.
#[derive(Debug, Drop)]
pub struct Mod {
    /// The row's key.
    pub keys: Cells,
    /// Cells as they are after the write.
    pub new: Cells,
    /// Cells as they were before the write.
    pub old: Cells,
}

impl Duplicate for Mod {
    fn copy(&self) -> Result<Mod, Memory> {
        Ok(Mod {
            keys: self.keys.copy()?,
            new: self.new.copy()?,
            old: self.old.copy()?,
        })
    }
}

/// A data change record: changes of one transaction, table and kind, which tell of the same
/// columns
/// (<https://cloud.google.com/spanner/docs/change-streams/details#data-change-records>).
#[derive(Debug, Drop)]
pub struct DataRecord {
    /// The moment at which the transaction committed.
    pub stamp: Stamp,
    /// The record's place among the records of its transaction and part.
    pub sequence: u32,
    /// The transaction's id.
    pub tx: Text,
    /// Whether it is the last record of its transaction in its part.
    pub is_last: bool,
    /// The table that was written.
    pub table: Text,
    /// The key columns and the columns of the cells, by ordinal.
    pub columns: Items<ColumnInfo>,
    /// What was written, row by row.
    pub mods: Items<Mod>,
    /// What the writes did to their rows.
    pub kind: Kind,
    /// The stream's capture type.
    pub capture: CaptureType,
    /// The number of data change records of the transaction, over all parts.
    pub records_in_tx: u64,
    /// The number of parts that have a data change record of the transaction.
    pub parts_in_tx: u64,
    /// The tag of the transaction, which may be empty.
    pub tag: Text,
    /// Whether the transaction is one of the system.
    pub system: bool,
}

impl Duplicate for DataRecord {
    fn copy(&self) -> Result<DataRecord, Memory> {
        Ok(DataRecord {
            stamp: self.stamp,
            sequence: self.sequence,
            tx: self.tx.copy()?,
            is_last: self.is_last,
            table: self.table.copy()?,
            columns: self.columns.copy()?,
            mods: self.mods.copy()?,
            kind: self.kind,
            capture: self.capture,
            records_in_tx: self.records_in_tx,
            parts_in_tx: self.parts_in_tx,
            tag: self.tag.copy()?,
            system: self.system,
        })
    }
}

/// A part that goes on from where its parents end.
#[derive(Debug, Drop)]
pub struct Child {
    /// The part's token.
    pub token: Token,
    /// The tokens of the parts before it; none for a part that a stream begins with.
    pub parents: Items<Token>,
}

impl Duplicate for Child {
    fn copy(&self) -> Result<Child, Memory> {
        Ok(Child {
            token: self.token.copy()?,
            parents: self.parents.copy()?,
        })
    }
}

/// A child partitions record: the parts that go on from the one that was read
/// (<https://cloud.google.com/spanner/docs/change-streams/details#child-partitions-records>).
#[derive(Debug, Drop)]
pub struct ChildRecord {
    /// The moment from which on the children hold changes.
    pub start: Stamp,
    /// The record's place among the child partitions records of its start.
    pub sequence: u32,
    /// The children.
    pub children: Items<Child>,
}

impl Duplicate for ChildRecord {
    fn copy(&self) -> Result<ChildRecord, Memory> {
        Ok(ChildRecord {
            start: self.start,
            sequence: self.sequence,
            children: self.children.copy()?,
        })
    }
}

/// A record of a change stream.
#[derive(Debug, Drop)]
pub enum Record {
    /// Changes.
    Change(DataRecord),
    /// All changes before this moment were told
    /// (<https://cloud.google.com/spanner/docs/change-streams/details#heartbeat-records>).
    Heartbeat(Stamp),
    /// The parts that go on from this one.
    Children(ChildRecord),
}

impl Duplicate for Record {
    fn copy(&self) -> Result<Record, Memory> {
        match self {
            Record::Change(item) => Ok(Record::Change(item.copy()?)),
            Record::Heartbeat(moment) => Ok(Record::Heartbeat(*moment)),
            Record::Children(item) => Ok(Record::Children(item.copy()?)),
        }
    }
}
