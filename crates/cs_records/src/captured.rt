use cs_types::{CaptureType, Change, ColumnType, Duplicate, Items, Memory, Text};

/// What is told of a column of a captured change.
#[derive(Debug, Drop)]
pub struct ColumnInfo {
    /// Its name.
    pub name: Text,
    /// Its type.
    pub ty: ColumnType,
    /// Whether it is a column of the table's primary key.
    pub is_key: bool,
    /// Its place among the table's columns, from 1.
    pub ordinal: u32,
}

impl Duplicate for ColumnInfo {
    fn copy(&self) -> Result<ColumnInfo, Memory> {
        Ok(ColumnInfo {
            name: self.name.copy()?,
            ty: self.ty,
            is_key: self.is_key,
            ordinal: self.ordinal,
        })
    }
}

/// A change as a stream captures it.
#[derive(Debug, Drop)]
pub struct Captured {
    /// The change, with the cells that the stream's capture type gives.
    pub change: Change,
    /// The key columns and the columns of the change's cells, by ordinal.
    pub columns: Items<ColumnInfo>,
    /// The stream's capture type.
    pub capture: CaptureType,
    /// The tag of its transaction, which may be empty.
    pub tag: Text,
    /// Whether its transaction is one of the system.
    pub system: bool,
}

impl Duplicate for Captured {
    fn copy(&self) -> Result<Captured, Memory> {
        Ok(Captured {
            change: self.change.copy()?,
            columns: self.columns.copy()?,
            capture: self.capture,
            tag: self.tag.copy()?,
            system: self.system,
        })
    }
}
