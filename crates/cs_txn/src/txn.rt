use cs_types::{Cells, Duplicate, Items, Kind, Memory, RowName, Stamp, Text};

/// One write of a transaction, to one row.
#[derive(Debug, Drop)]
pub struct Write {
    /// What it does to the row.
    pub kind: Kind,
    /// The row.
    pub row: RowName,
    /// The cells that it sets, of columns that are no key columns; none for a DELETE.
    pub set: Cells,
}

impl Duplicate for Write {
    fn copy(&self) -> Result<Write, Memory> {
        Ok(Write {
            kind: self.kind,
            row: self.row.copy()?,
            set: self.set.copy()?,
        })
    }
}

/// A transaction that is to commit.
#[derive(Debug, Drop)]
pub struct Txn {
    /// The moment of its commit.
    pub stamp: Stamp,
    /// Its id.
    pub tx: Text,
    /// Its tag.
    pub tag: Text,
    /// Its writes. One without any leaves no trace in a history.
    pub writes: Items<Write>,
}

impl Duplicate for Txn {
    fn copy(&self) -> Result<Txn, Memory> {
        Ok(Txn {
            stamp: self.stamp,
            tx: self.tx.copy()?,
            tag: self.tag.copy()?,
            writes: self.writes.copy()?,
        })
    }
}

/// What a committed write did to its row.
#[derive(Debug, Drop)]
pub struct Modification {
    /// The moment of the commit.
    pub stamp: Stamp,
    /// The transaction's id.
    pub tx: Text,
    /// The transaction's tag.
    pub tag: Text,
    /// What the write did.
    pub kind: Kind,
    /// The row.
    pub row: RowName,
    /// The columns that the write named, in rising byte order.
    pub named: Items<Text>,
    /// A cell for each column that is no key column, as before the write; none where the row was
    /// absent.
    pub before: Cells,
    /// The like, as after the write.
    pub after: Cells,
}

impl Duplicate for Modification {
    fn copy(&self) -> Result<Modification, Memory> {
        Ok(Modification {
            stamp: self.stamp,
            tx: self.tx.copy()?,
            tag: self.tag.copy()?,
            kind: self.kind,
            row: self.row.copy()?,
            named: self.named.copy()?,
            before: self.before.copy()?,
            after: self.after.copy()?,
        })
    }
}
