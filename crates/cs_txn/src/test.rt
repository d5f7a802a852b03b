/// What the catalog is asked about each write of a transaction, in this order.
#[derive(Clone, Copy)]
pub(crate) enum Test {
    /// Whether its values may stand in their columns.
    Values,
    /// Whether it sets no key column.
    Set,
    /// Whether its table is there.
    Tables,
    /// Whether its columns are there, and its row has just the key columns.
    Columns,
}
