use cs_types::Text;
use std::collections::BTreeSet;

/// The columns of the table that was written last, which its next write takes again.
#[derive(Drop)]
pub(crate) struct Free {
    /// The table.
    pub(crate) table: Text,
    /// The names of its columns that are no key columns.
    pub(crate) columns: BTreeSet<Text>,
}
