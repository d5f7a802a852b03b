use cs_types::{Names, Text};
use std::collections::BTreeMap;

/// What the columns of a table with many of them are found by; nothing where they are few.
#[derive(Drop)]
pub(crate) struct Lookup {
    /// The names of the columns of its key.
    pub(crate) key: Option<Names>,
    /// For each name of a column the place of the first column of that name.
    pub(crate) places: Option<BTreeMap<Text, usize>>,
}
