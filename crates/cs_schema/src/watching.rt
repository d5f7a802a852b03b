ghost use Rattle.std.specs.Prelude.{◌≡◌};
ghost use Rattle.cs_schema.specs.Watching.{is_listed, watches_table, watches_column, is_watched_column, watches_one, watches_named, watchers};
ghost use Rattle.cs_schema.specs.Tables.{column_names};
ghost use Rattle.cs_types.specs.Names.{is_among as stands_in};

use crate::{Stream, Table, Watch};
use cs_types::{Names, Text, is_among};

fn listed(columns: &Option<Names>, column: &Text) -> bool
    ensures { result ≡ is_listed columns.now column.now }
{
    match columns {
        None => true,
        Some(columns) => columns.has(column),
    }
}

impl Watch {
    /// Whether it watches a table: all are watched, or it names this one. It takes no memory.
    pub fn has_table(&self, table: &Text) -> bool
        ensures { result ≡ watches_table self.now table.now }
    {
        match self {
            Watch::Nothing => false,
            Watch::All => true,
            Watch::Tables(items) => items.find(table).is_some(),
        }
    }

    /// Whether it watches a column of a table, which is no key column: all are watched, or it
    /// names the table, and lists this column where it has a list. It takes no memory.
    pub fn has_column(&self, table: &Text, column: &Text) -> bool
        ensures { result ≡ watches_column self.now table.now column.now }
    {
        match self {
            Watch::Nothing => false,
            Watch::All => true,
            Watch::Tables(items) => match items.find(table) {
                Some(item) => listed(&item.columns, column),
                None => false,
            },
        }
    }
}

fn has_column(table: &Table, name: &Text) -> bool
    ensures { result ≡ stands_in name.now (column_names table.now.columns) }
{
    for column in table.columns.as_slice() {
        if column.name.is(name) {
            return true;
        }
    }
    false
}

fn column_watched(watch: &Watch, table: &Table, column: &Text) -> bool
    ensures { result ≡ is_watched_column watch.now table.now column.now }
{
    if watch.has_column(&table.name, column) {
        if has_column(table, column) {
            return !is_among(column, table.key.as_slice());
        }
    }
    false
}

fn one_watched(watch: &Watch, table: &Table, columns: &[Text]) -> bool
    ensures { result ≡ watches_one watch.now table.now columns.now }
{
    for column in columns {
        if column_watched(watch, table, column) {
            return true;
        }
    }
    false
}

/// Whether no column is named, or a watched one of the table that is no key column.
pub(crate) fn named_watched(watch: &Watch, table: &Table, columns: &[Text]) -> bool
    ensures { result ≡ watches_named watch.now table.now columns.now }
{
    match columns {
        [] => true,
        _ => one_watched(watch, table, columns),
    }
}

/// How many of the streams watch a column, or will once the table has it.
pub(crate) fn count_watchers(streams: &[Stream], table: &Text, column: &Text) -> usize
    ensures { result ≡ watchers streams.now table.now column.now }
{
    let mut count = 0;
    for stream in streams {
        if stream.watch.has_column(table, column) {
            count += 1;
        }
    }
    count
}
