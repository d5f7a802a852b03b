ghost use Rattle.std.specs.Prelude.{◌≡◌, IfOk, IfSome, option_copied};
ghost use Rattle.cs_types.specs.Names.{is_among};
ghost use Rattle.cs_schema.specs.Tables.{table_named};
ghost use Rattle.cs_txn.specs.Columns.{column_named};
ghost use Rattle.cs_txn.specs.Finding.{HasNames, LeadsFrom, LeadsTo};
ghost use Rattle.cs_script.specs.Finders.{IsFinder};

use crate::texts::is_text;
use cs_schema::{Column, Table, Tables};
use cs_types::{Duplicate, Items, Memory, Names, Text};
use std::alloc::Global;
use std::collections::BTreeMap;

/// Lists that are no longer than this are walked: that takes less time than making a map, or a text
/// to look for.
const FEW: usize = 16;

/// What the columns of a table are found by, where it has many of them and many are looked for;
/// nothing where they are few.
#[derive(Drop)]
pub(crate) struct Finder {
    /// The names of the columns of its key.
    pub(crate) key: Option<Names>,
    /// For each name of a column the place of the first column of that name.
    pub(crate) places: Option<BTreeMap<Text, usize>>,
}

/// What the table's columns are found by, so many of them.
pub(crate) fn finder_of(alloc: Global, table: &Table, count: usize) -> Result<Finder, Memory>
    ensures { IfOk result (IsFinder table.now) }
{
    let key = many_names(alloc, &table.key, count)?;
    let places = many_places(alloc, table.columns.as_slice(), count)?;
    Ok(Finder { key, places })
}

/// Whether a name is that of a column of the key.
pub(crate) fn is_key(
    alloc: Global,
    table: &Table,
    finder: &Finder,
    name: &str,
) -> Result<bool, Memory>
    requires { IsFinder table.now finder.now }
    ensures { IfOk result (λ is. is ≡ is_among name.now table.now.key) }
{
    match &finder.key {
        Some(names) => {
            let name = Text::of(alloc, name)?;
            Ok(names.has(&name))
        }
        None => Ok(is_one_of(name, table.key.as_slice())),
    }
}

fn is_one_of(name: &str, names: &[Text]) -> bool
    ensures { result ≡ is_among name.now names.now }
{
    for one in names {
        if is_text(one, name) {
            return true;
        }
    }
    false
}

/// The first column of a name.
pub(crate) fn column_of<'a>(
    alloc: Global,
    table: &'a Table,
    finder: &Finder,
    name: &str,
) -> Result<Option<&'a Column>, Memory>
    requires { IsFinder table.now finder.now }
    ensures column { IfOk result (λ found. option_copied found ≡ column_named name.now table.now.columns) }
    ensures name { IfOk result (λ found. IfSome found (λ column. column.now.name ≡ name.now)) }
{
    match &finder.places {
        Some(places) => {
            let name = Text::of(alloc, name)?;
            Ok(placed(&name, table.columns.as_slice(), places))
        }
        None => Ok(walked(name, table.columns.as_slice())),
    }
}

fn walked<'a>(name: &str, columns: &'a [Column]) -> Option<&'a Column>
    ensures { option_copied result ≡ column_named name.now columns.now }
{
    for column in columns {
        if is_text(&column.name, name) {
            return Some(column);
        }
    }
    None
}

fn placed<'a>(
    name: &Text,
    columns: &'a [Column],
    places: &BTreeMap<Text, usize>,
) -> Option<&'a Column>
    requires { LeadsFrom 0 columns.now places.now }
    ensures { option_copied result ≡ column_named name.now columns.now }
{
    match places.get(name) {
        Some(place) => columns.get(*place),
        None => None,
    }
}

fn places_of(alloc: Global, columns: &[Column]) -> Result<BTreeMap<Text, usize>, Memory>
    ensures { IfOk result (LeadsFrom 0 columns.now) }
{
    let mut places = BTreeMap::new(alloc);
    let mut place = columns.len();
    while place > 0 {
        place -= 1;
        places.insert(columns[place].name.copy()?, place)?;
    }
    Ok(places)
}

fn many_places(
    alloc: Global,
    columns: &[Column],
    count: usize,
) -> Result<Option<BTreeMap<Text, usize>>, Memory>
    ensures { IfOk result (LeadsTo columns.now) }
{
    if columns.len() <= FEW {
        return Ok(None);
    }
    if count <= FEW {
        return Ok(None);
    }
    let places = places_of(alloc, columns)?;
    Ok(Some(places))
}

fn many_names(alloc: Global, names: &Items<Text>, count: usize) -> Result<Option<Names>, Memory>
    ensures { IfOk result (HasNames names.now) }
{
    if names.as_slice().len() <= FEW {
        return Ok(None);
    }
    if count <= FEW {
        return Ok(None);
    }
    let set = Names::of(alloc, names.copy()?)?;
    Ok(Some(set))
}

/// The table of a name.
pub(crate) fn table_of<'a>(
    alloc: Global,
    tables: &'a Tables,
    name: &str,
) -> Result<Option<&'a Table>, Memory>
    ensures table { IfOk result (λ found. option_copied found ≡ table_named name.now tables.now) }
    ensures name { IfOk result (λ found. IfSome found (λ table. table.now.name ≡ name.now)) }
{
    if tables.as_slice().len() <= FEW {
        return Ok(last_named(name, tables.as_slice()));
    }
    let name = Text::of(alloc, name)?;
    Ok(tables.find(&name))
}

/// The last of the tables of a name.
fn last_named<'a>(name: &str, tables: &'a [Table]) -> Option<&'a Table>
    ensures { option_copied result ≡ table_named name.now tables.now }
{
    let mut place = tables.len();
    while place > 0 {
        place -= 1;
        let table = &tables[place];
        if is_text(&table.name, name) {
            return Some(table);
        }
    }
    None
}
