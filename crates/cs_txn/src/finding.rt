ghost use Rattle.std.specs.Prelude.{◌≡◌, All, IfOk, IfSome, option_copied};
ghost use Rattle.cs_types.specs.Cells.{IsRising};
ghost use Rattle.cs_types.specs.Value.{IsInRange};
ghost use Rattle.cs_types.specs.Names.{is_among};
ghost use Rattle.cs_txn.specs.Columns.{column_named};
ghost use Rattle.cs_txn.specs.Finding.{HasNames, LeadsFrom, LeadsTo, IsLookup};
ghost use Rattle.cs_txn.specs.Left.{found_in};

use crate::lookup::Lookup;
use cs_schema::{Column, Table};
use cs_types::{Cell, Cells, Duplicate, Items, Memory, Names, Text, Value, is_among};
use std::alloc::Global;
use std::cmp::Ordering;
use std::collections::BTreeMap;

/// Lists that are no longer than this are walked: that takes less time than making a map.
const FEW: usize = 16;

fn walked<'a>(name: &Text, columns: &'a [Column]) -> Option<&'a Column>
    ensures { option_copied result ≡ column_named name.now columns.now }
{
    for column in columns {
        if column.name.is(name) {
            return Some(column);
        }
    }
    None
}

fn placed<'a>(
    name: &Text,
    columns: &'a [Column],
    places: &BTreeMap<Text, usize>,
) -> Option<&'a Column>
    requires { LeadsFrom 0 columns.now places.now }
    ensures { option_copied result ≡ column_named name.now columns.now }
{
    match places.get(name) {
        Some(place) => columns.get(*place),
        None => None,
    }
}

fn search<'a>(column: &Text, cells: &'a [Cell]) -> Option<&'a Value>
    requires rising { IsRising cells.now }
    requires in_range { All (λ c. IsInRange c.value) cells.now }
    ensures value { option_copied result ≡ found_in column.now cells.now }
    ensures in_range { IfSome result (λ v. IsInRange v.now) }
{
    let mut low = 0;
    let mut high = cells.len();
    while low < high {
        let middle = low + (high - low) / 2;
        let cell = &cells[middle];
        match cell.column.cmp(column) {
            Ordering::Equal => return Some(&cell.value),
            Ordering::Less => low = middle + 1,
            Ordering::Greater => high = middle,
        }
    }
    None
}

/// The value of a column, where there is a cell of it.
pub(crate) fn find<'a>(column: &Text, cells: &'a Cells) -> Option<&'a Value>
    ensures value { option_copied result ≡ found_in column.now cells.now }
    ensures in_range { IfSome result (λ v. IsInRange v.now) }
{
    search(column, cells.items())
}

fn places_of(alloc: Global, columns: &[Column]) -> Result<BTreeMap<Text, usize>, Memory>
    ensures { IfOk result (LeadsFrom 0 columns.now) }
{
    let mut places = BTreeMap::new(alloc);
    let mut place = columns.len();
    while place > 0 {
        place -= 1;
        places.insert(columns[place].name.copy()?, place)?;
    }
    Ok(places)
}

fn many_places(alloc: Global, columns: &[Column]) -> Result<Option<BTreeMap<Text, usize>>, Memory>
    ensures { IfOk result (LeadsTo columns.now) }
{
    if columns.len() <= FEW {
        return Ok(None);
    }
    let places = places_of(alloc, columns)?;
    Ok(Some(places))
}

fn many_names(alloc: Global, names: &Items<Text>) -> Result<Option<Names>, Memory>
    ensures { IfOk result (HasNames names.now) }
{
    if names.as_slice().len() <= FEW {
        return Ok(None);
    }
    let set = Names::of(alloc, names.copy()?)?;
    Ok(Some(set))
}

/// What the table's columns are found by.
pub(crate) fn lookup_of(alloc: Global, table: &Table) -> Result<Lookup, Memory>
    ensures { IfOk result (IsLookup table.now) }
{
    let key = many_names(alloc, &table.key)?;
    let places = many_places(alloc, table.columns.as_slice())?;
    Ok(Lookup { key, places })
}

/// Whether a name is that of a column of the key.
pub(crate) fn is_key(table: &Table, lookup: &Lookup, name: &Text) -> bool
    requires { IsLookup table.now lookup.now }
    ensures { result ≡ is_among name.now table.now.key }
{
    match &lookup.key {
        Some(names) => names.has(name),
        None => is_among(name, table.key.as_slice()),
    }
}

/// The first column of a name.
pub(crate) fn column_of<'a>(table: &'a Table, lookup: &Lookup, name: &Text) -> Option<&'a Column>
    requires { IsLookup table.now lookup.now }
    ensures { option_copied result ≡ column_named name.now table.now.columns }
{
    match &lookup.places {
        Some(places) => placed(name, table.columns.as_slice(), places),
        None => walked(name, table.columns.as_slice()),
    }
}
