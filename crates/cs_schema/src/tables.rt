ghost use Rattle.std.specs.Prelude.{◌≡◌, ◌++◌, ◌<◌, ◌∷◌, [], ℕ, List, length, IsSome, OnOk, OnErr, Some, None, cond, option_copied, slice_get, slice_set, slice_index_or};
ghost use Rattle.std.specs.Ordering.{nat_cmp};
ghost use Rattle.std.specs.Cmp.Lexicographic.{slice_cmp};
ghost use Rattle.std.specs.BTreeMap.{get, is_at};
ghost use Rattle.cs_schema.specs.Tables.{table_named, with_column, flat, PlacesOf, place_named, grown};

use crate::{Column, Table};
use cs_types::{Duplicate, Memory, Text};
use std::alloc::Global;
use std::collections::BTreeMap;
use std::marker::Model;

/// Tables in the order of their making, which contracts see as their list. One is found by its
/// name in the time of a search.
#[derive(Drop)]
pub struct Tables {
    list: Vec<Table>,
    places: BTreeMap<Text, Option<usize>>,
}

impl Model for Tables {
    ghost use Rattle.std.specs.Prelude.{List};
    ghost use Rattle.cs_schema.specs.declared.types.Table.{Table as table};
    ghost use Rattle.cs_schema.specs.Tables.{PlacesOf};

    ghost Value = { List table };

    ghost view = { λ t. t.list.items };

    ghost invariant = { λ t. PlacesOf t.list.items t.places };
}

impl Tables {
    /// No table. It takes no memory.
    pub fn new(alloc: Global) -> Tables
        ensures { result ≡ [] }
    {
        Tables {
            list: Vec::new(alloc),
            places: BTreeMap::new(alloc),
        }
    }

    /// The tables in the order of their making.
    pub fn as_slice(&self) -> &[Table]
        ensures { result.now ≡ self.now }
    {
        self.list.as_slice()
    }

    /// The allocator that they were made with.
    pub(crate) fn allocator(&self) -> Global {
        *self.list.allocator()
    }

    /// The table of this name.
    pub fn find(&self, name: &Text) -> Option<&Table>
        ensures { option_copied result ≡ table_named name.now self.now }
    {
        match self.places.get(name) {
            Some(Some(place)) => table_at(self.list.as_slice(), *place),
            _ => None,
        }
    }

    /// Puts one table behind the others. After `Memory` they are what they were.
    pub(crate) fn push(&mut self, table: Table) -> Result<(), Memory>
        ensures ok { OnOk result (self.new ≡ self.old ++ table ∷ []) }
        ensures err { OnErr result (self.new ≡ self.old) }
    {
        self.list.reserve(1)?;
        room(&mut self.places, &table.name)?;
        put(&mut self.places, &table.name, self.list.len());
        match self.list.push(table) {
            Ok(()) => Ok(()),
            Err(_) => unreachable!(),
        }
    }

    /// Puts one column behind those of the table of this name. After `Memory` all is what it was.
    pub(crate) fn add_column(&mut self, name: &Text, column: Column) -> Result<(), Memory>
        ensures ok { OnOk result (self.new ≡ with_column name.now column self.old) }
        ensures err { OnErr result (self.new ≡ self.old) }
    {
        match self.places.get(name) {
            Some(Some(place)) => grow(&mut self.list, *place, column),
            _ => Ok(()),
        }
    }
}

fn table_at(tables: &[Table], place: usize) -> Option<&Table>
    ensures { option_copied result ≡ slice_get tables.now place }
{
    if place < tables.len() {
        Some(&tables[place])
    } else {
        None
    }
}

/// Makes a place for the name, with nothing in it where it had none.
fn room(places: &mut BTreeMap<Text, Option<usize>>, name: &Text) -> Result<(), Memory>
    ensures there { OnOk result (IsSome (get (slice_cmp nat_cmp) places.new name.now)) }
    ensures same { (q : List ℕ) → flat (get (slice_cmp nat_cmp) places.new q) ≡ flat (get (slice_cmp nat_cmp) places.old q) }
{
    if !places.contains_key(name) {
        places.insert(name.copy()?, None)?;
    }
    Ok(())
}

/// Sets the place of a name that has room: this takes no memory.
fn put(places: &mut BTreeMap<Text, Option<usize>>, name: &Text, place: usize)
    requires { IsSome (get (slice_cmp nat_cmp) places.old name.now) }
    ensures { (q : List ℕ) → get (slice_cmp nat_cmp) places.new q ≡ cond (is_at (slice_cmp nat_cmp name.now) q) (Some (Some place)) (get (slice_cmp nat_cmp) places.old q) }
{
    match places.get_mut(name) {
        Some(slot) => *slot = Some(place),
        None => unreachable!(),
    }
}

/// Puts one column behind those of the table at a place, where there is one.
fn grow(tables: &mut Vec<Table>, place: usize, column: Column) -> Result<(), Memory>
    ensures ok { OnOk result ((t : Table) → slice_get tables.old.items place ≡ Some t → tables.new.items ≡ slice_set tables.old.items place (grown t column)) }
    ensures err { OnErr result (tables.new.items ≡ tables.old.items) }
{
    match tables.get_mut(place) {
        Some(table) => table.columns.push(column),
        None => Ok(()),
    }
}
