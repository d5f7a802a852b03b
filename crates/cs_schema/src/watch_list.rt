ghost use Rattle.std.specs.Prelude.{◌≡◌, IfOk, option_copied, slice_get};
ghost use Rattle.cs_schema.specs.WatchList.{item_of, ItemPlaces};

use crate::Watched;
use cs_types::{Duplicate, Items, Memory, Text};
use std::alloc::Global;
use std::collections::BTreeMap;
use std::marker::Model;

/// The tables that a watch names, in the order of the statement, which contracts see as their
/// list. One is found by its name in the time of a search.
#[derive(Debug, Drop)]
pub struct WatchList {
    items: Items<Watched>,
    places: BTreeMap<Text, usize>,
}

impl Model for WatchList {
    ghost use Rattle.std.specs.Prelude.{List};
    ghost use Rattle.cs_schema.specs.declared.types.Watched.{Watched as watched};
    ghost use Rattle.cs_schema.specs.WatchList.{ItemPlaces};

    ghost Value = { List watched };

    ghost view = { λ w. w.items };

    ghost invariant = { λ w. ItemPlaces w.items w.places };
}

impl WatchList {
    /// These items.
    pub fn of(alloc: Global, items: Items<Watched>) -> Result<WatchList, Memory>
        ensures { IfOk result (λ w. w ≡ items) }
    {
        let places = places_of(alloc, items.as_slice())?;
        Ok(WatchList { items, places })
    }

    /// The items in their order.
    pub fn as_slice(&self) -> &[Watched]
        ensures { result.now ≡ self.now }
    {
        self.items.as_slice()
    }

    /// The item of this table.
    pub fn find(&self, table: &Text) -> Option<&Watched>
        ensures { option_copied result ≡ item_of table.now self.now }
    {
        match self.places.get(table) {
            Some(place) => item_at(self.items.as_slice(), *place),
            None => None,
        }
    }
}

fn item_at(items: &[Watched], place: usize) -> Option<&Watched>
    ensures { option_copied result ≡ slice_get items.now place }
{
    if place < items.len() {
        Some(&items[place])
    } else {
        None
    }
}

fn places_of(alloc: Global, items: &[Watched]) -> Result<BTreeMap<Text, usize>, Memory>
    ensures { IfOk result (λ p. ItemPlaces items.now p) }
{
    let mut places = BTreeMap::new(alloc);
    let mut place = 0;
    for item in items {
        places.insert(item.table.copy()?, place)?;
        place += 1;
    }
    Ok(places)
}
