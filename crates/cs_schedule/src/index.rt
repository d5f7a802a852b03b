ghost use Rattle.std.specs.Prelude.{◌≡◌, ◌<◌, ◌≤◌, [], length, slice_index_or, vec_capacity, Contains};
ghost use Rattle.cs_schedule.specs.Board.{IsOrdered, has_ended};
ghost use Rattle.cs_schedule.specs.Index.{AreSorted, put_key, take_slot, number_from, token_number, missing, open_key, free_key, wait_key, tries_if, free_of, waits_of, places_in, ended_but, IsIndexBy, IsIndex, MayPut, IsPut, IsTaken, IsWayMade};

use crate::ready::has_ended;
use crate::row::Row;
use crate::slots::{Slot, first_with, move_behind, put_key, take_key};
use cs_types::Token;

/// Ordered lists of places beside the rows of a board.
#[derive(Debug, Drop)]
pub(crate) struct Index {
    /// The unfinished rows, by the moment up to which each is complete.
    pub opens: Vec<Slot>,
    /// The rows that may be read, by their tries.
    pub free: Vec<Slot>,
    /// The unfinished rows with a parent that is no finished row, by the number of the first one.
    pub waits: Vec<Slot>,
}

/// A number of a token. Two tokens can have the same.
fn token_number(token: &Token) -> u64
    ensures { result ≡ token_number token.now }
{
    let mut number: u64 = 0;
    let mut rest = token.bytes();
    while let [first, after @ ..] = rest {
        number = (number * 257 + *first as u64) % 4_294_967_291;
        rest = after;
    }
    number
}

/// The number of the first of these tokens that has no finished row.
fn missing(rows: &[Row], tokens: &[Token]) -> Option<u64>
    requires { IsOrdered rows.now }
    ensures { result ≡ missing (has_ended rows.now) tokens.now }
{
    let mut rest = tokens;
    while let [first, after @ ..] = rest {
        if !has_ended(rows, first) {
            return Some(token_number(first));
        }
        rest = after;
    }
    None
}

fn open_key(row: &Row) -> Option<u64>
    ensures { result ≡ open_key row.now }
{
    if row.finished {
        return None;
    }
    Some(row.through)
}

/// The tries of a row, where it may be read.
pub(crate) fn free_key(all: &[Row], row: &Row) -> Option<u64>
    requires { IsOrdered all.now }
    ensures { result ≡ free_key (has_ended all.now) row.now }
{
    if row.finished {
        return None;
    }
    if row.leased {
        return None;
    }
    match missing(all, row.parents.as_slice()) {
        Some(_) => None,
        None => Some(row.tries as u64),
    }
}

fn wait_key(all: &[Row], row: &Row) -> Option<u64>
    requires { IsOrdered all.now }
    ensures { result ≡ wait_key (has_ended all.now) row.now }
{
    if row.finished {
        return None;
    }
    missing(all, row.parents.as_slice())
}

/// Puts the slots of a row at a place.
pub(crate) fn put_keys(all: &[Row], row: &Row, index: &mut Index, place: usize)
    requires ordered { IsOrdered all.now }
    requires may { MayPut index.old }
    ensures index { IsPut (has_ended all.now) row.now place index.old index.new }
    ensures places { places_in index.new ≡ places_in index.old }
{
    put_key(&mut index.opens, open_key(row), place);
    put_key(&mut index.free, free_key(all, row), place);
    put_key(&mut index.waits, wait_key(all, row), place);
}

/// Takes the slots of the row at a place out.
pub(crate) fn take_keys(all: &[Row], row: &Row, index: &mut Index, place: usize)
    requires ordered { IsOrdered all.now }
    requires inside { place < length all.now }
    requires row { row.now ≡ slice_index_or all.now place row.now }
    requires index { IsIndex all.now index.old }
    ensures index { IsTaken (has_ended all.now) row.now place index.old index.new }
    ensures places { places_in index.new ≡ places_in index.old }
{
    take_key(&mut index.opens, open_key(row), place);
    take_key(&mut index.free, free_key(all, row), place);
    take_key(&mut index.waits, wait_key(all, row), place);
}

/// The slots of rows where a row is put at a place among them.
pub(crate) fn make_way(all: &[Row], index: &mut Index, place: usize)
    requires { IsIndex all.now index.old }
    ensures way { IsWayMade place index.old index.new }
    ensures places { places_in index.new ≡ places_in index.old }
{
    move_behind(&mut index.opens, place, all.len());
    move_behind(&mut index.free, place, all.len());
    move_behind(&mut index.waits, place, all.len());
}

/// Puts a row that waited for a parent where it stands now.
fn settle(all: &[Row], row: &Row, index: &mut Index, place: usize, key: u64)
    requires ordered { IsOrdered all.now }
    requires free_sorted { AreSorted index.old.free.items }
    requires free_room { length index.old.free.items < vec_capacity index.old.free }
    requires waits_sorted { AreSorted index.old.waits.items }
    requires waits_room { length index.old.waits.items ≤ vec_capacity index.old.waits }
    requires there { Contains index.old.waits.items (record { key = key; place = place }) }
    ensures opens { index.new.opens.items ≡ index.old.opens.items }
    ensures free { index.new.free.items ≡ put_key (free_key (has_ended all.now) row.now) place index.old.free.items }
    ensures waits { index.new.waits.items ≡ put_key (wait_key (has_ended all.now) row.now) place (take_slot (record { key = key; place = place }) index.old.waits.items) }
    ensures places { places_in index.new ≡ places_in index.old }
{
    take_key(&mut index.waits, Some(key), place);
    let tries = free_key(all, row);
    put_key(&mut index.free, tries, place);
    put_key(&mut index.waits, wait_key(all, row), place);
}

/// Puts the rows that waited for a token, which has ended now, where they stand then.
pub(crate) fn wake(all: &[Row], index: &mut Index, token: &Token)
    requires ordered { IsOrdered all.now }
    requires index { IsIndexBy (ended_but token.now all.now) all.now index.old }
    requires places { length all.now ≤ places_in index.old }
    ensures index { IsIndex all.now index.new }
    ensures places { places_in index.new ≡ places_in index.old }
{
    let key = token_number(token);
    let mut from = 0;
    while let Some(place) = first_with(index.waits.as_slice(), key, from) {
        settle(all, &all[place], index, place, key);
        from = place + 1;
    }
}

/// Puts the rows that may be read in order, where none of them stands yet.
pub(crate) fn fill_free(all: &[Row], free: &mut Vec<Slot>)
    requires ordered { IsOrdered all.now }
    requires empty { free.old.items ≡ [] }
    requires room { length all.now ≤ vec_capacity free.old }
    ensures free { free.new.items ≡ free_of (has_ended all.now) all.now }
    ensures capacity { vec_capacity free.new ≡ vec_capacity free.old }
{
    for place in 0..all.len() {
        put_key(free, free_key(all, &all[place]), place);
    }
}
