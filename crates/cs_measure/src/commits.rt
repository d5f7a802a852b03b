//! A database of one table, and commits to it.

ghost use Rattle.std.specs.Prelude.{IfOk};
ghost use Rattle.cs_txn.specs.Fits.{IsHistoryOf};

use crate::trouble::Trouble;
use cs_ddl::parse_ddl;
use cs_schema::Catalog;
use cs_txn::{History, Txn, TxnFault, Write};
use cs_types::{Cell, Cells, Items, Kind, Memory, RowName, Stamp, Text, Value};
use std::alloc::Global;

const TABLE: &str = "CREATE TABLE T (K INT64 NOT NULL, A INT64, B STRING(MAX)) PRIMARY KEY (K)";

const STREAM: &str = "CREATE CHANGE STREAM S FOR T";

const FIRST: u64 = 1_714_521_600_000_000;

/// The most bytes that a row may have, and how many of them this table's row has beside its text.
const ROW: usize = 65_536;

const BESIDE: usize = 28;

/// The moment this many microseconds behind the table's making.
pub fn moment(behind: u32) -> Result<Stamp, Trouble> {
    match Stamp::of(FIRST + behind as u64) {
        Some(stamp) => Ok(stamp),
        None => Err(Trouble::Moment),
    }
}

/// The table T and the stream S.
pub fn catalog(alloc: Global) -> Result<Catalog, Trouble> {
    let at = moment(0)?;
    let mut catalog = Catalog::new(alloc);
    apply(alloc, &mut catalog, at, TABLE)?;
    apply(alloc, &mut catalog, at, STREAM)?;
    Ok(catalog)
}

fn apply(alloc: Global, catalog: &mut Catalog, at: Stamp, text: &str) -> Result<(), Trouble> {
    let Ok(statement) = parse_ddl(alloc, text.as_bytes()) else {
        return Err(Trouble::Statement);
    };
    catalog.apply(at, &statement)?;
    Ok(())
}

fn cell(alloc: Global, column: &str, value: Value) -> Result<Cell, Memory> {
    Ok(Cell {
        column: Text::of(alloc, column)?,
        value,
    })
}

fn text_cell(alloc: Global, column: &str, text: &str) -> Result<Cell, Memory> {
    let value = Text::of(alloc, text)?;
    cell(alloc, column, Value::Text(value))
}

/// The row of a number.
fn row_of(alloc: Global, number: u32) -> Result<RowName, Trouble> {
    let mut key = Items::new(alloc);
    let cell = cell(alloc, "K", Value::Int64(number as i64))?;
    key.push(cell)?;
    Ok(RowName {
        table: Text::of(alloc, "T")?,
        key: Cells::of(key)?,
    })
}

/// A transaction with one write.
fn txn(
    alloc: Global,
    number: u32,
    kind: Kind,
    row: RowName,
    set: Items<Cell>,
) -> Result<Txn, Trouble> {
    let set = Cells::of(set)?;
    let mut writes = Items::new(alloc);
    writes.push(Write { kind, row, set })?;
    let id = format!(in alloc; "t{number}")?;
    Ok(Txn {
        stamp: moment(number)?,
        tx: Text::of(alloc, id.as_str())?,
        tag: Text::of(alloc, "")?,
        writes,
    })
}

/// Rows are inserted, changed and deleted, one after the other, with keys in no order.
fn numbered(alloc: Global, number: u32) -> Result<Txn, Trouble> {
    let row = row_of(alloc, (number / 3).wrapping_mul(2_654_435_761))?;
    let mut set = Items::new(alloc);
    let kind = match number % 3 {
        0 => Kind::Insert,
        1 => Kind::Update,
        _ => Kind::Delete,
    };
    if number % 3 < 2 {
        let cell = cell(alloc, "A", Value::Int64(number as i64))?;
        set.push(cell)?;
    }
    if number % 3 < 1 {
        let cell = text_cell(alloc, "B", "some text")?;
        set.push(cell)?;
    }
    txn(alloc, number, kind, row, set)
}

/// So many commits.
pub fn history(alloc: Global, catalog: &Catalog, count: u32) -> Result<History, Trouble>
    ensures { IfOk result (λ h. IsHistoryOf catalog.now.tables h) }
{
    let mut history = History::new(alloc);
    for number in 0..count {
        let txn = numbered(alloc, number)?;
        history.commit(catalog, &txn)?;
    }
    Ok(history)
}

/// Says how many modifications so many commits left.
pub fn commit(alloc: Global, count: u32) -> Result<String, Trouble> {
    let catalog = catalog(alloc)?;
    let history = history(alloc, &catalog, count)?;
    let left = history.modifications().len();
    Ok(format!(in alloc; "commit {count}: {left} modifications")?)
}

/// A row with a text of so many bytes.
fn large(alloc: Global, number: u32, length: usize) -> Result<Txn, Trouble> {
    let mut text = String::new(alloc);
    for _ in 0..length {
        text.push('x')?;
    }
    let row = row_of(alloc, number)?;
    let cell = text_cell(alloc, "B", text.as_str())?;
    let mut set = Items::new(alloc);
    set.push(cell)?;
    txn(alloc, number, Kind::Insert, row, set)
}

/// Whether a row of one byte more than the greatest size is refused as such.
fn is_too_large(alloc: Global, catalog: &Catalog, history: &mut History) -> Result<bool, Trouble> {
    let too_large = large(alloc, 1_000, ROW - BESIDE + 1)?;
    let refused = history.commit(catalog, &too_large);
    Ok(matches!(refused, Err(TxnFault::RowTooLarge(_))))
}

/// Whether a row more, however small, is refused since the history is full.
fn is_full(alloc: Global, catalog: &Catalog, history: &mut History) -> Result<bool, Trouble> {
    let one_more = large(alloc, 3_048, 0)?;
    let refused = history.commit(catalog, &one_more);
    Ok(matches!(refused, Err(TxnFault::HistoryFull)))
}

/// 2,048 rows of the greatest size.
fn add_largest(alloc: Global, catalog: &Catalog, history: &mut History) -> Result<(), Trouble> {
    for number in 1_000..3_048 {
        let largest = large(alloc, number, ROW - BESIDE)?;
        history.commit(catalog, &largest)?;
    }
    Ok(())
}

/// A history that is filled to its limit, where its limits are where they should be.
fn filled(alloc: Global) -> Result<History, Trouble> {
    let catalog = catalog(alloc)?;
    let mut history = History::new(alloc);
    if !is_too_large(alloc, &catalog, &mut history)? {
        return Err(Trouble::Limit);
    }
    add_largest(alloc, &catalog, &mut history)?;
    if !is_full(alloc, &catalog, &mut history)? {
        return Err(Trouble::Limit);
    }
    Ok(history)
}

/// Fills a history to its limit: 2,048 rows of the greatest size are taken, a row of one byte more
/// is refused, and so is one row more, however small.
pub fn fill(alloc: Global) -> Result<String, Trouble> {
    let history = filled(alloc)?;
    let left = history.modifications().len();
    Ok(format!(in alloc;
        "fill: {left} modifications, RowTooLarge at one byte more, HistoryFull at one row more"
    )?)
}
