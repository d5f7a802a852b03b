//! Whether the parts of a batch can be written in an entry: the counts of their bytes and items have
//! four bytes.
ghost use Rattle.std.specs.Prelude.{◌≡◌, true, IfSome};
ghost use Rattle.cs_types.specs.Value.{IsInRange};
ghost use Rattle.cs_schedule.specs.Spelling.{IsText, IsValue, IsCell, AreCells, IsRow, IsChange, IsToken, IsChild, IsList, IsInFormat};
ghost use Rattle.cs_schedule.specs.declared.entry.Entry.TheVariants.{Begin};
ghost use Rattle.cs_book.specs.Format.{CanBeWritten};

use cs_link::{Batch, NewChild};
use cs_types::{Cell, Cells, Change, RowName, Text, Token, Value, Window};

/// The most that a count of four bytes says.
const MOST: usize = 4_294_967_295;

fn fits_text(text: &Text) -> bool
    ensures { result ≡ true → IsText text.now }
{
    text.as_str().len() <= MOST
}

fn fits_value(value: &Value) -> bool
    requires { IsInRange value.now }
    ensures { result ≡ true → IsValue value.now }
{
    match value {
        Value::Text(text) => fits_text(text),
        Value::Bytes(bytes) => bytes.as_slice().len() <= MOST,
        Value::Null
        | Value::Bool(_)
        | Value::Int64(_)
        | Value::Numeric(_)
        | Value::Date(_)
        | Value::Timestamp(_) => true,
    }
}

fn fits_cell(cell: &Cell) -> bool
    requires { IsInRange cell.now.value }
    ensures { result ≡ true → IsCell cell.now }
{
    fits_text(&cell.column) && fits_value(&cell.value)
}

fn fits_cells(cells: &Cells) -> bool
    ensures { result ≡ true → AreCells cells.now }
{
    let items = cells.items();
    for cell in items {
        if !fits_cell(cell) {
            return false;
        }
    }
    items.len() <= MOST
}

fn fits_row(row: &RowName) -> bool
    ensures { result ≡ true → IsRow row.now }
{
    fits_text(&row.table) && fits_cells(&row.key)
}

fn fits_change(change: &Change) -> bool
    ensures { result ≡ true → IsChange change.now }
{
    let _stamp = change.stamp.us();
    let named = fits_text(&change.tx) && fits_row(&change.row);
    named && (fits_cells(&change.new) && fits_cells(&change.old))
}

fn fits_changes(changes: &[Change]) -> bool
    ensures { result ≡ true → IsList IsChange changes.now }
{
    for change in changes {
        if !fits_change(change) {
            return false;
        }
    }
    changes.len() <= MOST
}

fn is_token(token: &Token)
    ensures { IsToken token.now }
{
    let _bytes = token.bytes();
}

fn fits_tokens(tokens: &[Token]) -> bool
    ensures { result ≡ true → IsList IsToken tokens.now }
{
    for token in tokens {
        is_token(token);
    }
    tokens.len() <= MOST
}

fn fits_child(child: &NewChild) -> bool
    ensures { result ≡ true → IsChild child.now }
{
    let _start = child.start.us();
    is_token(&child.token);
    fits_tokens(child.parents.as_slice())
}

fn fits_children(children: &[NewChild]) -> bool
    ensures { result ≡ true → IsList IsChild children.now }
{
    for child in children {
        if !fits_child(child) {
            return false;
        }
    }
    children.len() <= MOST
}

fn is_named(batch: &Batch)
    ensures { IfSome batch.now.token IsToken }
{
    if let Some(token) = &batch.token {
        is_token(token);
    }
}

/// Whether a window can be written in an entry.
pub(crate) fn window_can_be_written(window: &Window) -> bool
    ensures { result ≡ true → IsInFormat (Begin window.now) }
{
    let _start = window.start.us();
    let _end = window.end.us();
    fits_text(&window.stream)
}

/// Whether the parts of a batch can be written in an entry.
pub(crate) fn can_be_written(batch: &Batch) -> bool
    ensures { result ≡ true → CanBeWritten batch.now }
{
    is_named(batch);
    fits_changes(batch.changes.as_slice()) && fits_children(batch.children.as_slice())
}
