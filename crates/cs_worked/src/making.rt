use cs_types::{
    Cell, Cells, CellsFault, Change, Duplicate, Items, Kind, Memory, RowName, Stamp, Text, Value,
};
use std::alloc::Global;

/// Cells of these columns, each with this value, in this order.
pub fn cells_of(alloc: Global, columns: &[&str], value: &Value) -> Result<Items<Cell>, Memory> {
    let mut cells = Items::new(alloc);
    for column in columns {
        let cell = Cell {
            column: Text::of(alloc, *column)?,
            value: value.copy()?,
        };
        cells.push(cell)?;
    }
    Ok(cells)
}

/// The cells of one column.
pub fn one_cell(alloc: Global, column: &str, value: &Value) -> Result<Cells, CellsFault> {
    Cells::of(cells_of(alloc, &[column], value)?)
}

/// The row of the table T with this number as its key K.
pub fn row(alloc: Global, number: i64) -> Result<RowName, CellsFault> {
    Ok(RowName {
        table: Text::of(alloc, "T")?,
        key: one_cell(alloc, "K", &Value::Int64(number))?,
    })
}

/// An insert of that row with one cell.
pub fn insert(alloc: Global, stamp: Stamp, number: i64) -> Result<Change, CellsFault> {
    Ok(Change {
        stamp,
        tx: Text::of(alloc, "t1")?,
        row: row(alloc, number)?,
        kind: Kind::Insert,
        new: one_cell(alloc, "A", &Value::Bool(true))?,
        old: Cells::none(alloc),
    })
}
