ghost use Rattle.std.specs.Prelude.{◌≡◌, ◌+◌, ◌-◌, ◌^◌, min, length};
ghost use Rattle.std.specs.List.{sum_by};
ghost use Rattle.cs_types.specs.Order.{value_bytes};
ghost use Rattle.cs_records.specs.Weight.{cell_weight, mod_weight, record_weight};

use crate::{Mod, Record};
use cs_types::{Cell, Value};

impl Record {
    /// What the record weighs: for a data record the sum, over the cells of all of its mods (keys,
    /// new and old), of the bytes of the column's name, 1, and the bytes of a `Text` or `Bytes`
    /// value; for the other records 0. A sum above the greatest `u64` stands still there. It is
    /// this project's own measure, and takes no memory.
    pub fn weight(&self) -> u64
        ensures { result ≡ min (record_weight self.now) (2 ^ 64 - 1) }
    {
        match self {
            Record::Change(item) => mods_weight(item.mods.as_slice()),
            Record::Heartbeat(_) | Record::Children(_) => 0,
        }
    }
}

fn mods_weight(mods: &[Mod]) -> u64
    ensures { result ≡ min (sum_by mod_weight mods.now) (2 ^ 64 - 1) }
{
    let mut total: u64 = 0;
    for item in mods {
        total = total.saturating_add(mod_weight(item));
    }
    total
}

fn mod_weight(item: &Mod) -> u64
    ensures { result ≡ min (mod_weight item.now) (2 ^ 64 - 1) }
{
    let keys = cells_weight(item.keys.items());
    let new = cells_weight(item.new.items());
    let old = cells_weight(item.old.items());
    keys.saturating_add(new).saturating_add(old)
}

fn cells_weight(cells: &[Cell]) -> u64
    ensures { result ≡ min (sum_by cell_weight cells.now) (2 ^ 64 - 1) }
{
    let mut total: u64 = 0;
    for cell in cells {
        total = total.saturating_add(cell_weight(cell));
    }
    total
}

fn cell_weight(cell: &Cell) -> u64
    ensures { result ≡ min (cell_weight cell.now) (2 ^ 64 - 1) }
{
    let column = cell.column.as_str().len() as u64;
    column
        .saturating_add(1)
        .saturating_add(value_length(&cell.value) as u64)
}

fn value_length(value: &Value) -> usize
    ensures { result ≡ length (value_bytes value.now) }
{
    match value {
        Value::Text(text) => text.as_str().len(),
        Value::Bytes(bytes) => bytes.as_slice().len(),
        Value::Null
        | Value::Bool(_)
        | Value::Int64(_)
        | Value::Numeric(_)
        | Value::Date(_)
        | Value::Timestamp(_) => 0,
    }
}
