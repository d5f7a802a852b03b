ghost use Rattle.std.specs.Prelude.{◌≡◌, ◌∷◌, [], All, IfOk, codes, false, length, map, pos, true};
ghost use Rattle.std.specs.List.{IsDistinct};
ghost use Rattle.cs_types.specs.Row.{same_row};
ghost use Rattle.cs_records.specs.Group.{Agree, HasItsColumns};

use cs_records::{Captured, ColumnInfo, DataRecord, Mod};
use cs_types::{
    CaptureType, Cell, Cells, CellsFault, Change, ColumnType, Items, Kind, Memory, RowName, Stamp,
    Text, Value, same_row_is_equality,
};
use std::alloc::Global;

fn column(alloc: Global) -> Result<ColumnInfo, Memory>
    ensures { IfOk result (λ c. c ≡ record { name = codes "K"; ty = ColumnType.Int64; is_key = true; ordinal = 1 }) }
{
    Ok(ColumnInfo {
        name: Text::of(alloc, "K")?,
        ty: ColumnType::Int64,
        is_key: true,
        ordinal: 1,
    })
}

fn columns(alloc: Global) -> Result<Items<ColumnInfo>, Memory>
    ensures { IfOk result (λ c. c ≡ record { name = codes "K"; ty = ColumnType.Int64; is_key = true; ordinal = 1 } ∷ []) }
{
    let mut columns = Items::new(alloc);
    columns.push(column(alloc)?)?;
    Ok(columns)
}

fn key(alloc: Global, number: u32) -> Result<Cells, Memory>
    ensures { IfOk result (λ c. c ≡ record { column = codes "K"; value = Value.Int64 (pos number) } ∷ []) }
{
    let mut cells = Items::new(alloc);
    cells.push(Cell {
        column: Text::of(alloc, "K")?,
        value: Value::Int64(i64::from(number)),
    })?;
    Ok(Cells::in_order(cells))
}

fn change(alloc: Global, stamp: Stamp, number: u32) -> Result<Change, Memory>
    ensures { IfOk result (λ c. c ≡ record {
      stamp = stamp;
      tx = codes "t1";
      row = record { table = codes "T"; key = record { column = codes "K"; value = Value.Int64 (pos number) } ∷ [] };
      kind = Kind.Insert;
      new = [];
      old = [];
    }) }
{
    Ok(Change {
        stamp,
        tx: Text::of(alloc, "t1")?,
        row: RowName {
            table: Text::of(alloc, "T")?,
            key: key(alloc, number)?,
        },
        kind: Kind::Insert,
        new: Cells::none(alloc),
        old: Cells::none(alloc),
    })
}

/// A captured insert of the row with this number as its key.
pub fn insert(alloc: Global, stamp: Stamp, number: u32) -> Result<Captured, Memory>
    ensures { IfOk result (λ c. c ≡ record {
      change = record {
        stamp = stamp;
        tx = codes "t1";
        row = record { table = codes "T"; key = record { column = codes "K"; value = Value.Int64 (pos number) } ∷ [] };
        kind = Kind.Insert;
        new = [];
        old = [];
      };
      columns = record { name = codes "K"; ty = ColumnType.Int64; is_key = true; ordinal = 1 } ∷ [];
      capture = CaptureType.NewRow;
      tag = codes "";
      system = false;
    }) }
{
    Ok(Captured {
        change: change(alloc, stamp, number)?,
        columns: columns(alloc)?,
        capture: CaptureType::NewRow,
        tag: Text::of(alloc, "")?,
        system: false,
    })
}

/// One insert more than a record takes.
pub fn inserts(alloc: Global, stamp: Stamp) -> Result<Items<Captured>, Memory>
    ensures agree { IfOk result (λ items. All (λ a. All (λ b. Agree a b) items) items) }
    ensures rows { IfOk result (λ items. IsDistinct same_row (map (λ c. c.change.row) items)) }
    ensures columns { IfOk result (λ items. All HasItsColumns items) }
    ensures count { IfOk result (λ items. length items ≡ 33) }
{
    same_row_is_equality();
    let mut items = Items::new(alloc);
    for number in 0..33u32 {
        items.push(insert(alloc, stamp, number)?)?;
    }
    Ok(items)
}

fn one_mod(alloc: Global) -> Result<Mod, CellsFault> {
    let mut cells = Items::new(alloc);
    cells.push(Cell {
        column: Text::of(alloc, "K")?,
        value: Value::Int64(1),
    })?;
    Ok(Mod {
        keys: Cells::of(cells)?,
        new: Cells::none(alloc),
        old: Cells::none(alloc),
    })
}

fn mods(alloc: Global, count: u32) -> Result<Items<Mod>, CellsFault> {
    let mut mods = Items::new(alloc);
    for _ in 0..count {
        mods.push(one_mod(alloc)?)?;
    }
    Ok(mods)
}

fn record_of(alloc: Global, stamp: Stamp, mods: Items<Mod>) -> Result<DataRecord, Memory> {
    Ok(DataRecord {
        stamp,
        sequence: 0,
        tx: Text::of(alloc, "t1")?,
        is_last: true,
        table: Text::of(alloc, "T")?,
        columns: columns(alloc)?,
        mods,
        kind: Kind::Insert,
        capture: CaptureType::NewRow,
        records_in_tx: 1,
        parts_in_tx: 1,
        tag: Text::of(alloc, "")?,
        system: false,
    })
}

/// A record of so many mods of one row.
pub fn data_record(alloc: Global, stamp: Stamp, count: u32) -> Result<DataRecord, CellsFault> {
    let mods = mods(alloc, count)?;
    Ok(record_of(alloc, stamp, mods)?)
}
