// What a link in memory answers, step by step.
use cs_link::{Closing, MemLink, MemRead, Step};
use cs_records::{Child, ChildRecord, ColumnInfo, DataRecord, Mod, Record};
use cs_types::{
    CaptureType, Cell, Cells, CellsFault, ColumnType, Duplicate, Items, Kind, Memory, Stamp, Text,
    Token, Value,
};
use std::alloc::Global;

/// 2024-05-01T00:00:00Z.
pub const MIDNIGHT: u64 = 1_714_521_600_000_000;

/// One step of an answer. Moments are seconds after midnight, and a token is its number.
#[derive(Clone, Copy)]
pub enum Say<'a> {
    /// The insert of a row, by its key.
    Data(u32, u32),
    /// A record that tells the insert of one row twice.
    Twice(u32, u32),
    Heartbeat(u32),
    /// A child and its parents.
    Child(u32, u32, &'a [u32]),
    CaughtUp(u32),
    Cut,
    Finished,
}

/// The moment so many microseconds after midnight.
pub fn moment(us: u32) -> Result<Stamp, Memory> {
    Stamp::of(MIDNIGHT + u64::from(us)).ok_or(Memory)
}

/// The moment so many seconds after midnight.
pub fn second(seconds: u32) -> Result<Stamp, Memory> {
    Stamp::of(MIDNIGHT + 1_000_000 * u64::from(seconds)).ok_or(Memory)
}

/// The token of the part of S with this number.
pub fn token(alloc: Global, number: u32) -> Result<Token, Memory> {
    let text = format!(in alloc; "S-{number:05}")?;
    Token::of(alloc, text.as_bytes())?.ok_or(Memory)
}

pub fn tokens(alloc: Global, numbers: &[u32]) -> Result<Items<Token>, Memory> {
    let mut tokens = Items::new(alloc);
    for number in numbers {
        tokens.push(token(alloc, *number)?)?;
    }
    Ok(tokens)
}

fn column(alloc: Global, name: &str, ty: ColumnType, ordinal: u32) -> Result<ColumnInfo, Memory> {
    Ok(ColumnInfo {
        name: Text::of(alloc, name)?,
        ty,
        is_key: ordinal == 1,
        ordinal,
    })
}

fn columns(alloc: Global) -> Result<Items<ColumnInfo>, Memory> {
    let mut columns = Items::new(alloc);
    columns.push(column(alloc, "K", ColumnType::Int64, 1)?)?;
    columns.push(column(alloc, "A", ColumnType::Int64, 2)?)?;
    columns.push(column(alloc, "B", ColumnType::Text, 3)?)?;
    Ok(columns)
}

fn key(alloc: Global, number: u32) -> Result<Cells, CellsFault> {
    let mut cells = Items::new(alloc);
    cells.push(Cell {
        column: Text::of(alloc, "K")?,
        value: Value::Int64(i64::from(number)),
    })?;
    Cells::of(cells)
}

fn new_cells(alloc: Global) -> Result<Cells, CellsFault> {
    let mut cells = Items::new(alloc);
    cells.push(Cell {
        column: Text::of(alloc, "A")?,
        value: Value::Int64(5),
    })?;
    cells.push(Cell {
        column: Text::of(alloc, "B")?,
        value: Value::Text(Text::of(alloc, "x")?),
    })?;
    Cells::of(cells)
}

fn mods(alloc: Global, number: u32, count: u32) -> Result<Items<Mod>, CellsFault> {
    let mut mods = Items::new(alloc);
    for _ in 0..count {
        mods.push(Mod {
            keys: key(alloc, number)?,
            new: new_cells(alloc)?,
            old: Cells::none(alloc),
        })?;
    }
    Ok(mods)
}

fn record_of(alloc: Global, stamp: Stamp, tx: Text, mods: Items<Mod>) -> Result<Step, Memory> {
    Ok(Step::Record(Record::Change(DataRecord {
        stamp,
        sequence: 0,
        tx,
        is_last: true,
        table: Text::of(alloc, "T")?,
        columns: columns(alloc)?,
        mods,
        kind: Kind::Insert,
        capture: CaptureType::OldAndNewValues,
        records_in_tx: 1,
        parts_in_tx: 1,
        tag: Text::of(alloc, "")?,
        system: false,
    })))
}

/// The id of the transaction of this number.
fn tx(alloc: Global, number: u32) -> Result<Text, Memory> {
    Text::from_string(format!(in alloc; "t{number}")?)
}

/// A record that tells the insert of one row so often. Its transaction has the number of the row.
fn data(alloc: Global, seconds: u32, number: u32, count: u32) -> Result<Step, CellsFault> {
    let mods = mods(alloc, number, count)?;
    let tx = tx(alloc, number)?;
    Ok(record_of(alloc, second(seconds)?, tx, mods)?)
}

/// A record of these children, which have the same parents.
pub fn children(
    alloc: Global,
    seconds: u32,
    tokens: Items<Token>,
    parents: &Items<Token>,
) -> Result<Step, Memory> {
    let mut children = Items::new(alloc);
    for token in tokens.as_slice() {
        children.push(Child {
            token: token.copy()?,
            parents: parents.copy()?,
        })?;
    }
    Ok(Step::Record(Record::Children(ChildRecord {
        start: second(seconds)?,
        sequence: 0,
        children,
    })))
}

fn child(alloc: Global, seconds: u32, number: u32, parents: &[u32]) -> Result<Step, Memory> {
    let token = tokens(alloc, &[number])?;
    let parents = tokens(alloc, parents)?;
    children(alloc, seconds, token, &parents)
}

/// One step as it is said.
pub fn step(alloc: Global, say: Say<'_>) -> Result<Step, CellsFault> {
    match say {
        Say::Data(seconds, number) => data(alloc, seconds, number, 1),
        Say::Twice(seconds, number) => data(alloc, seconds, number, 2),
        Say::Heartbeat(seconds) => Ok(Step::Record(Record::Heartbeat(second(seconds)?))),
        Say::Child(seconds, number, parents) => Ok(child(alloc, seconds, number, parents)?),
        Say::CaughtUp(seconds) => Ok(Step::Closing(Closing::CaughtUp(second(seconds)?))),
        Say::Cut => Ok(Step::Closing(Closing::Cut)),
        Say::Finished => Ok(Step::Closing(Closing::Finished)),
    }
}

/// The answer to one READ.
pub fn answer(alloc: Global, says: &[Say<'_>]) -> Result<MemRead, CellsFault> {
    let mut steps = Items::new(alloc);
    for say in says {
        steps.push(step(alloc, *say)?)?;
    }
    Ok(MemRead::Steps(steps))
}

/// A link whose READs are answered so.
pub fn link(alloc: Global, reads: Items<MemRead>) -> Result<MemLink, Memory> {
    MemLink::new(alloc, reads, second(10)?, Items::new(alloc))
}
