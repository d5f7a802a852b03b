//! Stories: statements and transactions of one write, one a line, and what a stream tells of them.
//!
//! `ddl STATEMENT`, or `insert`, `update` or `delete` with an id, a second, the cell of the key and
//! the cells that are set, each as `COLUMN=VALUE`, of the table T.

use crate::trouble::Trouble;
use cs_audit::{Verdict, audit, can_be_audited};
use cs_capture::{capture, wanted};
use cs_ddl::parse_ddl;
use cs_output::{Line, TextFault, line_of, read_lines};
use cs_records::Captured;
use cs_schema::Catalog;
use cs_txn::{History, Txn, TxnFault, Write};
use cs_types::{Cell, Cells, Change, Items, Kind, RowName, Stamp, Text, Value};
use std::alloc::Global;

/// 2024-05-01T00:00:00Z, in microseconds.
const BEGIN: u64 = 1_714_521_600_000_000;

/// A catalog, the history that commits in it, and an answer to each line.
#[derive(Drop)]
struct Story {
    catalog: Catalog,
    history: History,
    answers: String,
}

/// So many seconds behind the beginning.
fn second(count: &str) -> Result<Stamp, Trouble> {
    let Ok(count) = count.parse::<u32>() else {
        return Err(Trouble::Words);
    };
    match Stamp::of(BEGIN + 1_000_000 * count as u64) {
        Some(stamp) => Ok(stamp),
        None => Err(Trouble::Moment),
    }
}

fn story_of(alloc: Global, text: &str) -> Result<Story, Trouble> {
    let mut story = Story {
        catalog: Catalog::new(alloc),
        history: History::new(alloc),
        answers: String::new(alloc),
    };
    for line in text.lines() {
        let answer = tell(alloc, &mut story, line)?;
        story.answers.push_str(answer.as_str())?;
        story.answers.push('\n')?;
    }
    Ok(story)
}

fn tell(alloc: Global, story: &mut Story, line: &str) -> Result<String, Trouble> {
    let Some((command, rest)) = line.split_once(' ') else {
        return Err(Trouble::Words);
    };
    match command {
        "ddl" => apply(alloc, &mut story.catalog, rest),
        "insert" => commit(alloc, story, Kind::Insert, rest),
        "update" => commit(alloc, story, Kind::Update, rest),
        "delete" => commit(alloc, story, Kind::Delete, rest),
        _ => Err(Trouble::Words),
    }
}

fn apply(alloc: Global, catalog: &mut Catalog, text: &str) -> Result<String, Trouble> {
    let at = second("0")?;
    let Ok(statement) = parse_ddl(alloc, text.as_bytes()) else {
        return Err(Trouble::Statement);
    };
    let applied = catalog.apply(at, &statement);
    match applied {
        Ok(()) => Ok(String::from_str(alloc, "taken")?),
        Err(fault) => Ok(format!(in alloc; "{fault}")?),
    }
}

fn commit(alloc: Global, story: &mut Story, kind: Kind, words: &str) -> Result<String, Trouble> {
    let txn = txn_of(alloc, kind, words)?;
    let committed = story.history.commit(&story.catalog, &txn);
    match committed {
        Ok(()) => Ok(String::from_str(alloc, "taken")?),
        Err(fault) => refusal(alloc, &fault),
    }
}

fn txn_of(alloc: Global, kind: Kind, words: &str) -> Result<Txn, Trouble> {
    let Some((id, rest)) = words.split_once(' ') else {
        return Err(Trouble::Words);
    };
    let Some((at, cells)) = rest.split_once(' ') else {
        return Err(Trouble::Words);
    };
    let mut writes = Items::new(alloc);
    writes.push(write_of(alloc, kind, cells)?)?;
    Ok(Txn {
        stamp: second(at)?,
        tx: Text::of(alloc, id)?,
        tag: Text::of(alloc, "tag")?,
        writes,
    })
}

fn write_of(alloc: Global, kind: Kind, cells: &str) -> Result<Write, Trouble> {
    match cells.split_once(' ') {
        Some((key, set)) => write(alloc, kind, key, set),
        None => write(alloc, kind, cells, ""),
    }
}

fn write(alloc: Global, kind: Kind, key: &str, set: &str) -> Result<Write, Trouble> {
    let row = RowName {
        table: Text::of(alloc, "T")?,
        key: cells_of(alloc, key)?,
    };
    let set = cells_of(alloc, set)?;
    Ok(Write { kind, row, set })
}

fn cells_of(alloc: Global, words: &str) -> Result<Cells, Trouble> {
    let mut cells = Items::new(alloc);
    for word in words.split_whitespace() {
        cells.push(cell_of(alloc, word)?)?;
    }
    Ok(Cells::of(cells)?)
}

/// A cell: a value that is a number is an INT64, any other a STRING.
fn cell_of(alloc: Global, word: &str) -> Result<Cell, Trouble> {
    let Some((column, value)) = word.split_once('=') else {
        return Err(Trouble::Words);
    };
    let value = match value.parse::<i64>() {
        Ok(number) => Value::Int64(number),
        Err(_) => Value::Text(Text::of(alloc, value)?),
    };
    Ok(Cell {
        column: Text::of(alloc, column)?,
        value,
    })
}

fn refusal(alloc: Global, fault: &TxnFault) -> Result<String, Trouble> {
    let name = match fault {
        TxnFault::IdUsed => "IdUsed",
        TxnFault::StampBack => "StampBack",
        TxnFault::RowTwice(_) => "RowTwice",
        TxnFault::RowThere(_) => "RowThere",
        TxnFault::NoRow(_) => "NoRow",
        TxnFault::BadValue(_) => "BadValue",
        TxnFault::KeyColumnSet(_) => "KeyColumnSet",
        TxnFault::SharedStampRow(_) => "SharedStampRow",
        TxnFault::NoTable(_) => "NoTable",
        TxnFault::NoColumn(_) => "NoColumn",
        TxnFault::RowTooLarge(_) => "RowTooLarge",
        TxnFault::HistoryFull => "HistoryFull",
        TxnFault::Memory => return Err(Trouble::Memory),
    };
    Ok(format!(in alloc; "{name} {}", named_by(fault))?)
}

/// The column, table or transaction that a refusal names.
fn named_by(fault: &TxnFault) -> &str {
    match fault {
        TxnFault::BadValue(name) | TxnFault::KeyColumnSet(name) => name.as_str(),
        TxnFault::SharedStampRow(name) => name.as_str(),
        TxnFault::NoTable(name) | TxnFault::NoColumn(name) => name.as_str(),
        _ => "",
    }
}

/// The answers to a story's lines.
pub fn answers(alloc: Global, text: &str) -> Result<String, Trouble> {
    let story = story_of(alloc, text)?;
    Ok(story.answers)
}

/// The moment of the last commit.
fn end_of(story: &Story) -> Result<Stamp, Trouble> {
    match story.history.modifications() {
        [.., last] => Ok(last.stamp),
        [] => second("0"),
    }
}

/// The changes that a story's first stream captures.
fn changes_of(alloc: Global, story: &Story) -> Result<Items<Change>, Trouble> {
    let start = second("0")?;
    let end = end_of(story)?;
    match story.catalog.streams().first() {
        Some(stream) => Ok(wanted(alloc, &story.history, &story.catalog, stream, start, end)?),
        None => Err(Trouble::Statement),
    }
}

/// The lines of the changes that a story's first stream captures.
pub fn changes(alloc: Global, text: &str) -> Result<String, Trouble> {
    let story = story_of(alloc, text)?;
    let changes = changes_of(alloc, &story)?;
    let mut told = String::new(alloc);
    for change in changes.as_slice() {
        let line = line_of(alloc, change)?;
        told.push_str(line.as_str())?;
        told.push('\n')?;
    }
    Ok(told)
}

fn push_columns(alloc: Global, told: &mut String, captured: &Captured) -> Result<(), Trouble> {
    for column in captured.columns.as_slice() {
        let ordinal = column.ordinal;
        let one = format!(in alloc; "{ordinal} {}, ", column.name.as_str())?;
        told.push_str(one.as_str())?;
    }
    Ok(())
}

/// The columns that a story's first stream tells of each write, with their ordinals.
pub fn columns(alloc: Global, text: &str) -> Result<String, Trouble> {
    let story = story_of(alloc, text)?;
    let Some(stream) = story.catalog.streams().first() else {
        return Err(Trouble::Statement);
    };
    let mut told = String::new(alloc);
    for item in story.history.modifications() {
        if let Some(captured) = capture(alloc, &story.catalog, stream, item)? {
            push_columns(alloc, &mut told, &captured)?;
        }
        told.push('\n')?;
    }
    Ok(told)
}

/// The verdict on lines, where the changes can be told apart.
fn verdict_on(
    alloc: Global,
    lines: &[Line],
    wanted: &[Change],
    end: Stamp,
) -> Result<Verdict, Trouble> {
    if can_be_audited(alloc, wanted)? {
        Ok(audit(alloc, lines, wanted, end)?)
    } else {
        Err(Trouble::Changes)
    }
}

fn told(alloc: Global, verdict: &Verdict) -> Result<String, Trouble> {
    match verdict {
        Verdict::Complete => Ok(format!(in alloc; "Complete")?),
        Verdict::Prefix(None) => Ok(format!(in alloc; "Prefix")?),
        Verdict::Prefix(Some(stamp)) => {
            let text = stamp.write(alloc)?;
            Ok(format!(in alloc; "Prefix {}", text.as_str())?)
        }
        Verdict::Extra(line) => Ok(format!(in alloc; "Extra {line}")?),
        Verdict::OutOfOrder(line) => Ok(format!(in alloc; "OutOfOrder {line}")?),
        Verdict::WatermarkEarly(line, change) => {
            Ok(format!(in alloc; "WatermarkEarly {line} {}", change.tx.as_str())?)
        }
        Verdict::WatermarkBack(line) => Ok(format!(in alloc; "WatermarkBack {line}")?),
    }
}

/// The verdict on an output against the changes that a story's first stream captures.
pub fn verdict(alloc: Global, text: &str, output: &str) -> Result<String, Trouble> {
    let story = story_of(alloc, text)?;
    let wanted = changes_of(alloc, &story)?;
    let end = end_of(&story)?;
    let read = read_lines(alloc, output.as_bytes());
    match read {
        Ok(lines) => {
            let verdict = verdict_on(alloc, lines.as_slice(), wanted.as_slice(), end)?;
            told(alloc, &verdict)
        }
        Err(TextFault::BadLine(line)) => Ok(format!(in alloc; "BadLine {line}")?),
        Err(TextFault::NoEnd(line)) => Ok(format!(in alloc; "NoEnd {line}")?),
        Err(TextFault::Memory) => Err(Trouble::Memory),
    }
}
