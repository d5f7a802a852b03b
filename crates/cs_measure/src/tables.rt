//! Answers to the lines of a file, one line each: what each stands for, or why for nothing.

use crate::trouble::Trouble;
use cs_ddl::{SyntaxFault, parse_ddl, parse_query};
use cs_place::{Place, place_of};
use cs_types::{
    Cell, Cells, ColumnType, Items, Memory, RowName, Stamp, StampFault, Text, Value, ValueFault,
};
use std::alloc::Global;

/// The answers to all lines.
pub fn answers(alloc: Global, command: &str, text: &str) -> Result<String, Trouble> {
    let mut answers = String::new(alloc);
    for line in text.lines() {
        let answer = answer_to(alloc, command, line)?;
        answers.push_str(answer.as_str())?;
        answers.push('\n')?;
    }
    Ok(answers)
}

fn answer_to(alloc: Global, command: &str, line: &str) -> Result<String, Trouble> {
    match command {
        "values" => value(alloc, line),
        "places" => place(alloc, line),
        "stamps" => stamp(alloc, line),
        "statements" => statement(alloc, line),
        "queries" => query(alloc, line),
        _ => Err(Trouble::Words),
    }
}

fn word(alloc: Global, text: &str) -> Result<String, Trouble> {
    Ok(String::from_str(alloc, text)?)
}

fn type_of(code: &str) -> Option<ColumnType> {
    match code {
        "BOOL" => Some(ColumnType::Bool),
        "INT64" => Some(ColumnType::Int64),
        "NUMERIC" => Some(ColumnType::Numeric),
        "STRING" => Some(ColumnType::Text),
        "BYTES" => Some(ColumnType::Bytes),
        "DATE" => Some(ColumnType::Date),
        "TIMESTAMP" => Some(ColumnType::Timestamp),
        _ => None,
    }
}

/// The value of a line: a type's code, a blank and the JSON of a value.
fn read_value(alloc: Global, line: &str) -> Result<Result<Value, ValueFault>, Trouble> {
    let Some((code, json)) = line.split_once(' ') else {
        return Err(Trouble::Words);
    };
    let Some(ty) = type_of(code) else {
        return Err(Trouble::Words);
    };
    let Ok(tree) = serde_json::Value::from_str(alloc, json) else {
        return Err(Trouble::Words);
    };
    Ok(Value::from_tree(alloc, &tree, ty))
}

fn value_fault(fault: ValueFault) -> &'static str {
    match fault {
        ValueFault::WrongKind => "WrongKind",
        ValueFault::Range => "Range",
        ValueFault::BadText => "BadText",
        ValueFault::Memory => "Memory",
    }
}

/// The JSON that is written for a value.
fn written(alloc: Global, value: &Value) -> Result<String, Trouble> {
    if !value.in_range() {
        return Err(Trouble::Output);
    }
    let tree = value.to_tree(alloc)?;
    Ok(tree.to_string(alloc)?)
}

fn value(alloc: Global, line: &str) -> Result<String, Trouble> {
    match read_value(alloc, line)? {
        Ok(value) => written(alloc, &value),
        Err(fault) => word(alloc, value_fault(fault)),
    }
}

/// The row of the table T with this value as its key K.
fn row_of(alloc: Global, value: Value) -> Result<RowName, Trouble> {
    let mut cells = Items::new(alloc);
    cells.push(Cell {
        column: Text::of(alloc, "K")?,
        value,
    })?;
    Ok(RowName {
        table: Text::of(alloc, "T")?,
        key: Cells::of(cells)?,
    })
}

/// The bytes of a place, in hexadecimal digits.
fn digits(alloc: Global, place: &Place) -> Result<String, Memory> {
    let mut told = String::new(alloc);
    for byte in place.bytes.as_slice() {
        let byte = *byte;
        let two = format!(in alloc; "{byte:02x}")?;
        told.push_str(two.as_str())?;
    }
    Ok(told)
}

/// The place of the row of T with the line's value as its key.
fn place(alloc: Global, line: &str) -> Result<String, Trouble> {
    match read_value(alloc, line)? {
        Ok(value) => {
            let row = row_of(alloc, value)?;
            let place = place_of(alloc, &row)?;
            Ok(digits(alloc, &place)?)
        }
        Err(fault) => word(alloc, value_fault(fault)),
    }
}

/// A stamp's microseconds, and the text that is written for it.
fn stamp(alloc: Global, line: &str) -> Result<String, Trouble> {
    match Stamp::read(line.as_bytes()) {
        Ok(stamp) => {
            let us = stamp.us();
            let text = stamp.write(alloc)?;
            Ok(format!(in alloc; "{us} {}", text.as_str())?)
        }
        Err(StampFault::Shape(place)) => Ok(format!(in alloc; "Shape {place}")?),
        Err(StampFault::Range) => word(alloc, "Range"),
        Err(StampFault::TooFine) => word(alloc, "TooFine"),
    }
}

fn syntax(alloc: Global, fault: SyntaxFault) -> Result<String, Trouble> {
    match fault {
        SyntaxFault::At(place) => Ok(format!(in alloc; "At {place}")?),
        SyntaxFault::Memory => Err(Trouble::Memory),
    }
}

fn statement(alloc: Global, line: &str) -> Result<String, Trouble> {
    match parse_ddl(alloc, line.as_bytes()) {
        Ok(_) => word(alloc, "read"),
        Err(fault) => syntax(alloc, fault),
    }
}

fn query(alloc: Global, line: &str) -> Result<String, Trouble> {
    match parse_query(alloc, line.as_bytes()) {
        Ok(_) => word(alloc, "read"),
        Err(fault) => syntax(alloc, fault),
    }
}
