//! Record lines, read and written back, and the changes that they tell.

use crate::trouble::Trouble;
use cs_json::{record_from_line, record_to_line};
use cs_output::line_of;
use cs_records::{DataRecord, LineFault, Record, RecordFault, changes_of};
use cs_types::Change;
use std::alloc::Global;

/// Reads each line as a record, and gives the one line that is written for it, or the
/// fault for which it stands for none; one line each.
pub fn lines(alloc: Global, text: &str) -> Result<String, Trouble> {
    let mut answers = String::new(alloc);
    for line in text.lines() {
        if !answers.is_empty() {
            answers.push('\n')?;
        }
        answer_to(alloc, &mut answers, line)?;
    }
    Ok(answers)
}

/// Reads each line as a record, and gives the output lines of the changes that it tells,
/// or why it tells none; a record that tells of no changes gives nothing.
pub fn changes(alloc: Global, text: &str) -> Result<String, Trouble> {
    let mut answers = String::new(alloc);
    for line in text.lines() {
        let read = record_from_line(alloc, line.as_bytes());
        if let Ok(Record::Change(item)) = &read {
            tell(alloc, &mut answers, item)?;
        }
    }
    Ok(answers)
}

fn tell(alloc: Global, answers: &mut String, item: &DataRecord) -> Result<(), Trouble> {
    let told = changes_of(alloc, item);
    match told {
        Ok(changes) => tell_each(alloc, answers, changes.as_slice()),
        Err(RecordFault::KeyMissing(column)) => {
            answers.push_str("KeyMissing ")?;
            push_line(answers, column.as_str())
        }
        Err(RecordFault::KeyTwice(row)) => {
            answers.push_str("KeyTwice ")?;
            push_line(answers, row.table.as_str())
        }
        Err(RecordFault::Memory) => Err(Trouble::Memory),
    }
}

fn tell_each(alloc: Global, answers: &mut String, changes: &[Change]) -> Result<(), Trouble> {
    for change in changes {
        let line = line_of(alloc, change)?;
        push_line(answers, line.as_str())?;
    }
    Ok(())
}

fn push_line(answers: &mut String, line: &str) -> Result<(), Trouble> {
    answers.push_str(line)?;
    answers.push('\n')?;
    Ok(())
}

fn answer_to(alloc: Global, answers: &mut String, line: &str) -> Result<(), Trouble> {
    let read = record_from_line(alloc, line.as_bytes());
    match read {
        Ok(record) => {
            let text = record_to_line(alloc, &record)?;
            answers.push_str(text.as_str())?;
        }
        Err(fault) => {
            let name = name_of(alloc, &fault)?;
            answers.push_str(name.as_str())?;
        }
    }
    Ok(())
}

/// A fault's name, and that of its member.
fn name_of(alloc: Global, fault: &LineFault) -> Result<String, Trouble> {
    match fault {
        LineFault::NotJson => Ok(format!(in alloc; "NotJson")?),
        LineFault::Member(name) => Ok(format!(in alloc; "Member {}", name.as_str())?),
        LineFault::ArrayCount => Ok(format!(in alloc; "ArrayCount")?),
        LineFault::BadValue(name) => Ok(format!(in alloc; "BadValue {}", name.as_str())?),
        LineFault::TooLong => Ok(format!(in alloc; "TooLong")?),
        LineFault::Memory => Err(Trouble::Memory),
    }
}
