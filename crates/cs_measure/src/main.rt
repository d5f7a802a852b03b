//! Runs the calls that no command of the program uses yet, on data of its own, and says what they
//! answered, so that they can be timed and tried from outside.
#![tactic(auto)]

mod audits;
mod commits;
mod loads;
mod reads;
mod records;
mod stories;
mod tables;
mod trouble;

use crate::trouble::Trouble;
use std::alloc::Global;
use std::process::ExitCode;
use std::{env, fs, io};

const HELP: &str = "usage:
  commit N         makes N commits to one table
  audit N          audits the output of N commits
  fill             fills a history to its limit
  load FILE        loads a script
  reads FILE MOMENT QUERIES N  loads a script, and counts the steps of each query of a file, up to N
and of each line of a file
  lines FILE       reads a record, and writes it back
  changes FILE     reads a record, and writes the changes that it tells
  values FILE      reads a value of a type, and writes it back
  places FILE      reads a value of a type, and writes the place of its row
  stamps FILE      reads a stamp, and writes it back
  statements FILE  reads a statement
  queries FILE     reads a query
  story FILE       makes a statement or a transaction, and answers it
  captured FILE    the like, and writes the changes that the first stream captures
  columns FILE     the like, and writes the columns that the first stream tells of each write
  verdict FILE OUTPUT  the like, and audits an output against these changes
";

fn main(rt: HostRuntime) -> ExitCode {
    let Ok(words) = words_of(&rt) else {
        return said(&rt, &Err(Trouble::Memory));
    };
    let answer = answer_of(&rt, &words);
    said(&rt, &answer)
}

/// The words behind the program's name.
fn words_of(rt: &HostRuntime) -> io::Result<Vec<String>> {
    let mut words = Vec::new(rt.alloc());
    for word in env::args(rt)?.skip(1) {
        words.push(word)?;
    }
    Ok(words)
}

fn answer_of(rt: &HostRuntime, words: &[String]) -> Result<String, Trouble> {
    match words {
        [command] if command.as_str() == "fill" => commits::fill(rt.alloc()),
        [command, of] => answer_on(rt, command.as_str(), of.as_str()),
        [command, story, output] if command.as_str() == "verdict" => {
            let story = content(rt, story.as_str())?;
            let output = content(rt, output.as_str())?;
            stories::verdict(rt.alloc(), story.as_str(), output.as_str())
        }
        [command, script, moment, queries, page] if command.as_str() == "reads" => {
            let state = loads::state_of(rt, script.as_str())?;
            let queries = content(rt, queries.as_str())?;
            reads::answers(
                rt.alloc(),
                &state,
                moment.as_str(),
                queries.as_str(),
                page.as_str(),
            )
        }
        _ => Err(Trouble::Words),
    }
}

fn answer_on(rt: &HostRuntime, command: &str, of: &str) -> Result<String, Trouble> {
    match command {
        "commit" | "audit" => numbered(rt.alloc(), command, of),
        "load" => loads::loaded(rt, of),
        _ => {
            let text = content(rt, of)?;
            answer_to(rt.alloc(), command, text.as_str())
        }
    }
}

fn content(rt: &HostRuntime, path: &str) -> Result<String, Trouble> {
    match fs::read_to_string(rt, path) {
        Ok(text) => Ok(text),
        Err(_) => Err(Trouble::File),
    }
}

fn answer_to(alloc: Global, command: &str, text: &str) -> Result<String, Trouble> {
    match command {
        "lines" => records::lines(alloc, text),
        "changes" => records::changes(alloc, text),
        "story" => stories::answers(alloc, text),
        "captured" => stories::changes(alloc, text),
        "columns" => stories::columns(alloc, text),
        _ => tables::answers(alloc, command, text),
    }
}

fn numbered(alloc: Global, command: &str, count: &str) -> Result<String, Trouble> {
    let Ok(count) = count.parse::<u32>() else {
        return Err(Trouble::Words);
    };
    match command {
        "commit" => commits::commit(alloc, count),
        "audit" => audits::audited(alloc, count),
        _ => Err(Trouble::Words),
    }
}

/// Prints an answer; the status is 0 where it is one and was printed.
fn said(rt: &HostRuntime, answer: &Result<String, Trouble>) -> ExitCode {
    let told = match answer {
        Ok(text) => println!(rt; "{text}"),
        Err(trouble) => println!(rt; "{trouble}\n{HELP}"),
    };
    match (answer, told) {
        (Ok(_), Ok(())) => ExitCode::from(0),
        _ => ExitCode::from(1),
    }
}
