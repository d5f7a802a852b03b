//! The top call over the files that the words name.

use crate::CANNOT_OPEN;
use crate::begun::refusal;
use crate::held::hold;
use crate::progress::{Progress, Shown};
use crate::told::{Paths, say, tell};
use cs_ddl::parse_query;
use cs_device::{Disk, FileDisk, FileSink, FileSource, MemDisk, MemSource, Source};
use cs_tool::{Command, Status, WordsFault, expected_at, read_words, run};
use cs_types::{Items, Memory};
use std::fs::{File, OpenOptions};
use std::io;

/// The place of the query among the words of show.
const QUERY: usize = 3;

/// No files are named.
const NO_PATHS: Paths<'static> = Paths {
    script: "",
    output: "",
};

/// Makes the top call, and says on standard error what a status above 0 means.
pub fn run_on(rt: &HostRuntime, words: &[String]) -> u8 {
    match read_words(rt.alloc(), words) {
        Ok(
            Command::Replay {
                script,
                journal,
                output,
                ..
            },
        ) => replay(
            rt,
            words,
            script.as_str(),
            journal.as_str(),
            output.as_str(),
        ),
        Ok(Command::Check { script, output, .. }) => {
            check(rt, words, script.as_str(), output.as_str())
        }
        Ok(Command::Show { script, .. }) => show(rt, words, script.as_str()),
        Ok(Command::Gen { .. }) => without_files(rt, words),
        Err(WordsFault::Memory) => no_memory(rt),
        Err(fault) => {
            hint(rt, words, fault);
            without_files(rt, words)
        }
    }
}

fn replay(rt: &HostRuntime, words: &[String], script: &str, journal: &str, output: &str) -> u8 {
    let paths = Paths { script, output };
    let Ok(source) = File::open(rt, script) else {
        return cannot_open(rt, script);
    };
    let Ok(journal_file) = open_disk(rt, journal) else {
        return cannot_open(rt, journal);
    };
    let Ok(output_file) = open_disk(rt, output) else {
        return cannot_open(rt, output);
    };
    on_files(rt, words, source, journal_file, output_file, &paths)
}

/// Holds the two files to the end of the run, and follows where the journal is one of ours.
fn on_files(
    rt: &HostRuntime,
    words: &[String],
    source: File,
    journal: File,
    output: File,
    paths: &Paths<'_>,
) -> u8 {
    if let Err(cause) = hold(&journal, &output) {
        return cannot_hold(rt, cause);
    }
    let mut journal = journal;
    if let Some(status) = refusal(rt.alloc(), &mut journal) {
        return tell(rt, &status, paths);
    }
    on_held(rt, words, source, journal, output, paths)
}

fn on_held(
    rt: &HostRuntime,
    words: &[String],
    source: File,
    journal: File,
    output: File,
    paths: &Paths<'_>,
) -> u8 {
    let mut source = shown(rt, source);
    let mut journal = FileDisk::new(journal);
    let mut output = FileDisk::new(output);
    let status = on_objects(rt, words, &mut source, &mut journal, &mut output);
    source.end();
    say(rt, &status, paths)
}

fn check(rt: &HostRuntime, words: &[String], script: &str, output: &str) -> u8 {
    let paths = Paths { script, output };
    let Ok(source) = File::open(rt, script) else {
        return cannot_open(rt, script);
    };
    let Some(output_file) = open_file(rt, output) else {
        return cannot_open(rt, output);
    };
    let Ok(mut journal) = no_disk(rt) else {
        return no_memory(rt);
    };
    let mut source = shown(rt, source);
    let mut output_disk = FileDisk::new(output_file);
    let status = on_objects(rt, words, &mut source, &mut journal, &mut output_disk);
    source.end();
    say(rt, &status, &paths)
}

fn show(rt: &HostRuntime, words: &[String], script: &str) -> u8 {
    let paths = Paths { script, output: "" };
    let Ok(source) = File::open(rt, script) else {
        return cannot_open(rt, script);
    };
    let (Ok(mut journal), Ok(mut output)) = (no_disk(rt), no_disk(rt)) else {
        return no_memory(rt);
    };
    let mut source = shown(rt, source);
    let status = on_objects(rt, words, &mut source, &mut journal, &mut output);
    source.end();
    say(rt, &status, &paths)
}

/// Says that there is not enough memory, where the top call was not made.
fn no_memory(rt: &HostRuntime) -> u8 {
    let _ = println!(rt; "60 Memory");
    say(rt, &Status::Memory, &NO_PATHS)
}

/// Empty objects in memory stand for what the words do not name.
fn without_files(rt: &HostRuntime, words: &[String]) -> u8 {
    match in_memory(rt, words) {
        Ok(status) => say(rt, &status, &NO_PATHS),
        Err(Memory) => no_memory(rt),
    }
}

fn in_memory(rt: &HostRuntime, words: &[String]) -> Result<Status, Memory> {
    let alloc = rt.alloc();
    let mut script = MemSource::new(alloc, Items::new(alloc), Items::new(alloc))?;
    let mut journal = no_disk(rt)?;
    let mut output = no_disk(rt)?;
    Ok(on_objects(rt, words, &mut script, &mut journal, &mut output))
}

fn on_objects<S: Source, J: Disk, O: Disk>(
    rt: &HostRuntime,
    words: &[String],
    script: &mut S,
    journal: &mut J,
    output: &mut O,
) -> Status {
    let mut console = FileSink::new(io::writer(rt));
    run(rt.alloc(), words, script, journal, output, &mut console)
}

/// A script that shows on a terminal how far it was read.
fn shown<'a>(rt: &'a HostRuntime, script: File) -> Shown<'a, FileSource<File>> {
    let progress = Progress::of(rt, &script);
    Shown::new(FileSource::new(script), progress)
}

fn no_disk(rt: &HostRuntime) -> Result<MemDisk, Memory> {
    let alloc = rt.alloc();
    MemDisk::new(alloc, Items::new(alloc), 0, 0, Items::new(alloc))
}

/// A file to read; nothing where it cannot be read, or is a folder.
fn open_file(rt: &HostRuntime, path: &str) -> Option<File> {
    let file = File::open(rt, path).ok()?;
    if file.metadata().ok()?.is_dir() {
        return None;
    }
    Some(file)
}

/// A file to read and write, made where it is absent.
fn open_disk(rt: &HostRuntime, path: &str) -> io::Result<File> {
    OpenOptions::new()
        .read(true)
        .write(true)
        .create(true)
        .open(rt, path)
}

/// The word at fault, and the form that was expected.
fn hint(rt: &HostRuntime, words: &[String], fault: WordsFault) {
    let WordsFault::At(place) = fault else {
        return;
    };
    let first = match words.get(0) {
        Some(word) => word.as_str(),
        None => "",
    };
    let expected = expected_at(words, place);
    let told = match words.get(place) {
        Some(word) => eprintln!(rt; "spanstream: word {place} is {word:?}; expected {expected}"),
        None => eprintln!(rt; "spanstream: word {place} is missing; expected {expected}"),
    };
    let _ = told;
    if first == "show" && place == QUERY {
        if let Some(query) = words.get(place) {
            query_hint(rt, query.as_str());
        }
    }
}

/// The byte of a query with which none goes on, and one that is right.
fn query_hint(rt: &HostRuntime, query: &str) {
    if let Err(fault) = parse_query(rt.alloc(), query.as_bytes()) {
        let _ = eprintln!(rt; "spanstream: QUERY: {fault}");
        let _ = eprintln!(rt;
            "spanstream: a right form: SELECT ChangeRecord FROM READ_S('2024-05-01T00:00:01Z', '2024-05-01T00:00:20Z', 'S-00000', 10000)"
        );
    }
}

fn cannot_open(rt: &HostRuntime, word: &str) -> u8 {
    let _ = eprintln!(rt; "cannot open {word}");
    CANNOT_OPEN
}

fn cannot_hold(rt: &HostRuntime, cause: &str) -> u8 {
    let _ = eprintln!(rt; "spanstream: {cause}");
    CANNOT_OPEN
}
