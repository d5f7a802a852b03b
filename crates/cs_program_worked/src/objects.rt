use cs_device::{MemDisk, MemSink, MemSource};
use cs_tool::run;
use cs_types::{Items, Memory};
use std::alloc::Global;

/// The objects of a run.
#[derive(Drop)]
pub struct Objects {
    pub script: MemSource,
    pub journal: MemDisk,
    pub output: MemDisk,
    pub console: MemSink,
}

/// A script with listed reads that fail.
pub fn source(alloc: Global, script: &str, fails: &[u64]) -> Result<MemSource, Memory> {
    let bytes = Items::from_slice(alloc, script.as_bytes())?;
    MemSource::new(alloc, bytes, Items::from_slice(alloc, fails)?)
}

/// A disk with these bytes that takes so many more, and listed calls that fail.
pub fn disk(alloc: Global, bytes: &[u8], room: u64, fails: &[u64]) -> Result<MemDisk, Memory> {
    let bytes = Items::from_slice(alloc, bytes)?;
    MemDisk::new(alloc, bytes, room, 1000, Items::from_slice(alloc, fails)?)
}

/// A disk that does not fail, with these bytes and ample room.
pub fn sound_disk(alloc: Global, bytes: &[u8]) -> Result<MemDisk, Memory> {
    disk(alloc, bytes, 2000, &[])
}

/// Objects that do not fail, over this script and these bytes of the journal and of the output.
pub fn sound_objects(
    alloc: Global,
    script: &str,
    journal: &[u8],
    output: &[u8],
) -> Result<Objects, Memory> {
    Ok(Objects {
        script: source(alloc, script, &[])?,
        journal: sound_disk(alloc, journal)?,
        output: sound_disk(alloc, output)?,
        console: MemSink::new(alloc, 1000, Items::new(alloc))?,
    })
}

/// Objects that do not fail, over this script and what a run left in its journal and its output.
pub fn objects_behind(alloc: Global, script: &str, left: &Objects) -> Result<Objects, Memory> {
    sound_objects(alloc, script, left.journal.bytes(), left.output.bytes())
}

fn words_of(alloc: Global, text: &str) -> Result<Vec<String>, Memory> {
    let mut words = Vec::new(alloc);
    for word in text.split_whitespace() {
        words.push(String::from_str(alloc, word)?)?;
    }
    Ok(words)
}

/// The status of the top call.
fn status(alloc: Global, words: &[String], all: &mut Objects) -> u8 {
    run(
        alloc,
        words,
        &mut all.script,
        &mut all.journal,
        &mut all.output,
        &mut all.console,
    )
    .code()
}

fn push_bytes(told: &mut String, bytes: &[u8]) -> Result<(), Memory> {
    for byte in bytes {
        told.push(char::from(*byte))?;
    }
    told.push('|')?;
    Ok(())
}

/// The status, and what then stands on the console, how many bytes the journal has, and the output.
pub fn told(alloc: Global, words: &str, all: &mut Objects) -> Result<String, Memory> {
    let words = words_of(alloc, words)?;
    let status = status(alloc, &words, all);
    let mut told = format!(in alloc; "{status}|")?;
    push_bytes(&mut told, all.console.bytes())?;
    let length = all.journal.bytes().len();
    let length = format!(in alloc; "{length}|")?;
    told.push_str(length.as_str())?;
    push_bytes(&mut told, all.output.bytes())?;
    Ok(told)
}
