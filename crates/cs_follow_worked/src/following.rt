// A run of a follower, in words.
ghost use Rattle.std.specs.Prelude.{◌≤◌};

use crate::answers::moment;
use crate::books::{Disks, empty_disks, opened, tell_bytes};
use crate::telling::tell_outcome;
use cs_follow::{Outcome, Pace, follow_one};
use cs_link::{Limits, Link};
use cs_types::{Memory, Text, Window};
use std::alloc::Global;

/// The window of S between two moments, in microseconds after midnight.
pub fn window(alloc: Global, start: u32, end: u32) -> Result<Window, Memory> {
    Ok(Window {
        stream: Text::of(alloc, "S")?,
        start: moment(start)?,
        end: moment(end)?,
    })
}

/// A run over disks: its outcome, or none where their book cannot be opened, and the disks.
pub fn followed<K: Link>(
    alloc: Global,
    link: &mut K,
    disks: Disks,
    window: &Window,
    order: u64,
    records: u32,
) -> Result<(Option<Outcome>, Disks), Memory>
    requires { (1 ≤ records) × (records ≤ 8192) }
{
    let pace = Pace {
        order,
        turns: 100,
        limits: Limits {
            records,
            bytes: 1_048_576,
        },
    };
    match opened(alloc, disks, window)? {
        Ok(book) => {
            let mut book = book;
            let outcome = follow_one(alloc, &mut book, link, &pace);
            let (journal, output) = book.close();
            Ok((Some(outcome), Disks { journal, output }))
        }
        Err(disks) => Ok((None, disks)),
    }
}

/// How a run over disks stopped, and its output; the disks come back.
pub fn tell_run_over<K: Link>(
    alloc: Global,
    told: &mut String,
    link: &mut K,
    disks: Disks,
    window: &Window,
    records: u32,
) -> Result<Disks, Memory>
    requires { (1 ≤ records) × (records ≤ 8192) }
{
    let (outcome, disks) = followed(alloc, link, disks, window, 0, records)?;
    match outcome {
        Some(outcome) => tell_outcome(alloc, told, &outcome)?,
        None => told.push_str("not opened")?,
    }
    told.push_str("\n")?;
    tell_bytes(told, &disks.output)?;
    Ok(disks)
}

/// How a run from nothing stopped, and its output.
pub fn tell_run<K: Link>(
    alloc: Global,
    told: &mut String,
    link: &mut K,
    window: &Window,
    records: u32,
) -> Result<(), Memory>
    requires { (1 ≤ records) × (records ≤ 8192) }
{
    let disks = empty_disks(alloc)?;
    let _disks = tell_run_over(alloc, told, link, disks, window, records)?;
    Ok(())
}
