ghost use Rattle.std.specs.Prelude.{◌≡◌, ◌++◌, ◌<◌, OnOk, IfOk, string_bytes};
ghost use Rattle.cs_types.specs.Stamp.{IsStamp};
ghost use Rattle.cs_generator.specs.Generated.{IsSize, commit_stamp, commit_line, at_member};

use crate::script::{LENGTH, START};
use crate::writes::write_of;
use cs_types::{Memory, Stamp};
use std::alloc::Global;

/// The stamp of commit i.
pub(crate) fn commit_stamp(commits: u64, i: u64) -> Stamp
    requires size { IsSize commits }
    requires within { i < commits }
    ensures { result ≡ commit_stamp commits i }
{
    let us = START + (i / 2 + 1) * 2 * (LENGTH / commits);
    match Stamp::of(us) {
        Some(stamp) => stamp,
        None => unreachable!(),
    }
}

/// The line of commit i, which has this stamp.
pub(crate) fn commit_line(alloc: Global, at: Stamp, commits: u64, i: u64) -> Result<String, Memory>
    requires stamp { at ≡ commit_stamp commits i }
    ensures { IfOk result (λ s. string_bytes s ≡ commit_line commits i) }
{
    let front = at_member(alloc, at)?;
    let write = write_of(alloc, i)?;
    Ok(format!(in alloc; "{front}\"commit\":{{\"id\":\"t{i}\",\"writes\":[{write}]}}}}\n")?)
}

/// The member with which a line begins.
pub(crate) fn at_member(alloc: Global, at: Stamp) -> Result<String, Memory>
    ensures { IfOk result (λ s. string_bytes s ≡ at_member at) }
{
    let stamp = at.write(alloc)?;
    let stamp = stamp.as_str();
    Ok(format!(in alloc; "{{\"at\":\"{stamp}\",")?)
}
