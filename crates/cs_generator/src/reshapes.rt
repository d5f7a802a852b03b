ghost use Rattle.std.specs.Prelude.{◌≡◌, ◌++◌, OnOk, IfOk, string_bytes};
ghost use Rattle.cs_types.specs.Stamp.{IsStamp};
ghost use Rattle.cs_generator.specs.Generated.{due_line, due_lines, reshape_line};

use crate::commits::at_member;
use crate::script::START;
use cs_types::{Memory, Stamp};
use std::alloc::Global;

/// Adds the lines of the reshapes that are above a stamp and not above another: a split at a table
/// and two at a row, then two merges.
pub(crate) fn push_due(
    alloc: Global,
    text: &mut String,
    above: u64,
    upto: u64,
) -> Result<(), Memory>
    ensures { OnOk result (string_bytes text.new ≡ string_bytes text.old ++ due_lines above upto) }
{
    let due = Due { above, upto };
    due.push(
        alloc,
        text,
        START + 10_000_000_000,
        "[{\"table\":\"Singers\"}]",
        "[\"G-00000\"]",
    )?;
    due.push(
        alloc,
        text,
        START + 20_000_000_000,
        "[{\"key\":{\"Id\":\"250\"},\"table\":\"Singers\"}]",
        "[\"G-00002\"]",
    )?;
    due.push(
        alloc,
        text,
        START + 30_000_000_000,
        "[{\"key\":{\"Id\":\"250\"},\"table\":\"Albums\"}]",
        "[\"G-00001\"]",
    )?;
    due.push(
        alloc,
        text,
        START + 40_000_000_000,
        "[]",
        "[\"G-00006\",\"G-00003\"]",
    )?;
    due.push(
        alloc,
        text,
        START + 50_000_000_000,
        "[]",
        "[\"G-00007\",\"G-00004\"]",
    )?;
    Ok(())
}

/// A span of stamps, the first one left out.
#[derive(Clone, Copy)]
struct Due {
    above: u64,
    upto: u64,
}

impl Due {
    ghost use Rattle.std.specs.Prelude.{◌≡◌, ◌≤◌, ◌++◌, OnOk, string_bytes};
    ghost use Rattle.cs_types.specs.Stamp.{IsStamp};
    ghost use Rattle.cs_generator.specs.Generated.{Reshape, due_line};

    /// Adds the line of a reshape where its stamp is within.
    fn push(
        self,
        alloc: Global,
        text: &mut String,
        at: u64,
        borders: &str,
        parts: &str,
    ) -> Result<(), Memory>
        requires stamp { IsStamp at }
        ensures { OnOk result (string_bytes text.new ≡ string_bytes text.old ++ due_line self.above self.upto (record { at = at; borders = borders.now; parts = parts.now })) }
    {
        if at <= self.above {
            return Ok(());
        }
        if self.upto < at {
            return Ok(());
        }
        text.push_str(&reshape_line(alloc, at, borders, parts)?)?;
        Ok(())
    }
}

/// The line of a reshape.
fn reshape_line(alloc: Global, at: u64, borders: &str, parts: &str) -> Result<String, Memory>
    requires stamp { IsStamp at }
    ensures { IfOk result (λ s. string_bytes s ≡ reshape_line (record { at = at; borders = borders.now; parts = parts.now })) }
{
    let Some(at) = Stamp::of(at) else {
        unreachable!()
    };
    let front = at_member(alloc, at)?;
    Ok(format!(in alloc;
        "{front}\"reshape\":{{\"borders\":{borders},\"parts\":{parts},\"stream\":\"G\"}}}}\n"
    )?)
}
