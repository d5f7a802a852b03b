// The audit, line by line.
ghost use Rattle.std.specs.Prelude.{◌≡◌, ◌∷◌, ◌++◌, ◌↔◌, [], ℕ, List, IfOk, IsTrue};
ghost use Rattle.cs_output.specs.Output.{IsGood, IsComplete};
ghost use Rattle.cs_output.specs.Reading.{AreLinesOf};
ghost use Rattle.cs_audit.specs.Audit.{HaveOwnLines, AreApart, IsVerdict, SaysPrefix};
ghost use Rattle.cs_audit.specs.Index.{DifferInLines, IsTellable, Tells};
ghost use Rattle.cs_output.specs.declared.reading.Line.{Line};

use crate::Verdict;
use crate::index::index_of;
use crate::seen::{Offence, has_all, nothing_seen};
use cs_output::{Line, lines_have_one_meaning, lines_tell_changes};
use cs_types::{Change, Duplicate, Memory, Stamp};
use std::alloc::Global;

/// Holds the lines of an output against the changes that are wanted, in their order, and the end; the
/// rules are this project's own. The first line that is an offence is answered, and of two offences
/// of one line the one that stands first here:
/// `Extra`, the line of no wanted change;
/// `OutOfOrder`, not the next line of its row;
/// `WatermarkEarly`, with the first wanted change up to it that does not stand before it;
/// `WatermarkBack`, not above the last watermark, or above the end.
/// Without an offence it is `Complete` where all wanted changes stand and the last line is the
/// watermark of the end, else `Prefix` with the last watermark. Of lines from `read_lines` it is
/// Complete exactly where their bytes are a complete output, and Prefix exactly where they are a good
/// one that is not complete. `Memory` comes where there is none.
///
/// The order of changes of different rows is free. It takes n log n steps for n lines and wanted
/// changes together. Wanted changes of different rows have different lines, and no two of them agree
/// in both transaction and row; a caller that does not know it asks `can_be_audited`.
pub fn audit(
    alloc: Global,
    lines: &[Line],
    wanted: &[Change],
    end: Stamp,
) -> Result<Verdict, Memory>
    requires own_lines { HaveOwnLines wanted.now }
    requires apart { AreApart wanted.now }
    ensures verdict { IfOk result (λ v. IsVerdict v lines.now wanted.now end) }
    ensures complete { (bytes : List ℕ) → AreLinesOf bytes lines.now → IfOk result (λ v. (v ≡ Verdict.Complete) ↔ IsComplete bytes wanted.now end) }
    ensures prefix { (bytes : List ℕ) → AreLinesOf bytes lines.now → IfOk result (λ v. SaysPrefix v ↔ (IsGood bytes wanted.now end × (IsComplete bytes wanted.now end → ⊥))) }
{
    lines_tell_changes();
    lines_have_one_meaning();
    prove!(end.us() <= Stamp::GREATEST);
    judge(alloc, lines, wanted, end)
}

fn judge(alloc: Global, lines: &[Line], wanted: &[Change], end: Stamp) -> Result<Verdict, Memory>
    requires { DifferInLines wanted.now }
    ensures { IfOk result (λ v. IsVerdict v lines.now wanted.now end) }
{
    let index = index_of(alloc, wanted)?;
    let mut seen = nothing_seen(alloc, wanted)?;
    for (at, line) in lines.iter().enumerate() {
        if let Some(offence) = seen.take(&index, wanted, end, line) {
            return told(wanted, offence, at as u64 + 1);
        }
    }
    if !ends_with(lines, end) {
        return Ok(Verdict::Prefix(seen.last));
    }
    if !has_all(&seen.stands) {
        return Ok(Verdict::Prefix(seen.last));
    }
    Ok(Verdict::Complete)
}

/// The verdict of an offence at the line with a number.
fn told(wanted: &[Change], offence: Offence, number: u64) -> Result<Verdict, Memory>
    requires { IsTellable offence wanted.now }
    ensures { IfOk result (λ v. Tells offence wanted.now number v) }
{
    match offence {
        Offence::Extra => Ok(Verdict::Extra(number)),
        Offence::OutOfOrder => Ok(Verdict::OutOfOrder(number)),
        Offence::WatermarkEarly(place) => {
            let missing = wanted[place].copy()?;
            Ok(Verdict::WatermarkEarly(number, missing))
        }
        Offence::WatermarkBack => Ok(Verdict::WatermarkBack(number)),
    }
}

/// Whether the last line is the watermark of a stamp.
fn ends_with(lines: &[Line], end: Stamp) -> bool
    ensures { IsTrue result ↔ ((before : List Line) × (lines.now ≡ before ++ Line.Watermark end ∷ [])) }
{
    match lines {
        [.., Line::Watermark(last)] => last.us() == end.us(),
        _ => false,
    }
}
