ghost use Rattle.std.specs.Prelude.{◌≡◌, ◌+◌, ◌<◌, All, length, sum_by, OnOk, IfOk};
ghost use Rattle.std.specs.List.Sorted.{IsPermutation, IsSortedByKey};
ghost use Rattle.std.specs.Ordering.{nat_cmp};
ghost use Rattle.std.specs.Cmp.Lexicographic.{slice_cmp};
ghost use Rattle.cs_index.specs.Walk.{count_in, opened_by, ended_all};

use crate::line::{PartLine, Totals};
use cs_place::Part;
use cs_types::Memory;

/// A part that has a change of the transaction under way.
#[derive(Drop)]
pub(crate) struct Touched<'a> {
    /// Its index among the parts.
    pub index: usize,
    pub part: &'a Part,
}

/// Puts parts in order of low.
pub(crate) fn sort_by_low(touched: &mut Vec<Touched<'_>>) -> Result<(), Memory>
    ensures same { IsPermutation touched.old.items touched.new.items }
    ensures sorted { OnOk result (IsSortedByKey (λ t. t.part.now.range.low.bytes) (slice_cmp nat_cmp) touched.new.items) }
{
    touched.sort_by(|one, other| one.part.range.low.bytes.cmp(&other.part.range.low.bytes))?;
    Ok(())
}

/// What the transaction under way has in these parts.
pub(crate) fn totals(lines: &[PartLine], touched: &[Touched]) -> Result<Totals, Memory>
    requires { All (λ t. t.index < length lines.now) touched.now }
    ensures records { IfOk result (λ totals. totals.records ≡ sum_by (opened_by lines.now) touched.now) }
    ensures parts { IfOk result (λ totals. totals.parts ≡ length touched.now) }
{
    let mut records: u64 = 0;
    for item in touched {
        records = with(records, lines[item.index].count())?;
    }
    Ok(Totals {
        records,
        parts: touched.len() as u64,
    })
}

fn with(sum: u64, count: usize) -> Result<u64, Memory>
    ensures { IfOk result (λ n. n ≡ sum + count) }
{
    match sum.checked_add(count as u64) {
        Some(sum) => Ok(sum),
        None => Err(Memory),
    }
}

/// The transaction under way is whole: these parts, in order of low, give its records their
/// sequences.
pub(crate) fn end_all(
    lines: &mut [PartLine],
    touched: &[Touched],
    totals: Totals,
) -> Result<(), Memory>
    requires { All (λ t. t.index < length lines.old) touched.now }
    ensures { OnOk result (lines.new ≡ ended_all (count_in totals) 0 touched.now lines.old) }
{
    let mut sequence: u32 = 0;
    for item in touched {
        sequence = lines[item.index].end(totals, sequence)?;
    }
    Ok(())
}
