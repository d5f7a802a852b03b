ghost use Rattle.std.specs.Prelude.{◌≡◌, ℕ, IfOk, OnOk, filter};
ghost use Rattle.std.specs.List.Sorted.{IsPermutation, IsSortedByKey};
ghost use Rattle.std.specs.Ordering.{nat_cmp};
ghost use Rattle.std.specs.Cmp.Lexicographic.{slice_cmp};
ghost use Rattle.cs_place.specs.Part.{is_live};
ghost use Rattle.cs_place.specs.Layout.{IsSoundLayout};
ghost use Rattle.cs_partitions.specs.Views.{AreLiveByLow};

use cs_place::Part;
use cs_types::{Duplicate, Items, Memory, Stamp};
use std::alloc::Global;

/// Copies of the parts that are live at a moment, in order of low.
pub(crate) fn live_by_low(
    alloc: Global,
    parts: &[Part],
    moment: Stamp,
) -> Result<Items<Part>, Memory>
    ensures { (created : ℕ) → IsSoundLayout created parts.now → IfOk result (λ live. AreLiveByLow parts.now moment live) }
{
    let mut live = live_at(alloc, parts, moment)?;
    sort_by_low(&mut live)?;
    Ok(Items::from_vec(live))
}

/// Copies of the parts that are live at a moment, as they stand.
fn live_at(alloc: Global, parts: &[Part], moment: Stamp) -> Result<Vec<Part>, Memory>
    ensures { IfOk result (λ live. live.items ≡ filter (λ p. is_live p moment) parts.now) }
{
    let mut live = Vec::new(alloc);
    for part in parts {
        if part.is_live(moment) {
            live.push(part.copy()?)?;
        }
    }
    Ok(live)
}

fn sort_by_low(parts: &mut Vec<Part>) -> Result<(), Memory>
    ensures same { IsPermutation parts.old.items parts.new.items }
    ensures sorted { OnOk result (IsSortedByKey (λ p. p.range.low.bytes) (slice_cmp nat_cmp) parts.new.items) }
{
    parts.sort_by(|one, other| one.range.low.bytes.cmp(&other.range.low.bytes))?;
    Ok(())
}
