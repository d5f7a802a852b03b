ghost use Rattle.std.specs.Prelude.{◌≡◌, ◌<◌, ◌≤◌, [], IfOk, length, map, cond, slice_index_or};
ghost use Rattle.cs_place.specs.declared.part.Part.{Part as part};
ghost use Rattle.cs_steps.specs.Steps.{child_of, first_of, children_of, live_at, child_groups};

use cs_partitions::{Layout, live_lists_are_one};
use cs_place::Part;
use cs_records::Child;
use cs_types::{Items, Memory, Stamp};
use std::alloc::Global;

/// The most children of a child record.
const CHILDREN: usize = 1024;

/// The parts that follow on the part at a place, in order of low.
pub(crate) fn children(alloc: Global, layout: &Layout, place: usize) -> Result<Items<Child>, Memory>
    requires { place < length layout.now.parts }
    ensures children { (d : part) → IfOk result (λ l. l ≡ children_of layout.now.parts (slice_index_or layout.now.parts place d)) }
    ensures few { IfOk result (λ l. length l ≤ 65536) }
{
    let _parts = layout.parts();
    let parts = layout.children(place)?;
    with_parents(alloc, parts)
}

/// Parts with their parents.
fn with_parents(alloc: Global, parts: Items<Part>) -> Result<Items<Child>, Memory>
    ensures { IfOk result (λ l. l ≡ map child_of parts) }
{
    let mut list = Items::new(alloc);
    for part in parts.into_vec() {
        list.push(child_of(part))?;
    }
    Ok(list)
}

fn child_of(part: Part) -> Child
    ensures { result ≡ child_of part }
{
    let Part { token, parents, .. } = part;
    Child { token, parents }
}

/// The parts that are live at a moment, in order of low, without parents.
pub(crate) fn live_at(alloc: Global, layout: &Layout, moment: Stamp) -> Result<Items<Child>, Memory>
    ensures children { IfOk result (λ l. l ≡ live_at layout.now.parts moment) }
    ensures few { IfOk result (λ l. length l ≤ 65536) }
{
    let _one = live_lists_are_one();
    let _parts = layout.parts();
    let parts = layout.live_at(moment)?;
    without_parents(alloc, parts)
}

/// Parts without their parents.
fn without_parents(alloc: Global, parts: Items<Part>) -> Result<Items<Child>, Memory>
    ensures { IfOk result (λ l. l ≡ map first_of parts) }
{
    let mut list = Items::new(alloc);
    for part in parts.into_vec() {
        list.push(first_of(alloc, part))?;
    }
    Ok(list)
}

fn first_of(alloc: Global, part: Part) -> Child
    ensures { result ≡ first_of part }
{
    let Part { token, .. } = part;
    Child {
        token,
        parents: Items::new(alloc),
    }
}

/// The number of child records that list these children.
pub(crate) fn list_count(children: &[Child]) -> usize
    requires { length children.now ≤ 65536 }
    ensures { result ≡ length (child_groups children.now) }
{
    (children.len() + (CHILDREN - 1)) / CHILDREN
}
