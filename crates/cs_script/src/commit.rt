ghost use Rattle.std.specs.Prelude.{◌≡◌};
ghost use Rattle.cs_tree.specs.View.{view};
ghost use Rattle.cs_script.specs.Readings.{Gives};
ghost use Rattle.cs_script.specs.Writes.{commit_reading};

use crate::LineCause;
use crate::action::Commit;
use crate::combine::both;
use crate::members::{bad, no_others, required_id, tag_of};
use crate::writes::writes_member;
use cs_schema::Tables;
use cs_tree::Tree;
use cs_types::Text;
use std::alloc::Global;

/// A transaction: an object with its id, its writes and, where it has one, its tag, which shares
/// the bytes of the last one where both are the same.
#[tactic(auto, unfolding(crate::specs::Writes::commit_reading))]
pub(crate) fn commit_of(
    alloc: Global,
    tables: &Tables,
    last_tag: Option<&Text>,
    tree: &Tree<'_>,
) -> Result<Commit, LineCause>
    ensures { Gives result (commit_reading tables.now (view tree.now)) }
{
    if !tree.is_object() {
        return Err(bad(alloc, "commit"));
    }
    let id = required_id(alloc, tree);
    let writes = writes_member(alloc, tables, tree.get("writes"));
    let tag = tag_of(alloc, last_tag, tree);
    let others = no_others(alloc, tree, &["id", "writes", "tag"]);
    let (id, (writes, (tag, ()))) = both(id, both(writes, both(tag, others)))?;
    Ok(Commit { id, tag, writes })
}
