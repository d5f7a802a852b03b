ghost use Rattle.serde_json.specs.View.{view};
ghost use Rattle.cs_json_reading.specs.Reading.{Gives};
ghost use Rattle.cs_json_reading.specs.Children.{heartbeat_reading, child_reading, children_reading};

use crate::element::{Element, each};
use crate::fault::bad;
use crate::form::{optional, required};
use crate::forms::{Sequence, Tokens};
use crate::tree::array;
use cs_records::{Child, ChildRecord, LineFault, Record};
use cs_types::{Items, Stamp, Token};
use serde_json::Value;
use std::alloc::Global;

#[tactic(auto, unfolding(crate::specs::Children::heartbeat_reading))]
pub(crate) fn heartbeat_of(alloc: Global, tree: &Value) -> Result<Record, LineFault>
    ensures { Gives result (heartbeat_reading (view tree.now)) }
{
    if !tree.is_object() {
        return Err(bad(alloc, "heartbeat_record"));
    }
    let at = required::<Stamp>(alloc, tree, "timestamp")?;
    Ok(Record::Heartbeat(at))
}

#[tactic(auto, unfolding(crate::specs::Children::children_reading))]
pub(crate) fn children_of(alloc: Global, tree: &Value) -> Result<Record, LineFault>
    ensures { Gives result (children_reading (view tree.now)) }
{
    if !tree.is_object() {
        return Err(bad(alloc, "child_partitions_record"));
    }
    let start = required::<Stamp>(alloc, tree, "start_timestamp")?;
    let sequence = required::<Sequence>(alloc, tree, "record_sequence")?;
    let trees = array(alloc, tree, "child_partitions")?;
    let children = each(alloc, &Children, trees)?;
    Ok(Record::Children(ChildRecord {
        start,
        sequence,
        children,
    }))
}

/// The children of a child partitions record.
struct Children;

impl Element for Children {
    ghost use Rattle.cs_json_reading.specs.Children.{child_reading};

    type Out = Child;

    ghost reads = { λ _ d. child_reading d };

    fn read(&self, alloc: Global, tree: &Value) -> Result<Child, LineFault> {
        child_of(alloc, tree)
    }
}

#[tactic(auto, unfolding(crate::specs::Children::child_reading))]
fn child_of(alloc: Global, tree: &Value) -> Result<Child, LineFault>
    ensures { Gives result (child_reading (view tree.now)) }
{
    if !tree.is_object() {
        return Err(bad(alloc, "child_partitions"));
    }
    let token = required::<Token>(alloc, tree, "token")?;
    let parents = optional::<Tokens>(alloc, tree, "parent_partition_tokens", Items::new(alloc))?;
    Ok(Child { token, parents })
}
