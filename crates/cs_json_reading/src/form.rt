ghost use Rattle.std.specs.Prelude.{◌≡◌, Option, IfOk};
ghost use Rattle.serde_json.specs.Data.{Data};
ghost use Rattle.serde_json.specs.Find.{get};
ghost use Rattle.serde_json.specs.View.{view};
ghost use Rattle.cs_json_reading.specs.Reading.{Gives, required, optional};

use crate::fault::{bad, missed};
use cs_records::LineFault;
use cs_types::Memory;
use serde_json::Value;
use std::alloc::Global;

/// What the value of a member can be.
pub(crate) trait Form {
    type Out: Drop;

    ghost reads: { Data → Option Self.Out };

    /// What a tree stands for; None where that is nothing.
    fn of(alloc: Global, tree: &Value) -> Result<Option<Self::Out>, Memory>
        ensures { IfOk result (λ o. o ≡ reads (view tree.now)) };
}

/// The member of an object that must have it.
pub(crate) fn required<F: Form>(
    alloc: Global,
    tree: &Value,
    name: &str,
) -> Result<F::Out, LineFault>
    ensures { Gives result (required F.reads name.now (view tree.now)) }
{
    let Some(member) = tree.get(name) else {
        return Err(missed(alloc, name));
    };
    match F::of(alloc, member)? {
        Some(value) => Ok(value),
        None => Err(bad(alloc, name)),
    }
}

/// The member of an object that may lack it.
pub(crate) fn optional<F: Form>(
    alloc: Global,
    tree: &Value,
    name: &str,
    otherwise: F::Out,
) -> Result<F::Out, LineFault>
    ensures { Gives result (optional otherwise F.reads name.now (view tree.now)) }
{
    let Some(member) = tree.get(name) else {
        return Ok(otherwise);
    };
    match F::of(alloc, member)? {
        Some(value) => Ok(value),
        None => Err(bad(alloc, name)),
    }
}
