ghost use Rattle.serde_json.specs.Data.{Data};
ghost use Rattle.serde_json.specs.View.{view, items_view};
ghost use Rattle.cs_json_reading.specs.Reading.{Reading, Gives, each};

use cs_records::LineFault;
use cs_types::Items;
use serde_json::Value;
use std::alloc::Global;

/// What the elements of an array are read as.
pub(crate) trait Element {
    type Out: Drop;

    ghost reads: { Self → Data → Reading Self.Out };

    fn read(&self, alloc: Global, tree: &Value) -> Result<Self::Out, LineFault>
        ensures { Gives result (reads self.now (view tree.now)) };
}

/// Each element, up to the first that is at fault.
pub(crate) fn each<E: Element>(
    alloc: Global,
    element: &E,
    trees: &[Value],
) -> Result<Items<E::Out>, LineFault>
    ensures { Gives result (each (E.reads element.now) (items_view trees.now)) }
{
    let mut items = Items::new(alloc);
    for tree in trees {
        items.push(element.read(alloc, tree)?)?;
    }
    Ok(items)
}
