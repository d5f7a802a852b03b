ghost use Rattle.std.specs.Prelude.{All};
ghost use Rattle.cs_partitions.specs.Layout.{IsLayout};
ghost use Rattle.cs_read.specs.Honest.{IsState};

use cs_partitions::Layout;
use cs_script::ServerState;

/// What the laws of this crate ask of a state holds of each. It looks at the layout of each stream,
/// and takes no memory.
pub fn states_are_kept(state: &ServerState)
    ensures { IsState state.now }
{
    let _streams = state.catalog().streams();
    let _modifications = state.history().modifications();
    are_layouts(state.layouts());
}

fn are_layouts(layouts: &[Layout])
    ensures { All IsLayout layouts.now }
{
    for layout in layouts {
        let _parts = layout.parts();
    }
}
