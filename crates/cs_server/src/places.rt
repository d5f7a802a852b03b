ghost use Rattle.std.specs.Prelude.{◌≡◌, ◌++◌, ◌<◌, ◌≤◌, codes, Some, IfSome, length, slice_get};
ghost use Rattle.cs_partitions.specs.Layout.{StreamParts};
ghost use Rattle.cs_schema.specs.declared.types.Stream.{Stream as AStream};
ghost use Rattle.cs_steps.specs.Query.{is_text};
ghost use Rattle.cs_server.specs.Typed.{place_named};

use cs_partitions::Layout;
use cs_schema::Stream;
use cs_script::ServerState;
use cs_types::Text;

/// Whether a query of this name reads the stream.
fn is_named(name: &Text, stream: &Stream) -> bool
    ensures { result ≡ is_text (codes "READ_" ++ name.now) (codes "READ_" ++ stream.now.name) }
{
    *name == stream.name
}

/// The place of the stream of a name. It goes over the streams.
pub(crate) fn place_named(name: &Text, streams: &[Stream]) -> Option<usize>
    ensures place { result ≡ place_named name.now streams.now }
    ensures inside { IfSome result (λ place. place < length streams.now) }
{
    let mut place = 0;
    while place < streams.len() {
        if is_named(name, &streams[place]) {
            return Some(place);
        }
        place += 1;
    }
    None
}

/// The stream at a place.
pub(crate) fn stream_at(state: &ServerState, place: usize) -> &Stream
    requires { place < length state.now.streams }
    ensures { slice_get state.now.streams place ≡ Some result.now }
{
    &state.catalog().streams()[place]
}

/// The layout of the stream at a place.
pub(crate) fn layout_at(state: &ServerState, place: usize) -> &Layout
    requires { place < length state.now.streams }
    ensures layout { slice_get state.now.layouts place ≡ Some result.now }
    ensures created { (s : AStream) → slice_get state.now.streams place ≡ Some s → result.now.created ≡ s.created }
{
    &state.layouts()[place]
}
