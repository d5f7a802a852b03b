ghost use Rattle.std.specs.Prelude.{◌≡◌, ◌<◌, ℕ, List, Ok, length, IfSome};
ghost use Rattle.cs_tree.specs.View.{view};
ghost use Rattle.cs_script.specs.Readings.{Reading, Gives};
ghost use Rattle.cs_script.specs.Borders.{stream_place, named_stream, reshape_reading};

use crate::LineCause;
use crate::action::Reshape;
use crate::borders::borders_member;
use crate::combine::both;
use crate::members::{bad, no_others, required_text, required_tokens};
use cs_schema::{Catalog, Stream};
use cs_tree::Tree;
use cs_types::Text;
use std::alloc::Global;

/// The place of the first stream of a name. There are at most 10 streams.
pub(crate) fn stream_place(name: &Text, streams: &[Stream]) -> Option<usize>
    ensures { result ≡ stream_place name.now streams.now }
{
    let mut place = 0;
    let mut rest = streams;
    while let [first, after @ ..] = rest {
        if first.name.is(name) {
            return Some(place);
        }
        place += 1;
        rest = after;
    }
    None
}

/// A name that was read, of a stream that is there.
fn named_stream(streams: &[Stream], name: Result<Text, LineCause>) -> Result<Text, LineCause>
    ensures { (r : Reading (List ℕ)) → Gives name r → Gives result (named_stream streams.now r) }
{
    let name = name?;
    match stream_place(&name, streams) {
        Some(_) => Ok(name),
        None => Err(LineCause::NoTable(name)),
    }
}

/// A reshape: an object with a stream, the parts that end and the borders.
#[tactic(auto, unfolding(crate::specs::Borders::reshape_reading))]
pub(crate) fn reshape_of(
    alloc: Global,
    catalog: &Catalog,
    tree: &Tree<'_>,
) -> Result<Reshape, LineCause>
    ensures { Gives result (reshape_reading catalog.now.tables catalog.now.streams (view tree.now)) }
{
    if !tree.is_object() {
        return Err(bad(alloc, "reshape"));
    }
    let stream = named_stream(catalog.streams(), required_text(alloc, tree, "stream"));
    let parts = required_tokens(alloc, tree);
    let borders = borders_member(alloc, catalog.tables(), tree.get("borders"));
    let others = no_others(alloc, tree, &["stream", "parts", "borders"]);
    let (stream, (parts, (borders, ()))) = both(stream, both(parts, both(borders, others)))?;
    Ok(Reshape {
        stream,
        parts,
        borders,
    })
}
