ghost use Rattle.std.specs.Prelude.{IfOk};
ghost use Rattle.cs_place.specs.Layout.{HasOnePart};
ghost use Rattle.cs_partitions.specs.Tokens.{AreOfOneStream};
ghost use Rattle.cs_partitions.specs.Views.{IsHolder};

use crate::finding::index_named;
use crate::holding::holder;
use cs_place::{Part, Place};
use cs_types::{Duplicate, Memory, Stamp, Token};
use std::alloc::Global;
use std::collections::BTreeMap;

/// Helps to find who has a place at moments that do not fall from one look-up to the next. It knows
/// the lows of the parts that are live at the last moment; what it knows is a hint, which each
/// look-up checks, so a finder of another layout or of a later moment makes none wrong.
#[derive(Drop)]
pub struct Finder {
    starts: BTreeMap<Place, usize>,
    /// How many of the parts were taken so far.
    taken: usize,
}

impl Finder {
    /// One that was asked nothing. It takes no memory.
    pub fn new(alloc: Global) -> Finder {
        Finder {
            starts: BTreeMap::new(alloc),
            taken: 0,
        }
    }

    /// Takes the parts that begin up to a moment, as they were made.
    fn go_to(&mut self, parts: &[Part], moment: Stamp) -> Result<(), Memory>
        requires { AreOfOneStream parts.now }
    {
        for index in self.taken..parts.len() {
            let part = &parts[index];
            if moment < part.from {
                return Ok(());
            }
            self.forget(parts, part.parents.as_slice());
            self.starts.insert(part.range.low.copy()?, index)?;
            self.taken = index + 1;
        }
        Ok(())
    }

    /// Leads to these parts no more.
    fn forget(&mut self, parts: &[Part], tokens: &[Token])
        requires { AreOfOneStream parts.now }
    {
        for token in tokens {
            if let Some(index) = index_named(parts, token) {
                let low = &parts[index].range.low;
                if leads_to(&self.starts, low, index) {
                    self.starts.remove(low);
                }
            }
        }
    }

    fn guess(&self, place: &Place) -> Option<usize> {
        let (_, start) = self.starts.range(..=place).next_back()?;
        Some(*start)
    }
}

fn leads_to(starts: &BTreeMap<Place, usize>, low: &Place, index: usize) -> bool {
    match starts.get(low) {
        Some(start) => *start == index,
        None => false,
    }
}

/// The index of the part that has a place at a moment; the starts of now serve where the finder's
/// hint is wrong.
pub(crate) fn holder_by(
    finder: &mut Finder,
    parts: &[Part],
    starts: &BTreeMap<Place, usize>,
    place: &Place,
    moment: Stamp,
) -> Result<usize, Memory>
    requires stream { AreOfOneStream parts.now }
    requires one { HasOnePart parts.now place.now moment }
    ensures { IfOk result (λ index. IsHolder parts.now place.now moment index) }
{
    finder.go_to(parts, moment)?;
    let Some(index) = finder.guess(place) else {
        return Ok(holder(parts, starts, place, moment));
    };
    if index >= parts.len() {
        return Ok(holder(parts, starts, place, moment));
    }
    if !parts[index].holds(place, moment) {
        return Ok(holder(parts, starts, place, moment));
    }
    Ok(index)
}
