ghost use Rattle.std.specs.Prelude.{◌≡◌, ◌<◌, ◌≤◌, [], length, replicate, slice_index_or, IfOk, OnOk, OnErr, MatchResult, IfSome, AllPairs, None, Some, true};
ghost use Rattle.cs_types.specs.Token.{is_token};
ghost use Rattle.cs_partitions.specs.Tokens.{token_of, AreOfOneStream};
ghost use Rattle.cs_partitions.specs.Layout.{IsLayout, IsLower, first_part, new_layout};
ghost use Rattle.cs_partitions.specs.Reshape.{index_named, new_parts, reshaped};
ghost use Rattle.cs_partitions.specs.Fault.{first_fault, not_memory};
ghost use Rattle.cs_partitions.specs.Views.{IsHolder, AreLiveByLow, children_of};
ghost use Rattle.cs_place.specs.declared.part.Part.{Part as part};

use crate::children::{children_at, set_births};
use crate::finder::holder_by;
use crate::finding::{end_all, index_named, parts_named};
use crate::followers::{Birth, followers};
use crate::holding::{holder, put_starts};
use crate::live::live_by_low;
use crate::refusals::{check_numbers, check_shape, joined_range};
use crate::tokens::token;
use crate::{Finder, LayoutFault};
use cs_place::{Part, Place, Range};
use cs_types::{Duplicate, Items, Memory, Stamp, Text, Token};
use std::alloc::Global;
use std::collections::BTreeMap;
use std::marker::Model;

/// The parts that the places of one stream are divided into over time, in the order in which they
/// were made. From the stream's creation on, each place is in exactly one part at each moment. A
/// reshape costs what it names and makes, however many parts there are.
#[derive(Drop)]
pub struct Layout {
    stream: Text,
    created: Stamp,
    parts: Vec<Part>,
    /// Leads from the low of each live part to its index; a hint, which each look-up checks.
    starts: BTreeMap<Place, usize>,
    /// For each part, from which index to below which its children stand.
    births: Vec<(usize, usize)>,
}

impl Model for Layout {
    ghost use Rattle.cs_partitions.specs.Layout.{StreamParts, IsLayout};
    ghost use Rattle.cs_partitions.specs.Births.{AreBirths};

    ghost Value = { StreamParts };

    ghost view = { λ l. record { stream = l.stream; created = l.created; parts = l.parts.items } };

    ghost invariant = { λ l. IsLayout (record { stream = l.stream; created = l.created; parts = l.parts.items }) × AreBirths l.parts.items l.births.items };
}

impl Layout {
    /// The layout of a stream that was created at this moment: one part, which has all places.
    pub fn new(alloc: Global, stream: &Text, created: Stamp) -> Result<Layout, Memory>
        requires { is_token (token_of stream.now 0) ≡ true }
        ensures { IfOk result (λ l. l ≡ new_layout stream.now created) }
    {
        let mut parts = Vec::new(alloc);
        parts.push(first_part(alloc, stream, created)?)?;
        let mut starts = BTreeMap::new(alloc);
        starts.insert(lowest(alloc), 0)?;
        let mut births = Vec::new(alloc);
        births.push((0, 0))?;
        Ok(Layout {
            stream: stream.copy()?,
            created,
            parts,
            starts,
            births,
        })
    }

    /// The parts in the order in which they were made. It takes no memory.
    pub fn parts(&self) -> &[Part]
        ensures value { result.now ≡ self.now.parts }
        ensures layout { IsLayout self.now }
    {
        self.parts.as_slice()
    }

    /// The moment of the stream's creation, at which its first part begins. It takes no memory.
    pub fn created(&self) -> Stamp
        ensures { result ≡ self.now.created }
    {
        self.created
    }

    /// The index in `parts` of the part of a token, if there is one. It takes no memory, and costs
    /// nothing more where there are more parts.
    pub fn index_of(&self, token: &Token) -> Option<usize>
        ensures index { result ≡ index_named token.now self.now.parts }
        ensures inside { IfSome result (λ index. index < length self.now.parts) }
    {
        index_named(self.parts.as_slice(), token)
    }

    /// The index in `parts` of the part that has a place at a moment, from the creation on. It takes
    /// no memory, and costs a logarithm of the live parts, and a step for each time that the place
    /// has gone to another part since the moment.
    pub fn holder(&self, place: &Place, moment: Stamp) -> usize
        requires { self.now.created ≤ moment }
        ensures { IsHolder self.now.parts place.now moment result }
    {
        holder(self.parts.as_slice(), &self.starts, place, moment)
    }

    /// What `holder` gives, found by a finder: where moments do not fall from one look-up of it to
    /// the next, and parts were made in the order of their beginnings, all look-ups together cost a
    /// logarithm each and a logarithm for each part, however often a place has gone on since.
    pub fn holder_by(
        &self,
        finder: &mut Finder,
        place: &Place,
        moment: Stamp,
    ) -> Result<usize, Memory>
        requires { self.now.created ≤ moment }
        ensures { IfOk result (λ index. IsHolder self.now.parts place.now moment index) }
    {
        holder_by(finder, self.parts.as_slice(), &self.starts, place, moment)
    }

    /// Copies of the parts that are live at a moment, in order of low. It costs a look at each part,
    /// and the order of those that are live.
    pub fn live_at(&self, moment: Stamp) -> Result<Items<Part>, Memory>
        ensures { IfOk result (λ live. AreLiveByLow self.now.parts moment live) }
    {
        live_by_low(*self.parts.allocator(), self.parts.as_slice(), moment)
    }

    /// Copies of the children of the part at an index, in order of low. It costs what the reshape
    /// made that ended the part, however many parts there are.
    pub fn children(&self, index: usize) -> Result<Items<Part>, Memory>
        requires { index < length self.now.parts }
        ensures children { (d : part) → IfOk result (λ children. children ≡ children_of (slice_index_or self.now.parts index d).token self.now.parts) }
        ensures rising { IfOk result (λ children. AllPairs IsLower children) }
    {
        let alloc = *self.parts.allocator();
        children_at(alloc, self.parts.as_slice(), self.births.as_slice(), index)
    }

    /// Ends the parts of these tokens at the moment, and puts new parts between the borders in
    /// their place, or says why it may not; then, and also after `Memory`, the layout is what it
    /// was.
    pub fn reshape(
        &mut self,
        at: Stamp,
        parts: &[Token],
        borders: &[Place],
    ) -> Result<(), LayoutFault>
        ensures refused { MatchResult result (λ _. first_fault self.old.parts at parts.now borders.now ≡ None) (λ e. not_memory e → first_fault self.old.parts at parts.now borders.now ≡ Some e) }
        ensures ok { OnOk result (self.new ≡ reshaped self.old at parts.now borders.now) }
        ensures err { OnErr result (self.new ≡ self.old) }
    {
        let alloc = *self.parts.allocator();
        let mut added = planned(
            alloc,
            &self.stream,
            self.parts.as_slice(),
            at,
            parts,
            borders,
        )?;
        let mut none = no_births(alloc, added.len())?;
        let count = self.parts.len();
        self.parts.reserve(added.len())?;
        self.births.reserve(none.len())?;
        put_starts(
            &mut self.starts,
            self.parts.as_slice(),
            parts,
            added.as_slice(),
        )?;
        let span = (count, count + added.len());
        set_births(
            self.births.as_mut_slice(),
            self.parts.as_slice(),
            parts,
            span,
        );
        match self.births.append(&mut none) {
            Ok(()) => {}
            Err(_) => unreachable!(),
        }
        end_all(self.parts.as_mut_slice(), parts, at);
        match self.parts.append(&mut added) {
            Ok(()) => Ok(()),
            Err(_) => unreachable!(),
        }
    }
}

/// The new parts of a reshape, or its refusal.
fn planned(
    alloc: Global,
    stream: &Text,
    parts: &[Part],
    at: Stamp,
    tokens: &[Token],
    borders: &[Place],
) -> Result<Vec<Part>, LayoutFault>
    requires numbered { AreOfOneStream parts.now }
    requires name { is_token (token_of stream.now 0) ≡ true }
    ensures refused { MatchResult result (λ _. first_fault parts.now at tokens.now borders.now ≡ None) (λ e. not_memory e → first_fault parts.now at tokens.now borders.now ≡ Some e) }
    ensures added { IfOk result (λ added. added.items ≡ new_parts stream.now parts.now at tokens.now borders.now) }
{
    let named = parts_named(alloc, parts, tokens)?;
    let range = joined_range(alloc, named.as_slice())?;
    check_shape(named.as_slice(), &range, at, borders)?;
    check_numbers(parts.len(), tokens.len(), borders.len())?;
    let birth = Birth {
        stream,
        at,
        named: named.as_slice(),
    };
    let added = followers(alloc, &birth, parts.len(), range, borders)?;
    Ok(added)
}

/// The lowest of all places.
fn lowest(alloc: Global) -> Place
    ensures { result.bytes ≡ [] }
{
    Place {
        bytes: Items::new(alloc),
    }
}

/// Nothing for so many parts: new parts have no children.
fn no_births(alloc: Global, count: usize) -> Result<Vec<(usize, usize)>, Memory>
    ensures { IfOk result (λ births. births.items ≡ replicate count (0, 0)) }
{
    Ok(Vec::from_elem(alloc, (0, 0), count)?)
}

fn first_part(alloc: Global, stream: &Text, created: Stamp) -> Result<Part, Memory>
    requires { is_token (token_of stream.now 0) ≡ true }
    ensures { IfOk result (λ part. part ≡ first_part stream.now created) }
{
    Ok(Part {
        token: token(alloc, stream, 0)?,
        parents: Items::new(alloc),
        range: Range {
            low: lowest(alloc),
            high: None,
        },
        from: created,
        until: None,
    })
}
