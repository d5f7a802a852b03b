ghost use Rattle.std.specs.Prelude.{◌≡◌, ◌↔◌, IsTrue};
ghost use Rattle.cs_place.specs.Part.{IsInRange, IsBelowHigh, IsBefore, IsLive, Holds, is_before, is_live, is_below_high, is_inside, is_held};

use crate::Place;
use cs_types::{Duplicate, Items, Memory, Stamp, Token};

/// The places from `low` to below `high`, or to the end of all places.
#[derive(Debug, Drop)]
pub struct Range {
    pub low: Place,
    pub high: Option<Place>,
}

impl Range {
    /// Whether the place is in the range. It takes no memory.
    pub fn holds(&self, place: &Place) -> bool
        ensures test { result ≡ is_inside self.now place.now }
        ensures inside { IsTrue result ↔ IsInRange self.now place.now }
    {
        if *place < self.low {
            return false;
        }
        self.is_below_high(place)
    }

    /// Whether the place is below the end of the range, where it has one. It takes no memory.
    pub fn is_below_high(&self, place: &Place) -> bool
        ensures test { result ≡ is_below_high place.now self.now.high }
        ensures below { IsTrue result ↔ IsBelowHigh place.now self.now.high }
    {
        match &self.high {
            None => true,
            Some(high) => *place < *high,
        }
    }
}

impl Duplicate for Range {
    fn copy(&self) -> Result<Range, Memory> {
        let high = match &self.high {
            None => None,
            Some(high) => Some(high.copy()?),
        };
        Ok(Range {
            low: self.low.copy()?,
            high,
        })
    }
}

/// A part of a stream: a range of places from one moment to another.
#[derive(Debug, Drop)]
pub struct Part {
    /// The part's name.
    pub token: Token,
    /// The names of the parts that it follows.
    pub parents: Items<Token>,
    pub range: Range,
    /// The first moment that it has.
    pub from: Stamp,
    /// The first moment that it has no more, where there is one.
    pub until: Option<Stamp>,
}

impl Part {
    /// Whether the part has this moment. It takes no memory.
    pub fn is_live(&self, moment: Stamp) -> bool
        ensures test { result ≡ is_live self.now moment }
        ensures live { IsTrue result ↔ IsLive self.now moment }
    {
        if moment < self.from {
            return false;
        }
        match self.until {
            None => true,
            Some(until) => moment < until,
        }
    }

    /// Whether the part has this place at this moment. It takes no memory.
    pub fn holds(&self, place: &Place, moment: Stamp) -> bool
        ensures test { result ≡ is_held self.now place.now moment }
        ensures held { IsTrue result ↔ Holds self.now place.now moment }
    {
        self.range.holds(place) && self.is_live(moment)
    }
}

impl Duplicate for Part {
    fn copy(&self) -> Result<Part, Memory> {
        Ok(Part {
            token: self.token.copy()?,
            parents: self.parents.copy()?,
            range: self.range.copy()?,
            from: self.from,
            until: self.until,
        })
    }
}
