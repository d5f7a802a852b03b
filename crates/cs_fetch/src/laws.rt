ghost use Rattle.cs_fetch.specs.Laws.{HonestGivesFaithful, AlwaysGrows, AlwaysWellFormed, HonestBringsOn, HonestReaches};
ghost use Rattle.cs_fetch.specs.Honesty.{MadeIsFaithful};

/// A law: what becomes of an honest READ is a faithful batch; it is never what no server may answer,
/// and never stalls.
pub fn honest_gives_faithful()
    ensures { HonestGivesFaithful }
{}

/// A law: over an honest link, what is made of a READ of its stream is a faithful batch; it is never
/// what no server may answer, and never stalls.
pub fn made_is_faithful()
    ensures { MadeIsFaithful }
{}

/// A law: what becomes of the steps of any server is a batch with something new, unless it ended
/// or caught up.
pub fn always_grows()
    ensures { AlwaysGrows }
{}

/// A law: what becomes of the steps of any server is a batch that is well formed by itself.
pub fn always_well_formed()
    ensures { AlwaysWellFormed }
{}

/// A law: what becomes of an honest READ, whose end is not past its moment and whose heartbeats
/// are paced, is a batch that brings its part on.
pub fn honest_brings_on()
    ensures { HonestBringsOn }
{}

/// A law: what becomes of an honest READ that caught up is a batch that is complete up to the
/// moment at which the READ was opened.
pub fn honest_reaches()
    ensures { HonestReaches }
{}
