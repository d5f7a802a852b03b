use cs_link::{Breach, Limits, ReadRefusal};
use cs_types::{Stamp, Token};

/// How a follower goes.
#[derive(Clone, Copy, Debug, PartialEq, Eq)]
pub struct Pace {
    /// Which row is read of those that may be read equally well: the one at this place, modulo their
    /// number, in the order of their tokens.
    pub order: u64,
    /// After how many READs that caught up with the present moment it pauses; at least 1.
    pub turns: u32,
    /// How much one batch takes.
    pub limits: Limits,
}

/// Why a follower stopped.
#[derive(Debug, Drop)]
pub enum Outcome {
    /// All parts were read, to their ends or to the window's.
    Ended,
    /// So many READs caught up with the present moment as the pace has turns.
    Paused,
    /// What is due is no longer kept: the earliest moment that is.
    RetentionPassed(Stamp),
    /// The READ that is due was refused.
    Refused(ReadRefusal),
    /// The link failed.
    LinkFault,
    /// The server answered what no server may answer.
    Breach(Breach),
    /// In the READ of this part, or of the parts at the window's start, so many records in a row
    /// added nothing.
    Stalled(Option<Token>, u32),
    /// A call of the journal's disk failed.
    JournalFault,
    /// A call of the output's disk failed.
    OutputFault,
    /// With its next entry the journal would have this many bytes, more than its limit.
    Full(u64),
    /// There was not enough memory.
    Memory,
}
