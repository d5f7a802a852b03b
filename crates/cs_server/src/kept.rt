use cs_index::StreamIndex;
use cs_link::ReadRefusal;
use cs_read::Reading;

/// The index of a stream of a state.
#[derive(Debug, Drop)]
pub(crate) struct Kept {
    /// The place of the stream.
    pub place: usize,
    pub index: StreamIndex,
}

/// What an `open` makes.
#[derive(Debug, Drop)]
pub(crate) enum Opening {
    /// The READ is refused.
    Refused(ReadRefusal),
    /// The READ begins, over the index that is kept.
    Again(Reading),
    /// The READ begins, over another index.
    Anew(Kept, Reading),
}
