use cs_types::{Change, Stamp};

/// What the lines of an output are found to be. Lines count from 1.
#[derive(Debug, Drop)]
pub enum Verdict {
    /// No line is an offence, all wanted changes stand there, and the last line is the watermark of
    /// the end.
    Complete,
    /// No line is an offence, and something is still to come. It has the last watermark.
    Prefix(Option<Stamp>),
    /// This line is that of no wanted change.
    Extra(u64),
    /// This line is that of a wanted change, and not the next of its row: it stands there already,
    /// or one of its row that is wanted before it does not.
    OutOfOrder(u64),
    /// This line is a watermark, and this is the first wanted change up to it that does not stand
    /// before it.
    WatermarkEarly(u64, Change),
    /// This line is a watermark that is not above the last one, or is above the end.
    WatermarkBack(u64),
}
