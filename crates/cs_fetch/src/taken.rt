ghost use Rattle.std.specs.Prelude.{◌≡◌, ◌||◌};

use crate::so_far::Tally;
use cs_link::{Batch, Breach};

/// What became of one record.
#[derive(Debug, Drop)]
pub(crate) enum Taken {
    /// No server may answer it.
    Breaks(Breach),
    /// It was taken, and adds something, or not.
    Took(bool),
}

/// How a READ goes on with one record.
#[derive(Debug, Drop)]
pub(crate) enum Went {
    /// No server may answer it.
    Breaks(Breach),
    /// It fills the batch.
    Fills,
    /// Too many in a row added nothing.
    Stalls,
    /// More is read, and so much was counted.
    On(Tally),
}

/// Where a READ stands with one more step.
#[derive(Debug, Drop)]
pub(crate) enum Turn {
    /// It gives its batch.
    Gives(Batch),
    /// More is read, and so much was counted.
    On(Tally),
}

/// Whether one of the two holds.
pub(crate) fn either(a: bool, b: bool) -> bool
    ensures { result ≡ (a || b) }
{
    a || b
}
