ghost use Rattle.std.specs.Prelude.{◌≡◌, IfOk};
ghost use Rattle.cs_fetch.specs.Keeping.{dated};

use cs_link::Seen;
use cs_types::{Change, Duplicate, Memory, Stamp};

/// A change by its stamp and by what tells it from the other changes of that stamp. Dated changes
/// are ordered by stamp first.
#[derive(Debug, Drop, PartialEq, Eq, PartialOrd, Ord)]
pub(crate) struct Dated {
    pub stamp: Stamp,
    pub seen: Seen,
}

/// A change by its stamp, its transaction and its row.
pub(crate) fn dated_of(change: &Change) -> Result<Dated, Memory>
    ensures { IfOk result (λ d. d ≡ dated change.now) }
{
    Ok(Dated {
        stamp: change.stamp,
        seen: Seen {
            tx: change.tx.copy()?,
            row: change.row.copy()?,
        },
    })
}
