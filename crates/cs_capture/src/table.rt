ghost use Rattle.std.specs.Prelude.{◌≡◌};
ghost use Rattle.cs_capture.specs.Table.{told_by};

use cs_types::{CaptureType, Kind};

/// Which cells of a row a change tells.
#[derive(Clone, Copy, Debug, PartialEq, Eq)]
pub enum Told {
    /// None.
    Nothing,
    /// Those of the watched columns.
    Watched,
    /// Those of the watched columns that the write modifies.
    Modified,
}

/// Which cells a change tells of its row.
#[derive(Clone, Copy, Debug, PartialEq, Eq)]
pub struct ToldCells {
    /// Of the row as it is after the write.
    pub new: Told,
    /// Of the row as it was before the write.
    pub old: Told,
}

/// Which cells the changes of a stream tell, by its capture type and by what the write did
/// (Spanner's page 'Change streams overview', on value capture types). It takes no memory.
pub fn capture_table(capture: CaptureType, kind: Kind) -> ToldCells
    ensures { result ≡ told_by capture kind }
{
    let (new, old) = match kind {
        Kind::Insert => (Told::Watched, Told::Nothing),
        Kind::Update => match capture {
            CaptureType::OldAndNewValues => (Told::Modified, Told::Modified),
            CaptureType::NewValues => (Told::Modified, Told::Nothing),
            CaptureType::NewRow => (Told::Watched, Told::Nothing),
            CaptureType::NewRowAndOldValues => (Told::Watched, Told::Modified),
        },
        Kind::Delete => match capture {
            CaptureType::OldAndNewValues => (Told::Nothing, Told::Watched),
            CaptureType::NewValues => (Told::Nothing, Told::Nothing),
            CaptureType::NewRow => (Told::Nothing, Told::Nothing),
            CaptureType::NewRowAndOldValues => (Told::Nothing, Told::Watched),
        },
    };
    ToldCells { new, old }
}
