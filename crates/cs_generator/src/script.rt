ghost use Rattle.std.specs.Prelude.{◌≡◌, IsTrue, ◌↔◌, IfOk, string_bytes};
ghost use Rattle.cs_generator.specs.Generated.{IsSize, script_text, first_stamp, end_stamp};

use crate::commits::{commit_line, commit_stamp};
use crate::reshapes::push_due;
use cs_types::{Memory, Stamp};
use std::alloc::Global;

/// 2024-05-01T00:00:00Z, the stamp of the first lines and the start of the window.
pub(crate) const START: u64 = 1_714_521_600_000_000;

/// How far its end lies behind it, in microseconds.
pub(crate) const LENGTH: u64 = 80_000_000_000;

/// The name of the script's stream.
pub const STREAM: &str = "G";

const STATEMENTS: &str =
    "{\"at\":\"2024-05-01T00:00:00Z\",\"ddl\":\"CREATE TABLE Singers (Id INT64 NOT NULL, Name STRING(MAX), Note STRING(MAX)) PRIMARY KEY (Id)\"}\n{\"at\":\"2024-05-01T00:00:00Z\",\"ddl\":\"CREATE TABLE Albums (Id INT64 NOT NULL, Title STRING(MAX), Note STRING(MAX)) PRIMARY KEY (Id)\"}\n{\"at\":\"2024-05-01T00:00:00Z\",\"ddl\":\"CREATE CHANGE STREAM G FOR Singers, Albums(Title)\"}\n";

/// Where the window of the script's commits starts: the stamp of its first lines. It takes no memory.
pub fn window_start() -> Stamp
    ensures { result ≡ first_stamp }
{
    match Stamp::of(START) {
        Some(stamp) => stamp,
        None => unreachable!(),
    }
}

/// Where the window ends, not before the last commit. It takes no memory.
pub fn window_end() -> Stamp
    ensures { result ≡ end_stamp }
{
    match Stamp::of(START + LENGTH) {
        Some(stamp) => stamp,
        None => unreachable!(),
    }
}

/// Whether a script can be made of so many commits: an even number from 10 to 50,000. It takes no
/// memory.
pub fn is_size(commits: u64) -> bool
    ensures { IsTrue result ↔ IsSize commits }
{
    10 <= commits && commits <= 50_000 && commits % 2 == 0
}

/// The script of so many commits, each line with its end.
pub fn script_text(alloc: Global, commits: u64) -> Result<String, Memory>
    requires size { IsSize commits }
    ensures text { IfOk result (λ s. string_bytes s ≡ script_text commits) }
{
    let mut text = String::from_str(alloc, STATEMENTS)?;
    let mut last = START;
    for i in 0..commits {
        let at = commit_stamp(commits, i);
        push_due(alloc, &mut text, last, at.us())?;
        text.push_str(&commit_line(alloc, at, commits, i)?)?;
        last = at.us();
    }
    Ok(text)
}
