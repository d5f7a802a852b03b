// What a READ asks for.
ghost use Rattle.std.specs.Prelude.{◌≡◌, ◌≤◌, IfOk};

use crate::answers::second;
use cs_fetch::{FetchFault, fetch};
use cs_link::{Batch, Known, Limits, Link, ReadArgs};
use cs_types::{Items, Memory, Stamp, Text, Token};
use std::alloc::Global;

/// What a READ of a part asks for, or of none, up to the tenth second.
fn args(alloc: Global, start: Stamp, token: Option<Token>) -> Result<ReadArgs, Memory>
    ensures { IfOk result (λ args. args.start ≡ start) }
{
    Ok(ReadArgs {
        stream: Text::of(alloc, "S")?,
        start,
        end: Some(second(10)?),
        token,
        heartbeat_ms: 10_000,
    })
}

/// As much as one batch may take.
fn limits() -> Limits
    ensures { (1 ≤ result.records) × (result.records ≤ 8192) }
{
    Limits {
        records: 8_192,
        bytes: 1_048_576,
    }
}

/// What a READ of a part brings, or of none, where nothing is known so far.
pub fn read_once<K: Link>(
    alloc: Global,
    link: &mut K,
    start: Stamp,
    token: Option<Token>,
) -> Result<Result<Batch, FetchFault>, Memory> {
    let args = args(alloc, start, token)?;
    let known = Known {
        through: start.us() - 1,
        seen: Items::new(alloc),
    };
    Ok(fetch(alloc, link, &args, &known, &limits()))
}
