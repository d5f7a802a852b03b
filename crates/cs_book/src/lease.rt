//! What is leased to one who reads.
ghost use Rattle.std.specs.Prelude.{◌≡◌, ◌≤◌, IfOk, Some};
ghost use Rattle.cs_book.specs.Lease.{first_lease, row_lease, row_start};

use cs_link::{Known, ReadArgs};
use cs_schedule::Row;
use cs_types::{Duplicate, Items, Memory, Stamp, Token, Window};
use std::alloc::Global;

/// A READ that is to be made, and what is known before it.
#[derive(Debug, Drop)]
pub struct Lease {
    pub args: ReadArgs,
    pub known: Known,
}

/// After how long without a record a heartbeat is wanted, in milliseconds.
const HEARTBEAT_MS: u32 = 10_000;

fn args_of(window: &Window, start: Stamp, token: Option<Token>) -> Result<ReadArgs, Memory>
    ensures { IfOk result (λ args. args ≡ record { stream = window.now.stream; start = start; end = Some window.now.end; token = token; heartbeat_ms = 10000 }) }
{
    Ok(ReadArgs {
        stream: window.stream.copy()?,
        start,
        end: Some(window.end),
        token,
        heartbeat_ms: HEARTBEAT_MS,
    })
}

/// From where on a row is read: from its start, or from where it was read to.
fn start_of(row: &Row) -> Stamp
    requires { row.now.through ≤ 253402300799999999 }
    ensures { result ≡ row_start row.now }
{
    if row.through < row.start.us() {
        return row.start;
    }
    match Stamp::of(row.through) {
        Some(stamp) => stamp,
        None => unreachable!(),
    }
}

/// The lease of a row.
pub(crate) fn lease_of(window: &Window, row: &Row) -> Result<Lease, Memory>
    requires { row.now.through ≤ 253402300799999999 }
    ensures { IfOk result (λ lease. lease ≡ row_lease window.now row.now) }
{
    let start = start_of(row);
    let token = row.token.copy()?;
    let args = args_of(window, start, Some(token))?;
    let seen = row.seen.copy()?;
    Ok(Lease {
        args,
        known: Known {
            through: row.through,
            seen,
        },
    })
}

/// The lease of the list of the parts at a window's start.
pub(crate) fn lease_of_first(alloc: Global, window: &Window) -> Result<Lease, Memory>
    ensures { IfOk result (λ lease. lease ≡ first_lease window.now) }
{
    let args = args_of(window, window.start, None)?;
    Ok(Lease {
        args,
        known: Known {
            through: window.start.us() - 1,
            seen: Items::new(alloc),
        },
    })
}
