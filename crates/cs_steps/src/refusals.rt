ghost use Rattle.std.specs.Prelude.{◌≡◌};
ghost use Rattle.cs_steps.specs.Refusals.{time_refusal, part_refusal, token_refusal, refusal_by, ends_before};

use cs_link::{ReadArgs, ReadRefusal};
use cs_partitions::Layout;
use cs_place::Part;
use cs_schema::Stream;
use cs_types::{Stamp, Token};

/// The least and the most heartbeat, in milliseconds.
const LEAST_HEARTBEAT: u32 = 1000;

const MOST_HEARTBEAT: u32 = 300000;

/// Why a READ of a stream that was created at this moment and keeps its changes for so many
/// microseconds is refused whatever its parts are; None where it is not. The first of `Heartbeat`,
/// `EndBeforeStart`, `StartBeforeCreation`, `StartTooOld` and `StartInFuture` is told. It takes no
/// memory.
pub fn time_refusal(
    args: &ReadArgs,
    created: Stamp,
    retention_us: u64,
    moment: Stamp,
) -> Option<ReadRefusal>
    ensures { result ≡ time_refusal args.now created retention_us moment }
{
    if args.heartbeat_ms < LEAST_HEARTBEAT || args.heartbeat_ms > MOST_HEARTBEAT {
        return Some(ReadRefusal::Heartbeat);
    }
    if ends_before(args.end, args.start) {
        return Some(ReadRefusal::EndBeforeStart);
    }
    if args.start < created {
        return Some(ReadRefusal::StartBeforeCreation);
    }
    if let Some(earliest) = Stamp::of(moment.us().saturating_sub(retention_us)) {
        if args.start < earliest {
            return Some(ReadRefusal::StartTooOld(earliest));
        }
    }
    if moment < args.start {
        return Some(ReadRefusal::StartInFuture(moment));
    }
    None
}

fn ends_before(end: Option<Stamp>, start: Stamp) -> bool
    ensures { result ≡ ends_before end start }
{
    match end {
        None => false,
        Some(end) => end < start,
    }
}

/// Why a READ of a part is refused that starts at this moment; None where it is not. First
/// `StartBeforePartition`, then `StartPastPartition`. It takes no memory.
pub fn part_refusal(part: &Part, start: Stamp) -> Option<ReadRefusal>
    ensures { result ≡ part_refusal part.now start }
{
    if start < part.from {
        return Some(ReadRefusal::StartBeforePartition(part.from));
    }
    match part.until {
        None => None,
        Some(until) => {
            if until <= start {
                return Some(ReadRefusal::StartPastPartition(until));
            }
            None
        }
    }
}

/// Why a READ of the part of a token is refused that starts at this moment.
fn token_refusal(layout: &Layout, token: &Option<Token>, start: Stamp) -> Option<ReadRefusal>
    ensures { result ≡ token_refusal layout.now.parts token.now start }
{
    match token {
        None => None,
        Some(token) => match layout.index_of(token) {
            None => Some(ReadRefusal::UnknownToken),
            Some(index) => part_refusal(&layout.parts()[index], start),
        },
    }
}

/// Why a READ of a stream with this layout is refused at this moment; None where it is not. The
/// first of the refusals from `Heartbeat` to `StartPastPartition` is told. It takes no memory.
pub fn refusal(
    args: &ReadArgs,
    stream: &Stream,
    layout: &Layout,
    moment: Stamp,
) -> Option<ReadRefusal>
    ensures { result ≡ refusal_by layout.now.parts stream.now.created stream.now.retention_us args.now moment }
{
    if let Some(refusal) = time_refusal(args, stream.created, stream.retention_us, moment) {
        return Some(refusal);
    }
    token_refusal(layout, &args.token, args.start)
}
