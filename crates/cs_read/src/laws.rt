ghost use Rattle.cs_read.specs.Honest.{ReadsAreHonest, StreamsAreSound, TypedReadsAreHonest};

use cs_place::tokens_name_parts;
use cs_steps::{captured_is_committed, refusals_are_right, steps_are_honest};

/// A law: what a stream of a state has to give is a feed.
pub fn streams_are_sound()
    ensures { StreamsAreSound }
{
    let _committed = captured_is_committed();
    let _steps = steps_are_honest();
}

/// A law: what a state answers to a query that reads one of its streams, with typed arguments, is an
/// honest READ for the feed of that stream: it is refused by a refusal whose condition holds, or the
/// condition of none holds, and each step may follow those before it.
pub fn reads_are_honest()
    ensures { ReadsAreHonest }
{
    let _committed = captured_is_committed();
    let _steps = steps_are_honest();
    let _refusals = refusals_are_right();
    let _tokens = tokens_name_parts();
}

/// A law: the same of typed arguments themselves, whatever query they stand for. The refusals from
/// `Heartbeat` to `StartPastPartition` are all that they can meet.
pub fn typed_reads_are_honest()
    ensures { TypedReadsAreHonest }
{
    let _committed = captured_is_committed();
    let _steps = steps_are_honest();
    let _refusals = refusals_are_right();
    let _tokens = tokens_name_parts();
}
