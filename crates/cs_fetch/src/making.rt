ghost use Rattle.std.specs.Prelude.{◌≡◌, ◌≢◌, ◌⊎◌, ◌<◌, ◌≤◌, ◌^◌, ℕ, List, Some, Err, IfOk};
ghost use Rattle.cs_link.specs.declared.breach.Breach.{Breach};
ghost use Rattle.cs_fetch.specs.declared.fault.FetchFault.{FetchFault};
ghost use Rattle.cs_link.specs.declared.feed.Feed.{Feed};
ghost use Rattle.cs_link.specs.declared.refusal.ReadRefusal.{ReadRefusal};
ghost use Rattle.cs_link.specs.Causes.{Rose};
ghost use Rattle.cs_fetch.specs.Fetch.{most_calls, Gives, Breaks, Stalls};
ghost use Rattle.cs_link.specs.Honest.{IsHonestFor};
ghost use Rattle.cs_fetch.specs.Laws.{Fits, IsWithin, IsFaithfulResult, IsWellFormed};
ghost use Rattle.cs_fetch.specs.Made.{Presents, IsMade, WasRefused, IsBadLine, IsFetched, AsksOnce, HasFewSteps, counted_end};
ghost use Rattle.cs_link.specs.Pace.{Grows, BringsOn, Reaches, pace};
ghost use Rattle.cs_link.specs.Reading.{end_of};

use crate::FetchFault;
use crate::fetching::most_calls;
use crate::kept::SeenSet;
use crate::so_far::{SoFar, Tally};
use crate::taken::Turn;
use cs_link::{Batch, Known, Limits, Link, ReadArgs};
use std::alloc::Global;

/// Makes one READ, and gives what it brought that was not known before.
///
/// Its start is the end of the known part, or one microsecond later. Changes that are known are
/// dropped. It takes steps until the READ ends, or until the batch is full with a data record or a
/// heartbeat that adds something: it is the last that `limits.records` allows, or the weights of
/// those that added something pass `limits.bytes` with it. It refuses a READ in the order of
/// [`FetchFault`]; of what no server may answer it tells the first, step by step, and within one
/// step by number. It takes time in the size of what it reads, times a logarithm.
pub fn fetch<K: Link>(
    alloc: Global,
    link: &mut K,
    args: &ReadArgs,
    known: &Known,
    limits: &Limits,
) -> Result<Batch, FetchFault>
    requires records { (1 ≤ limits.now.records) × (limits.now.records ≤ 8192) }
    requires start { Fits args.now known.now }
    ensures batch { IfOk result (λ batch. IsMade args.now known.now limits.now (K.moment link.old) (K.present link.old) (K.present link.new) (Gives batch)) }
    ensures breach { (breach : Breach) → result ≡ Err (FetchFault.Breach breach) → IsMade args.now known.now limits.now (K.moment link.old) (K.present link.old) (K.present link.new) (Breaks breach) ⊎ IsBadLine args.now known.now limits.now (K.moment link.old) (K.present link.old) (K.present link.new) breach }
    ensures stalled { (count : ℕ) → result ≡ Err (FetchFault.Stalled count) → (count ≡ 8192) × IsMade args.now known.now limits.now (K.moment link.old) (K.present link.old) (K.present link.new) Stalls }
    ensures refused { (refusal : ReadRefusal) → result ≡ Err (FetchFault.Refused refusal) → Presents (K.present link.old) (K.present link.new) (WasRefused args.now refusal) }
    ensures link_fault { result ≡ Err FetchFault.LinkFault → Rose (K.faults link.old) (K.faults link.new) }
    ensures no_link_fault { result ≢ Err FetchFault.LinkFault → K.faults link.new ≡ K.faults link.old }
    ensures later { K.faults link.old ≤ K.faults link.new }
    ensures reads { AsksOnce (K.reads link.old) (K.reads link.new) args.now result }
    ensures calls { HasFewSteps (most_calls limits.now) (K.present link.old) (K.present link.new) }
    ensures caught_up { IfOk result (λ batch. K.caught_up link.new ≡ counted_end (K.caught_up link.old) batch.ending) }
    ensures moment { K.moment link.old ≤ K.moment link.new }
    ensures feed { (stream : List ℕ) → K.feed link.new stream ≡ K.feed link.old stream }
    ensures object { K.same link.old link.new }
    ensures stays_honest { (stream : List ℕ) → IsHonestFor stream (K.feed link.old stream) (K.present link.old) → IsHonestFor stream (K.feed link.new stream) (K.present link.new) }
    ensures stays_paced { K.paced link.old → K.paced link.new }
    ensures honest { IsHonestFor args.now.stream (K.feed link.old args.now.stream) (K.present link.old) → (f : Feed) → K.feed link.old args.now.stream ≡ Some f → IsFaithfulResult f (end_of args.now) known.now result }
    ensures reaches { IsHonestFor args.now.stream (K.feed link.old args.now.stream) (K.present link.old) → IfOk result (Reaches (K.moment link.old)) }
    ensures grows { IfOk result (Grows known.now) }
    ensures well_formed { IsWithin args.now known.now → IfOk result (IsWellFormed args.now known.now) }
    ensures brings_on { IsHonestFor args.now.stream (K.feed link.old args.now.stream) (K.present link.old) → K.paced link.old → end_of args.now ≤ K.moment link.old → IfOk result (BringsOn (pace args.now) known.now) }
{
    let _start = args.start.us();
    let _bytes = limits.bytes;
    make(alloc, link, args, known, limits)
}

/// Makes one READ, step by step.
fn make<K: Link>(
    alloc: Global,
    link: &mut K,
    args: &ReadArgs,
    known: &Known,
    limits: &Limits,
) -> Result<Batch, FetchFault>
    requires records { (1 ≤ limits.now.records) × (limits.now.records ≤ 8192) }
    requires bytes { limits.now.bytes < 2 ^ 32 }
    ensures fetched { IsFetched args.now known.now limits.now (K.moment link.old) (K.present link.old) (K.present link.new) (Rose (K.faults link.old) (K.faults link.new)) result }
    ensures no_link_fault { result ≢ Err FetchFault.LinkFault → K.faults link.new ≡ K.faults link.old }
    ensures later { K.faults link.old ≤ K.faults link.new }
    ensures reads { AsksOnce (K.reads link.old) (K.reads link.new) args.now result }
    ensures calls { HasFewSteps (most_calls limits.now) (K.present link.old) (K.present link.new) }
    ensures caught_up { IfOk result (λ batch. K.caught_up link.new ≡ counted_end (K.caught_up link.old) batch.ending) }
    ensures moment { K.moment link.old ≤ K.moment link.new }
    ensures feed { (stream : List ℕ) → K.feed link.new stream ≡ K.feed link.old stream }
    ensures object { K.same link.old link.new }
    ensures stays_honest { (stream : List ℕ) → IsHonestFor stream (K.feed link.old stream) (K.present link.old) → IsHonestFor stream (K.feed link.new stream) (K.present link.new) }
    ensures stays_paced { K.paced link.old → K.paced link.new }
{
    let seen = SeenSet::of(alloc, &known.seen)?;
    link.open(args)?;
    let mut so_far = SoFar::new(alloc, known);
    let mut tally = Tally::none();
    'steps: for _ in 0..most_calls(limits) {
        let step = link.next()?;
        match so_far.turn(alloc, args, known, &seen, limits, &tally, &step)? {
            Turn::Gives(batch) => return Ok(batch),
            Turn::On(counted) => tally = counted,
        }
    }
    unreachable!()
}
