ghost use Rattle.std.specs.Prelude.{◌≡◌, ◌≤◌, ◌∷◌, ◌++◌, [], ℕ, List, Some, Ok, IfOk, IfErr, OnOk, OnErr, true, not};
ghost use Rattle.cs_link.specs.Calls.{Opens, AddsRead, Goes, IsOfOpen, IsOfNext};
ghost use Rattle.cs_link.specs.Causes.{HasFailed, counted, is_caught_up};
ghost use Rattle.cs_link.specs.Honest.{IsHonestFor};
ghost use Rattle.cs_link.specs.Pace.{IsPacedPresent};
ghost use Rattle.cs_link.specs.Reading.{is_closing};
ghost use Rattle.cs_server.specs.Laws.{IsHonestLink};
ghost use Rattle.cs_server.specs.State.{new_link, present_of, IsWell, IsServedOpen, IsServedNext, IsRefusalOrMemory, IsMemory};
ghost use Rattle.cs_server.specs.Typed.{feed_told};

use crate::going::next_of;
use crate::kept::{Kept, Opening};
use crate::opening::prepare;
use cs_link::{Closing, Link, LinkAnswer, ReadArgs, Step};
use cs_read::{Reading, states_are_kept, streams_are_sound, typed_reads_are_honest};
use cs_script::ServerState;
use cs_types::{Duplicate, Items, Memory, Stamp};
use std::alloc::Global;
use std::marker::Model;

/// A link over the state of a server, at a moment, without bytes. It answers each READ as `read`
/// answers a query with the same arguments, and never `Failed` nor `BadLine`, so its count of faults
/// stays 0. Contracts see its state, its moment, the list of its READs, and how many steps the last
/// one gave.
///
/// The first `open` of a stream makes the index of the stream, which costs a capture of each
/// modification and takes 8 bytes for each change that the stream captures and 48 for each data
/// record. The index of one stream is kept: an `open` of the same stream uses it again, and an
/// `open` of another one makes another in its place, beside which the first stands until the `open`
/// is done. Where the index is there, a READ of k steps over a stream of n changes costs its steps,
/// k, and a search for its beginning and its end, a logarithm of n; a page is never laid out, and a
/// READ that is not read to its end costs what was read of it. Each `open` goes over the streams,
/// of which there are few, and over the parts of its stream where it has no token. The arguments of
/// each READ are kept, as contracts tell them; their texts are shared.
///
/// `open` answers `Refused` with the first of these that holds: `UnknownFunction`, where the state
/// has no stream of the name, `Heartbeat`, `EndBeforeStart`, `StartBeforeCreation`, `StartTooOld`,
/// `StartInFuture`, `UnknownToken`, `StartBeforePartition`, `StartPastPartition`; the other refusals
/// are of queries whose arguments are not typed. A refused READ makes no index. It answers `Memory`
/// where memory is wanting, also in place of a refusal; the link is then what it was, with the READ
/// that was open before. `next` gives the next step of the answer, and has no other fault than
/// `Memory`; the same call again then gives the step.
#[derive(Drop)]
pub struct ServerLink<'a> {
    alloc: Global,
    state: &'a ServerState,
    moment: Stamp,
    caught_up: u64,
    asked: Items<ReadArgs>,
    kept: Option<Kept>,
    /// The last READ that was not refused, over the index that is kept.
    going: Option<Reading>,
    /// Whether the last READ goes on.
    reading: bool,
}

impl<'a> Model for ServerLink<'a> {
    ghost use Rattle.cs_server.specs.Going.{IsLink, link_of};
    ghost use Rattle.cs_server.specs.State.{LinkState};

    ghost Value = { LinkState };

    ghost view = { λ s. link_of s.state.now s.moment s.caught_up s.asked s.kept s.going s.reading };

    ghost invariant = { λ s. IsLink s.state.now s.moment s.asked s.kept s.going s.reading };
}

impl<'a> ServerLink<'a> {
    /// A link over a state at a moment. It takes no memory, and looks at each layout of the state.
    pub fn new(alloc: Global, state: &'a ServerState, moment: Stamp) -> ServerLink<'a>
        ensures link { result ≡ new_link state.now moment }
        ensures honest { IsHonestLink result }
        ensures paced { IsPacedPresent (Some (present_of result)) }
    {
        states_are_kept(state);
        let _feeds = streams_are_sound();
        let _us = moment.us();
        ServerLink {
            alloc,
            state,
            moment,
            caught_up: 0,
            asked: Items::new(alloc),
            kept: None,
            going: None,
            reading: false,
        }
    }

    /// Begins a READ, or refuses it.
    fn begin(&mut self, args: &ReadArgs) -> Result<(), LinkAnswer>
        ensures served { IsServedOpen self.old self.new args.now result }
        ensures well { IsWell self.new }
    {
        let opening = prepare(self.alloc, self.state, &self.kept, args, self.moment)?;
        list(&mut self.asked, args)?;
        match opening {
            Opening::Refused(refusal) => {
                self.reading = false;
                Err(LinkAnswer::Refused(refusal))
            }
            Opening::Again(reading) => {
                self.going = Some(reading);
                self.reading = true;
                Ok(())
            }
            Opening::Anew(kept, reading) => {
                self.kept = Some(kept);
                self.going = Some(reading);
                self.reading = true;
                Ok(())
            }
        }
    }

    /// Gives the next step of the READ that goes on.
    fn give(&mut self) -> Result<Step, LinkAnswer>
        requires { self.old.reading ≡ true }
        ensures served { IsServedNext self.old self.new result }
        ensures well { IsWell self.new }
    {
        let step = next_of(self.alloc, self.state, &self.kept, &mut self.going)?;
        self.reading = !is_closing(&step);
        self.caught_up = counted(self.caught_up, &step);
        Ok(step)
    }
}

/// Puts the arguments of a READ behind the others.
fn list(asked: &mut Items<ReadArgs>, args: &ReadArgs) -> Result<(), Memory>
    ensures ok { OnOk result (asked.new ≡ asked.old ++ args.now ∷ []) }
    ensures err { OnErr result (asked.new ≡ asked.old) }
{
    asked.push(args.copy()?)
}

fn is_closing(step: &Step) -> bool
    ensures { result ≡ is_closing step.now }
{
    match step {
        Step::Record(_) => false,
        Step::Closing(_) => true,
    }
}

fn is_caught_up(step: &Step) -> bool
    ensures { result ≡ is_caught_up step.now }
{
    match step {
        Step::Record(_) => false,
        Step::Closing(Closing::CaughtUp(_)) => true,
        Step::Closing(Closing::Finished) | Step::Closing(Closing::Cut) => false,
    }
}

/// The count of ends that caught up, with this step.
fn counted(count: u64, step: &Step) -> u64
    ensures { result ≡ counted count (Ok step.now) }
{
    if is_caught_up(step) {
        return count.saturating_add(1);
    }
    count
}

impl<'a> Link for ServerLink<'a> {
    ghost use Rattle.std.specs.Prelude.{◌≡◌, Some};
    ghost use Rattle.std.proofs.Common.{refl, ◌∙◌};
    ghost use Rattle.cs_link.specs.Pace.{IsPacedPresent};
    ghost use Rattle.cs_server.specs.State.{present_of};
    ghost use Rattle.cs_server.specs.Typed.{feed_told};

    ghost faults = { λ m. 0 };

    ghost caught_up = { λ m. m.caught_up };

    ghost moment = { λ m. m.moment };

    ghost feed = { λ m stream. feed_told m.database stream };

    ghost present = { λ m. Some (present_of m) };

    ghost reads = { λ m. Some m.asked };

    ghost is_reading = { λ m. m.reading };

    ghost paced = { λ m. IsPacedPresent (Some (present_of m)) };

    ghost same = { λ m n. (m.database ≡ n.database) × (m.moment ≡ n.moment) };

    fn open(&mut self, args: &ReadArgs) -> Result<(), LinkAnswer>
        ensures served { IsServedOpen self.old self.new args.now result }
        ensures never { IfErr result IsRefusalOrMemory }
        ensures present { Opens (Some (present_of self.old)) (Some (present_of self.new)) args.now self.new.moment result }
        ensures reads { AddsRead (Some self.old.asked) (Some self.new.asked) args.now result }
        ensures reading { OnOk result (self.new.reading ≡ true) }
        ensures answer { IfErr result IsOfOpen }
        ensures caught_up { self.new.caught_up ≡ self.old.caught_up }
        ensures moment { self.old.moment ≤ self.new.moment }
        ensures feed { (stream : List ℕ) → feed_told self.new.database stream ≡ feed_told self.old.database stream }
        ensures honest { (stream : List ℕ) → IsHonestFor stream (feed_told self.old.database stream) (Some (present_of self.old)) → IsHonestFor stream (feed_told self.new.database stream) (Some (present_of self.new)) }
        ensures paced { IsPacedPresent (Some (present_of self.old)) → IsPacedPresent (Some (present_of self.new)) }
        ensures object { (self.old.database ≡ self.new.database) × (self.old.moment ≡ self.new.moment) }
        ensures cause { HasFailed 0 0 result }
    {
        let _honest = typed_reads_are_honest();
        self.begin(args)
    }

    fn next(&mut self) -> Result<Step, LinkAnswer>
        requires { self.old.reading ≡ true }
        ensures served { IsServedNext self.old self.new result }
        ensures never { IfErr result IsMemory }
        ensures present { Goes (Some (present_of self.old)) (Some (present_of self.new)) result }
        ensures reads { Some self.new.asked ≡ Some self.old.asked }
        ensures reading { IfOk result (λ step. self.new.reading ≡ not (is_closing step)) }
        ensures answer { IfErr result IsOfNext }
        ensures caught_up { self.new.caught_up ≡ counted self.old.caught_up result }
        ensures moment { self.old.moment ≤ self.new.moment }
        ensures feed { (stream : List ℕ) → feed_told self.new.database stream ≡ feed_told self.old.database stream }
        ensures honest { (stream : List ℕ) → IsHonestFor stream (feed_told self.old.database stream) (Some (present_of self.old)) → IsHonestFor stream (feed_told self.new.database stream) (Some (present_of self.new)) }
        ensures paced { IsPacedPresent (Some (present_of self.old)) → IsPacedPresent (Some (present_of self.new)) }
        ensures object { (self.old.database ≡ self.new.database) × (self.old.moment ≡ self.new.moment) }
        ensures cause { HasFailed 0 0 result }
    {
        let _honest = typed_reads_are_honest();
        self.give()
    }

    ghost paced_steps = { λ s p. p };

    ghost same_now = { λ s. (refl, refl) };

    ghost same_then = { λ s t u a b. (a.0 ∙ b.0, a.1 ∙ b.1) };
}
