ghost use Rattle.std.specs.Prelude.{◌≡◌, ◌≢◌, ◌⊎◌, ◌≤◌, ◌+◌, ℕ, List, Option, Some, None, Ok, Err, IfOk, OnOk, IfErr, IfSome, MatchResult, MatchOption, length, is_some, true, false, not};
ghost use Rattle.std.specs.Option.{option_map};
ghost use Rattle.cs_device.specs.Causes.{Rose};
ghost use Rattle.cs_link.specs.Calls.{Opens, AddsRead, Goes, IsOfOpen, IsOfNext};
ghost use Rattle.cs_link.specs.Causes.{HasFailed, counted};
ghost use Rattle.cs_link.specs.Honest.{IsHonestFor};
ghost use Rattle.cs_link.specs.Reading.{Read, is_closing};
ghost use Rattle.cs_link.specs.declared.feed.Feed.{Feed};
ghost use Rattle.cs_link.specs.declared.reading.Step.{Step as steps};
ghost use Rattle.cs_link.specs.declared.refusal.LinkAnswer.{LinkAnswer as link_answers};
ghost use Rattle.cs_http.specs.Request.{request_text};
ghost use Rattle.cs_wire.specs.Counts.{counted_fault};
ghost use Rattle.cs_wire.specs.Opened.{IsBare};
ghost use Rattle.cs_wire.specs.Seen.{so_far, IsAnsweredOver};
ghost use Rattle.cs_wire.specs.Told.{IsGoing, HasStepped, IsNumbered, no_reads};

use crate::begin::{Begun, begin};
use crate::feed_dial::FeedDial;
use crate::lines::Lines;
use cs_link::{Closing, Link, LinkAnswer, ReadArgs, Step};
use std::alloc::Global;
use std::snapshot::Snapshot;

/// What was asked, and what `open` answered. It takes no memory.
#[derive(Drop)]
struct Asked {
    args: Snapshot<ReadArgs>,
    opened: Snapshot<Result<(), LinkAnswer>>,
}

/// A link to a far server. Each READ has a connection of its own, which is kept until the next one
/// is opened. The answer is read in pieces of 4,096 bytes and cut into lines, however the connection
/// gives the bytes; what follows a line is held.
///
/// It tells the feed and the moment of its dialer, and its present READ where the dialer tells what
/// its connections give. Then each of its READs of a stream whose feed is told is honest.
#[derive(Drop)]
pub struct WireLink<D: FeedDial> {
    alloc: Global,
    dial: D,
    asked: Option<Asked>,
    lines: Option<Lines<D::C>>,
    stopped: Option<Snapshot<LinkAnswer>>,
    reading: bool,
    given: u64,
    faults: u64,
    caught_up: u64,
    ghost quiet: { ∥ (D.faultless dial ≡ true → IfSome lines (λ l. (e : D.C) → D.C.same l.conn e → D.C.faults e ≡ 0)) ∥₁ },
    ghost connected: { reading ≡ true → is_some lines ≡ true },
    ghost going: { ∥ (D.tells dial ≡ true → reading ≡ true → IsGoing (D.answer dial) (option_map (λ a. record { args = a.args.value; opened = a.opened.value }) asked) (option_map so_far lines) (option_map (λ s. s.value) stopped) given) ∥₁ },
}

/// A count of faults after an answer.
fn counted(faults: u64, answer: &LinkAnswer) -> u64
    ensures { result ≡ counted_fault faults answer.now }
{
    match answer {
        LinkAnswer::Failed => faults.saturating_add(1),
        LinkAnswer::Refused(_) => faults,
        LinkAnswer::BadLine(_, _) => faults,
        LinkAnswer::Memory => faults,
    }
}

/// A count of ends that caught up, after an end.
fn ended(count: u64, closing: &Closing) -> u64
    ensures { result ≡ counted count (Ok (steps.Closing closing.now)) }
{
    match closing {
        Closing::Finished => count,
        Closing::CaughtUp(_) => count.saturating_add(1),
        Closing::Cut => count,
    }
}

fn is_closing(step: &Step) -> bool
    ensures { result ≡ is_closing step.now }
{
    match step {
        Step::Record(_) => false,
        Step::Closing(_) => true,
    }
}

impl<D: FeedDial> WireLink<D> {
    /// A link that asks over connections of this dialer. No READ is open, and no call failed so far. It
    /// takes no memory.
    pub fn new(alloc: Global, dial: D) -> WireLink<D>
        ensures dial { result.dial ≡ dial }
        ensures asked { result.asked ≡ None }
        ensures lines { result.lines ≡ None }
        ensures reading { result.reading ≡ false }
        ensures faults { result.faults ≡ 0 }
        ensures caught_up { result.caught_up ≡ 0 }
    {
        WireLink {
            alloc,
            dial,
            asked: None,
            lines: None,
            stopped: None,
            reading: false,
            given: 0,
            faults: 0,
            caught_up: 0,
        }
    }

    /// Takes the next line. `BadLine` comes where the line is bad, and `Failed` where the
    /// connection's count rose or it ended before the end of a line. A link that has counted as many
    /// lines as there are numbers answers want of memory.
    fn step(&mut self) -> Result<Step, LinkAnswer>
        requires { self.old.reading ≡ true }
        ensures answer { IfErr result IsOfNext }
        ensures number { IfErr result (IsNumbered (self.old.given + 1)) }
        ensures given { MatchResult result (λ _. self.new.given ≡ self.old.given + 1) (λ _. self.new.given ≡ self.old.given) }
        ensures reading { MatchResult result (λ step. self.new.reading ≡ not (is_closing step)) (λ _. self.new.reading ≡ true) }
        ensures dial { self.new.dial ≡ self.old.dial }
        ensures asked { self.new.asked ≡ self.old.asked }
        ensures stopped { self.new.stopped ≡ self.old.stopped }
        ensures lines { HasStepped (option_map so_far self.old.lines) (option_map so_far self.new.lines) result }
        ensures faults { self.new.faults ≡ self.old.faults }
        ensures caught_up { self.new.caught_up ≡ self.old.caught_up }
    {
        let Some(number) = self.given.checked_add(1) else {
            return Err(LinkAnswer::Memory);
        };
        match &mut self.lines {
            Some(lines) => match lines.step(self.alloc, number) {
                Ok(step) => {
                    self.given = number;
                    self.reading = !is_closing(&step);
                    Ok(step)
                }
                Err(answer) => Err(answer),
            },
            None => unreachable!(),
        }
    }

    /// How many bytes were read and not yet used. It takes no memory.
    pub fn held(&self) -> usize
        ensures bound { result ≤ 8392704 }
        ensures bytes { MatchOption self.now.lines (result ≡ 0) (λ l. result ≡ length l.held.items) }
    {
        match &self.lines {
            None => 0,
            Some(lines) => lines.held.len(),
        }
    }
}

impl<D: FeedDial> Link for WireLink<D>
where
    D::C: Drop,
{
    ghost use Rattle.cs_wire.specs.Present.{present_of};

    ghost faults = { λ l. l.faults };

    ghost caught_up = { λ l. l.caught_up };

    ghost moment = { λ l. D.moment l.dial };

    ghost feed = { λ l stream. D.feed l.dial stream };

    ghost present = { present_of };

    ghost reads = { λ l. no_reads };

    ghost is_reading = { λ l. l.reading };

    /// It tells nothing of it.
    ghost paced = { λ l. ⊥ };

    ghost same = { λ s t. D.same s.dial t.dial };

    /// Asks for the READ over a new connection, and reads the head of its answer; of one with the
    /// status 400 its first line too. The connection is kept, if there is one.
    ///
    /// `Refused` comes where the answer is that refusal: its status is 400 and its first line tells
    /// it, or is not understood, or its status is neither 200 nor 503. `Failed` comes where a count of
    /// the dialer or the connection rose, where no head stands there that is taken, or the answer
    /// ended within it, and where the status is 503.
    #[tactic(auto, using(crate::proofs::Failing::has_failed))]
    fn open(&mut self, args: &ReadArgs) -> Result<(), LinkAnswer>
        ensures why { IfSome self.new.lines (λ l. IsAnsweredOver (D.gives self.new.dial) (request_text args.now) l result) }
        ensures unasked { is_some self.new.lines ≡ false → IfErr result IsBare }
        ensures failed { is_some self.new.lines ≡ false → result ≡ Err link_answers.Failed → Rose (D.faults self.old.dial) (D.faults self.new.dial) ⊎ ((first : D.C) × (asked : D.C) × D.gives self.new.dial first × D.C.same first asked × Rose (D.C.faults first) (D.C.faults asked)) }
        ensures never_fails { D.faultless self.old.dial ≡ true → D.tells self.old.dial ≡ true → (f : Feed) → D.feed self.old.dial args.now.stream ≡ Some f → result ≢ Err link_answers.Failed }
        ensures none_given { self.new.given ≡ 0 }
        ensures present { Opens (present_of self.old) (present_of self.new) args.now (D.moment self.new.dial) result }
        ensures reads { AddsRead no_reads no_reads args.now result }
        ensures reading { OnOk result (self.new.reading ≡ true) }
        ensures answer { IfErr result IsOfOpen }
        ensures caught_up { self.new.caught_up ≡ self.old.caught_up }
        ensures moment { D.moment self.old.dial ≤ D.moment self.new.dial }
        ensures feed { (stream : List ℕ) → D.feed self.new.dial stream ≡ D.feed self.old.dial stream }
        ensures honest { (stream : List ℕ) → IsHonestFor stream (D.feed self.old.dial stream) (present_of self.old) → IsHonestFor stream (D.feed self.new.dial stream) (present_of self.new) }
        ensures paced { ⊥ → ⊥ }
        ensures object { D.same self.old.dial self.new.dial }
        ensures cause { HasFailed self.old.faults self.new.faults result }
    {
        self.reading = false;
        let begun = begin(self.alloc, &mut self.dial, args);
        self.asked = Some(Asked {
            args: Snapshot::of(args),
            opened: Snapshot::of(&begun.opened),
        });
        self.stopped = None;
        self.given = 0;
        let Begun { lines, opened } = begun;
        self.lines = lines;
        match opened {
            Ok(()) => {
                self.reading = true;
                Ok(())
            }
            Err(answer) => {
                self.faults = counted(self.faults, &answer);
                Err(answer)
            }
        }
    }

    /// Takes the next line of the answer, which stands for the step. A line that is bad stays.
    ///
    /// `BadLine` comes where the line behind those that were taken is neither a closing line nor that
    /// of a record, with the fault of `step_of` of cs_http, or is longer than a line may be; its
    /// number is one more than that of the lines taken. `Failed` comes where the connection's count
    /// rose, or it ended where no line ends.
    #[tactic(auto, using(crate::proofs::Failing::has_failed))]
    fn next(&mut self) -> Result<Step, LinkAnswer>
        requires { self.old.reading ≡ true }
        ensures why { HasStepped (option_map so_far self.old.lines) (option_map so_far self.new.lines) result }
        ensures never_fails { D.faultless self.old.dial ≡ true → (read : Read) (f : Feed) → present_of self.old ≡ Some (Some read) → D.feed self.old.dial read.args.stream ≡ Some f → result ≢ Err link_answers.Failed }
        ensures number { IfErr result (IsNumbered (self.old.given + 1)) }
        ensures number_told { (read : Read) → present_of self.old ≡ Some (Some read) → IfErr result (IsNumbered (length read.steps + 1)) }
        ensures given { MatchResult result (λ _. self.new.given ≡ self.old.given + 1) (λ _. self.new.given ≡ self.old.given) }
        ensures dial { self.new.dial ≡ self.old.dial }
        ensures present { Goes (present_of self.old) (present_of self.new) result }
        ensures reads { no_reads ≡ no_reads }
        ensures reading { IfOk result (λ step. self.new.reading ≡ not (is_closing step)) }
        ensures answer { IfErr result IsOfNext }
        ensures caught_up { self.new.caught_up ≡ counted self.old.caught_up result }
        ensures moment { D.moment self.old.dial ≤ D.moment self.new.dial }
        ensures feed { (stream : List ℕ) → D.feed self.new.dial stream ≡ D.feed self.old.dial stream }
        ensures honest { (stream : List ℕ) → IsHonestFor stream (D.feed self.old.dial stream) (present_of self.old) → IsHonestFor stream (D.feed self.new.dial stream) (present_of self.new) }
        ensures paced { ⊥ → ⊥ }
        ensures object { D.same self.old.dial self.new.dial }
        ensures cause { HasFailed self.old.faults self.new.faults result }
    {
        match self.step() {
            Ok(Step::Record(record)) => Ok(Step::Record(record)),
            Ok(Step::Closing(closing)) => {
                self.caught_up = ended(self.caught_up, &closing);
                Ok(Step::Closing(closing))
            }
            Err(answer) => {
                self.reading = false;
                self.stopped = Some(Snapshot::of(&answer));
                self.faults = counted(self.faults, &answer);
                Err(answer)
            }
        }
    }

    ghost paced_steps = { λ s p. absurd p };

    ghost same_now = { λ s. D.same_now s.dial };

    ghost same_then = { λ s t u a b. D.same_then s.dial t.dial u.dial a b };
}
