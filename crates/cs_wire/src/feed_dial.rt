ghost use Rattle.std.specs.Prelude.{◌≡◌, ◌≤◌, ℕ, Bool, List, Option, Some, true};
ghost use Rattle.cs_link.specs.declared.feed.Feed.{Feed};
ghost use Rattle.cs_link.specs.declared.reading.ReadArgs.{ReadArgs};
ghost use Rattle.cs_http.specs.Request.{request_text};
ghost use Rattle.cs_wire.specs.Answers.{HasAnswer, IsHonestAnswerText};

use cs_connection::{Dial, MemDial, TcpDial};
use std::net::{Net, TcpStream};

/// A dialer that may tell what its far end has to give, and what it answers. It has no calls.
///
/// A dialer in memory and one over TCP tell nothing; a loan of a dialer tells what the dialer tells.
pub trait FeedDial: Dial {
    /// What a stream has to give, where it tells it.
    ghost feed: { Self → List ℕ → Option Feed };

    /// Its present moment. It never falls.
    ghost moment: { Self → ℕ };

    /// Whether it tells what its connections give to be read.
    ghost tells: { Self → Bool };

    /// What a connection gives to be read, once these bytes were written to it.
    ghost answer: { Self → List ℕ → List ℕ };

    /// Whether neither the dialer nor any of its connections ever fails.
    ghost faultless: { Self → Bool };

    ghost feed_stays: { (d e : Self) → Self.same d e → (stream : List ℕ) → feed e stream ≡ feed d stream };

    ghost moment_rises: { (d e : Self) → Self.same d e → moment d ≤ moment e };

    ghost tells_stays: { (d e : Self) → Self.same d e → tells e ≡ tells d };

    /// A connection that it gave tells what was read from it and written to it, and until something
    /// was read it gives the answer to what was written.
    ghost answers: { (d : Self) (c e : Self.C) → tells d ≡ true → Self.gives d c → Self.C.same c e → HasAnswer (answer d) (Self.C.gone e) (Self.C.written e) (Self.C.left e) };

    /// The answer to a READ of a stream whose feed it tells is honest.
    ghost honest: { (d : Self) (args : ReadArgs) (f : Feed) → tells d ≡ true → feed d args.stream ≡ Some f → IsHonestAnswerText f args (moment d) (answer d (request_text args)) };

    ghost faultless_stays: { (d e : Self) → Self.same d e → faultless e ≡ faultless d };

    ghost no_dial_fails: { (d : Self) → faultless d ≡ true → Self.faults d ≡ 0 };

    ghost no_connection_fails: { (d : Self) (c e : Self.C) → faultless d ≡ true → Self.gives d c → Self.C.same c e → Self.C.faults e ≡ 0 };
}

impl<D: FeedDial> FeedDial for &mut D {
    ghost feed = { λ d stream. D.feed d.now stream };

    ghost moment = { λ d. D.moment d.now };

    ghost tells = { λ d. D.tells d.now };

    ghost answer = { λ d bytes. D.answer d.now bytes };

    ghost faultless = { λ d. D.faultless d.now };

    ghost feed_stays = { λ d e s stream. D.feed_stays d.now e.now s.1 stream };

    ghost moment_rises = { λ d e s. D.moment_rises d.now e.now s.1 };

    ghost tells_stays = { λ d e s. D.tells_stays d.now e.now s.1 };

    ghost answers = { λ d c e t g s. D.answers d.now c e t g s };

    ghost honest = { λ d args f t e. D.honest d.now args f t e };

    ghost faultless_stays = { λ d e s. D.faultless_stays d.now e.now s.1 };

    ghost no_dial_fails = { λ d t. D.no_dial_fails d.now t };

    ghost no_connection_fails = { λ d c e t g s. D.no_connection_fails d.now c e t g s };
}

impl FeedDial for MemDial {
    ghost use Rattle.std.specs.Prelude.{None, [], false};
    ghost use Rattle.std.proofs.Common.{rules, arith, sym, true≢false};

    ghost feed = { λ d stream. None };

    ghost moment = { λ d. 0 };

    ghost tells = { λ d. false };

    ghost answer = { λ d bytes. [] };

    ghost faultless = { λ d. false };

    ghost feed_stays = { λ d e s stream. Prim.search rules };

    ghost moment_rises = { λ d e s. Prim.search (rules, arith) };

    ghost tells_stays = { λ d e s. Prim.search rules };

    ghost answers = { λ d c e t g s. absurd (true≢false (sym t)) };

    ghost honest = { λ d args f t e. absurd (true≢false (sym t)) };

    ghost faultless_stays = { λ d e s. Prim.search rules };

    ghost no_dial_fails = { λ d t. absurd (true≢false (sym t)) };

    ghost no_connection_fails = { λ d c e t g s. absurd (true≢false (sym t)) };
}

impl<R: Net<Stream = TcpStream>> FeedDial for TcpDial<R> {
    ghost use Rattle.std.specs.Prelude.{None, [], false};
    ghost use Rattle.std.proofs.Common.{rules, arith, sym, true≢false};

    ghost feed = { λ d stream. None };

    ghost moment = { λ d. 0 };

    ghost tells = { λ d. false };

    ghost answer = { λ d bytes. [] };

    ghost faultless = { λ d. false };

    ghost feed_stays = { λ d e s stream. Prim.search rules };

    ghost moment_rises = { λ d e s. Prim.search (rules, arith) };

    ghost tells_stays = { λ d e s. Prim.search rules };

    ghost answers = { λ d c e t g s. absurd (true≢false (sym t)) };

    ghost honest = { λ d args f t e. absurd (true≢false (sym t)) };

    ghost faultless_stays = { λ d e s. Prim.search rules };

    ghost no_dial_fails = { λ d t. absurd (true≢false (sym t)) };

    ghost no_connection_fails = { λ d c e t g s. absurd (true≢false (sym t)) };
}
