ghost use Rattle.std.specs.Prelude.{◌≡◌, ◌+◌, ℕ, Some, None, OnOk, OnErr, min};
ghost use Rattle.cs_device.specs.Causes.{HasCause};
ghost use Rattle.cs_connection.specs.Given.{KeepsBack};
ghost use Rattle.cs_serve.specs.Accepted.{GivesOne, GivesAll, EndsBehind, HasEndCause};
ghost use Rattle.cs_serve.specs.Served.{StaysSilent};

use crate::serving::serve_one;
use cs_connection::Accept;
use cs_device::Failed;
use cs_script::ServerState;
use cs_types::Stamp;
use std::alloc::Global;
use std::sync::Wait;

/// How the serving of connections ended.
#[derive(Clone, Copy, Debug, PartialEq, Eq)]
pub enum ServeEnd {
    /// As many connections as were asked for were taken, served and given back.
    Done,
    /// No connection could be taken. The acceptor's count of faults rose.
    AcceptFault,
}

/// Takes one connection, serves it and gives it back.
fn serve_next<A: Accept>(
    alloc: Global,
    state: &ServerState,
    moment: Stamp,
    accept: &mut A,
) -> Result<(), Failed>
    ensures one { ((c d : A.C) → A.C.same c d → StaysSilent (A.C.gone c) (A.C.gone d) × StaysSilent (A.C.written c) (A.C.written d)) → OnOk result (GivesOne state.now moment (A.back accept.old) (A.back accept.new)) }
    ensures none { OnErr result (KeepsBack (A.back accept.old) (A.back accept.new)) }
    ensures out { A.out accept.new ≡ A.out accept.old }
    ensures object { A.same accept.old accept.new }
    ensures cause { HasCause (A.faults accept.old) (A.faults accept.new) result }
{
    let mut conn = accept.accept()?;
    let served = serve_one(alloc, state, moment, &mut conn);
    accept.done(conn, served);
    Ok(())
}

/// The moment of the next connection.
fn later(moment: Stamp, step_us: u64) -> Stamp
    ensures { result ≡ min (moment + step_us) 253402300799999999 }
{
    let us = moment.us().saturating_add(step_us).min(Stamp::GREATEST);
    match Stamp::of(us) {
        Some(stamp) => stamp,
        None => unreachable!(),
    }
}

/// Serves so many connections, each for its moment.
fn serve_some<A: Accept>(
    alloc: Global,
    state: &ServerState,
    moment: Stamp,
    step_us: u64,
    count: u64,
    accept: &mut A,
) -> ServeEnd
    ensures all { ((c d : A.C) → A.C.same c d → StaysSilent (A.C.gone c) (A.C.gone d) × StaysSilent (A.C.written c) (A.C.written d)) → (n : ℕ) × GivesAll state.now moment step_us n (A.back accept.old) (A.back accept.new) × EndsBehind (Some count) n result }
    ensures out { A.out accept.new ≡ A.out accept.old }
    ensures object { A.same accept.old accept.new }
    ensures cause { HasEndCause (A.faults accept.old) (A.faults accept.new) result }
{
    let _us = moment.us();
    let mut at = moment;
    let mut number = 0;
    'connections: while number < count {
        match serve_next(alloc, state, at, accept) {
            Ok(()) => {}
            Err(Failed) => return ServeEnd::AcceptFault,
        }
        at = later(at, step_us);
        number += 1;
    }
    ServeEnd::Done
}

/// Serves connections, each for its moment, until none can be taken.
fn serve_always<R: Wait, A: Accept>(
    rt: &R,
    alloc: Global,
    state: &ServerState,
    moment: Stamp,
    step_us: u64,
    accept: &mut A,
) -> ServeEnd
    ensures all { ((c d : A.C) → A.C.same c d → StaysSilent (A.C.gone c) (A.C.gone d) × StaysSilent (A.C.written c) (A.C.written d)) → (n : ℕ) × GivesAll state.now moment step_us n (A.back accept.old) (A.back accept.new) × EndsBehind None n result }
    ensures out { A.out accept.new ≡ A.out accept.old }
    ensures object { A.same accept.old accept.new }
    ensures cause { HasEndCause (A.faults accept.old) (A.faults accept.new) result }
{
    let _us = moment.us();
    let mut at = moment;
    'connections: for _ in rt.forever() {
        match serve_next(alloc, state, at, accept) {
            Ok(()) => {}
            Err(Failed) => return ServeEnd::AcceptFault,
        }
        at = later(at, step_us);
    }
    unreachable!()
}

/// Serves connections one by one: as many as are asked for, or without end. The first is served for
/// the moment, and each next one for a moment that is a step later, at most the greatest stamp. Each
/// is given back, with how its serving ended, before the next is taken. Only a connection that
/// cannot be taken ends it early.
pub fn serve<R: Wait, A: Accept>(
    rt: &R,
    alloc: Global,
    state: &ServerState,
    moment: Stamp,
    step_us: u64,
    connections: Option<u64>,
    accept: &mut A,
) -> ServeEnd
    ensures all { ((c d : A.C) → A.C.same c d → StaysSilent (A.C.gone c) (A.C.gone d) × StaysSilent (A.C.written c) (A.C.written d)) → (n : ℕ) × GivesAll state.now moment step_us n (A.back accept.old) (A.back accept.new) × EndsBehind connections n result }
    ensures out { A.out accept.new ≡ A.out accept.old }
    ensures object { A.same accept.old accept.new }
    ensures cause { HasEndCause (A.faults accept.old) (A.faults accept.new) result }
{
    match connections {
        Some(count) => serve_some(alloc, state, moment, step_us, count, accept),
        None => serve_always(rt, alloc, state, moment, step_us, accept),
    }
}
