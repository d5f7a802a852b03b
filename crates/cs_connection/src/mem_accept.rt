ghost use Rattle.std.specs.Prelude.{◌≡◌, ◌↔◌, ◌+◌, ◌-◌, ◌<◌, ◌++◌, ◌∷◌, [], IfOk, OnOk, OnErr, IsErr, MatchResult};
ghost use Rattle.std.specs.List.{All};
ghost use Rattle.cs_device.specs.Causes.{HasCause};
ghost use Rattle.cs_device.specs.Calls.{no_calls, passed, faulted};
ghost use Rattle.cs_connection.specs.Accepting.{IsNew, IsSameAccept, AcceptFails};

use crate::queue::ConnQueue;
use crate::{Accept, MemConn, Returned, Served};
use cs_device::Failed;
use cs_types::{Items, Memory};
use std::alloc::Global;
use std::marker::Model;

/// Connections in memory, which are taken in their order, and those that were given back, with room
/// for as many, which was taken as it was made. Its calls take no memory.
#[derive(Debug, Drop)]
pub struct MemAccept {
    queue: ConnQueue,
    back: Vec<Returned>,
    out: usize,
}

impl Model for MemAccept {
    ghost use Rattle.std.specs.Prelude.{◌+◌, ◌≤◌, length, vec_capacity};
    ghost use Rattle.std.specs.List.{All};
    ghost use Rattle.cs_connection.specs.Accepting.{AcceptState, IsNew};

    ghost Value = { AcceptState };

    ghost view = { λ a. record { conns = a.queue.conns; back = a.back.items; out = a.out; calls = a.queue.calls } };

    ghost invariant = { λ a. All IsNew a.queue.conns × (length a.queue.conns + length a.back.items + a.out ≤ vec_capacity a.back) };
}

impl MemAccept {
    /// An acceptor that gives these connections, of which nothing was read or written yet and which
    /// never failed, and then fails. `fails` lists the calls of `accept` that fail, counted from 0;
    /// `done` cannot fail and is not counted. `Memory` is want of memory for the room.
    pub fn new(alloc: Global, conns: Items<MemConn>, fails: Items<u64>) -> Result<MemAccept, Memory>
        requires { All IsNew conns }
        ensures { IfOk result (λ a. a ≡ record { conns = conns; back = []; out = 0; calls = no_calls fails }) }
    {
        Ok(MemAccept {
            back: Vec::with_capacity(alloc, conns.as_slice().len())?,
            queue: ConnQueue::new(conns, fails),
            out: 0,
        })
    }

    /// The connections that were given back, in order.
    pub fn returned(&self) -> &[Returned]
        ensures { result.now ≡ self.now.back }
    {
        &self.back
    }
}

impl Accept for MemAccept {
    ghost use Rattle.std.specs.Prelude.{Some, map};
    ghost use Rattle.cs_connection.specs.Accepting.{told_of};

    type C = MemConn;

    ghost out = { λ a. a.out };

    ghost back = { λ a. Some (map told_of a.back) };

    ghost faults = { λ a. a.calls.faults };

    ghost same = { IsSameAccept };

    /// Fails on the listed calls, and where no connection is left; then it gives none away.
    fn accept(&mut self) -> Result<MemConn, Failed>
        ensures untouched { IfOk result IsNew }
        ensures out { OnOk result (self.new.out ≡ self.old.out + 1) }
        ensures none { OnErr result (self.new.out ≡ self.old.out) }
        ensures back { self.new.back ≡ self.old.back }
        ensures object { IsSameAccept self.old self.new }
        ensures cause { HasCause self.old.calls.faults self.new.calls.faults result }
        ensures fails { IsErr result ↔ AcceptFails self.old }
        ensures given { MatchResult result (λ c. self.old.conns ≡ c ∷ self.new.conns) (λ _. self.new.conns ≡ self.old.conns) }
        ensures counted { MatchResult result (λ _. self.new.calls ≡ passed self.old.calls) (λ _. self.new.calls ≡ faulted self.old.calls) }
    {
        let conn = self.queue.next()?;
        self.out += 1;
        Ok(conn)
    }

    /// Keeps the connection behind those that were given back before.
    fn done(&mut self, conn: MemConn, served: Served)
        requires { 0 < self.old.out }
        ensures { self.new ≡ record { conns = self.old.conns; back = self.old.back ++ (record { conn = conn; served = served }) ∷ []; out = self.old.out - 1; calls = self.old.calls } }
    {
        self.out -= 1;
        match self.back.push(Returned { conn, served }) {
            Ok(()) => {}
            Err(_) => unreachable!(),
        }
    }

    ghost use Rattle.std.proofs.Common.{rules, arith};

    ghost same_now = { λ s. Prim.search (rules, arith) };

    ghost same_then = { λ s t u a b. Prim.search (rules, arith) };
}
