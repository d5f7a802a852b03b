ghost use Rattle.std.specs.Prelude.{◌≡◌, ◌↔◌, ◌∷◌, Ok, IfOk, IsErr, MatchResult};
ghost use Rattle.std.specs.List.{All};
ghost use Rattle.cs_device.specs.Causes.{HasCause};
ghost use Rattle.cs_device.specs.Calls.{no_calls, passed, faulted};
ghost use Rattle.cs_connection.specs.Memory.{IsSameQueue, IsUnused, QueueFails};

use crate::queue::ConnQueue;
use crate::{Dial, MemConn};
use cs_device::Failed;
use cs_types::{Items, Memory};
use std::alloc::Global;
use std::marker::Model;

/// Connections in memory, which are given in their order. Nothing was read from any of them or
/// written to it. Its calls take no memory.
#[derive(Debug, Drop)]
pub struct MemDial {
    queue: ConnQueue,
}

impl Model for MemDial {
    ghost use Rattle.std.specs.List.{All};
    ghost use Rattle.cs_connection.specs.Memory.{QueueState, queue_code, IsUnused};

    ghost Value = { QueueState };

    ghost coded = { queue_code };

    ghost view = { λ d. d.queue };

    ghost invariant = { λ d. All IsUnused d.queue.conns };
}

impl MemDial {
    /// A dialer that gives these connections, of which nothing was read or written yet, and then
    /// fails. `fails` lists the calls that fail, counted from 0. It takes no memory, so it answers
    /// `Ok`.
    pub fn new(_alloc: Global, conns: Items<MemConn>, fails: Items<u64>) -> Result<MemDial, Memory>
        requires { All IsUnused conns }
        ensures { result ≡ Ok (record { conns = conns; calls = no_calls fails }) }
    {
        Ok(MemDial {
            queue: ConnQueue::new(conns, fails),
        })
    }
}

impl Dial for MemDial {
    type C = MemConn;

    ghost faults = { λ d. d.calls.faults };

    /// That nothing was read from it or written to it.
    ghost gives = { λ d c. IsUnused c };

    ghost same = { IsSameQueue };

    /// Fails on the listed calls, and where no connection is left; then it gives none away.
    fn dial(&mut self) -> Result<MemConn, Failed>
        ensures untouched { IfOk result IsUnused }
        ensures object { IsSameQueue self.old self.new }
        ensures cause { HasCause self.old.calls.faults self.new.calls.faults result }
        ensures fails { IsErr result ↔ QueueFails self.old }
        ensures given { MatchResult result (λ c. self.old.conns ≡ c ∷ self.new.conns) (λ _. self.new.conns ≡ self.old.conns) }
        ensures counted { MatchResult result (λ _. self.new.calls ≡ passed self.old.calls) (λ _. self.new.calls ≡ faulted self.old.calls) }
    {
        self.queue.next()
    }

    ghost use Rattle.std.proofs.Common.{rules, arith};

    ghost same_now = { λ s. Prim.search (rules, arith) };

    ghost same_then = { λ s t u a b. Prim.search (rules, arith) };
}
