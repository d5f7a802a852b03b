ghost use Rattle.std.specs.Prelude.{◌≡◌, ◌↔◌, ◌∷◌, IsErr, MatchResult, IsTrue};
ghost use Rattle.cs_device.specs.Causes.{HasCause};
ghost use Rattle.cs_device.specs.Calls.{no_calls, passed, faulted};
ghost use Rattle.cs_connection.specs.Memory.{IsSameQueue, QueueFails};

use crate::MemConn;
use crate::calls::CallCounter;
use cs_device::Failed;
use cs_types::Items;
use std::collections::VecDeque;
use std::marker::Model;

/// Connections in memory, which are given in their order, by calls of which some fail.
#[derive(Debug, Drop)]
pub(crate) struct ConnQueue {
    conns: VecDeque<MemConn>,
    calls: CallCounter,
}

impl Model for ConnQueue {
    ghost use Rattle.cs_connection.specs.Memory.{QueueState, queue_code};

    ghost Value = { QueueState };

    ghost coded = { queue_code };

    ghost view = { λ q. record { conns = q.conns.items; calls = q.calls } };
}

impl ConnQueue {
    pub(crate) fn new(conns: Items<MemConn>, fails: Items<u64>) -> ConnQueue
        ensures { result ≡ record { conns = conns; calls = no_calls fails } }
    {
        ConnQueue {
            conns: VecDeque::from(conns.into_vec()),
            calls: CallCounter::new(fails),
        }
    }

    /// Whether the next call is to fail.
    fn is_to_fail(&self) -> bool
        ensures { IsTrue result ↔ QueueFails self.now }
    {
        if self.calls.is_listed() {
            return true;
        }
        self.conns.is_empty()
    }

    /// Gives the next connection. It fails on the listed calls, and where none is left.
    pub(crate) fn next(&mut self) -> Result<MemConn, Failed>
        ensures object { IsSameQueue self.old self.new }
        ensures cause { HasCause self.old.calls.faults self.new.calls.faults result }
        ensures fails { IsErr result ↔ QueueFails self.old }
        ensures given { MatchResult result (λ c. self.old.conns ≡ c ∷ self.new.conns) (λ _. self.new.conns ≡ self.old.conns) }
        ensures counted { MatchResult result (λ _. self.new.calls ≡ passed self.old.calls) (λ _. self.new.calls ≡ faulted self.old.calls) }
    {
        let fails = self.is_to_fail();
        self.calls.count(fails)?;
        match self.conns.pop_front() {
            Some(conn) => Ok(conn),
            None => unreachable!(),
        }
    }
}
