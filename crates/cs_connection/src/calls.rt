ghost use Rattle.std.specs.Prelude.{◌≡◌, ◌↔◌, IsTrue, false, true, MatchResult};
ghost use Rattle.cs_device.specs.Calls.{no_calls, IsListed, IsLater, passed, faulted};
ghost use Rattle.cs_device.specs.Causes.{HasCause, one_more};

use cs_device::Failed;
use cs_types::Items;
use std::marker::Model;

/// The calls made on an object, which of them fail, and how many have.
#[derive(Debug, Drop)]
pub(crate) struct CallCounter {
    made: u64,
    listed: Items<u64>,
    faults: u64,
}

impl Model for CallCounter {
    ghost use Rattle.cs_device.specs.Calls.{Calls, calls_code};

    ghost Value = { Calls };

    ghost coded = { calls_code };

    ghost view = { λ c. record { made = c.made; listed = c.listed; faults = c.faults } };
}

impl CallCounter {
    pub(crate) fn new(listed: Items<u64>) -> CallCounter
        ensures { result ≡ no_calls listed }
    {
        CallCounter {
            made: 0,
            listed,
            faults: 0,
        }
    }

    /// Whether the next call is to fail. It goes over the whole list, which is a test's and tiny.
    pub(crate) fn is_listed(&self) -> bool
        ensures { IsTrue result ↔ IsListed self.now }
    {
        self.listed.as_slice().contains(&self.made)
    }

    /// Counts a call, which fails or not.
    pub(crate) fn count(&mut self, fails: bool) -> Result<(), Failed>
        ensures after { MatchResult result (λ _. (fails ≡ false) × (self.new ≡ passed self.old)) (λ _. (fails ≡ true) × (self.new ≡ faulted self.old)) }
        ensures made { self.new.made ≡ one_more self.old.made }
        ensures later { IsLater self.old self.new }
        ensures cause { HasCause self.old.faults self.new.faults result }
    {
        self.made = self.made.saturating_add(1);
        if fails {
            self.faults = self.faults.saturating_add(1);
            return Err(Failed);
        }
        Ok(())
    }
}
