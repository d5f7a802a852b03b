ghost use Rattle.std.specs.Prelude.{◌≡◌, ◌+◌, ◌-◌, ◌<◌, ℕ, List, Option, IfOk, OnOk, OnErr};
ghost use Rattle.cs_device.specs.Causes.{HasCause};

use crate::{Conn, Served};
use cs_device::Failed;

/// What takes connections that others make, and takes them back when they were served.
pub trait Accept {
    ghost use Rattle.cs_connection.specs.Given.{GivenBack, GrowsByOne, KeepsBack, IsUntouched};

    /// The connections that it takes.
    type C: Conn;

    /// How many connections are out: taken, and not given back.
    ghost out: { Self → ℕ };

    /// The connections given back, in order, where it tells them.
    ghost back: { Self → Option (List GivenBack) };

    /// How often it has failed. It never falls.
    ghost faults: { Self → ℕ };

    /// The same object, later: where it is a loan, the same loan.
    ghost same: { Self → Self → Type 0 };

    /// Takes the next connection, which is out then: nothing was read from it or written to it, and
    /// it never failed.
    fn accept(&mut self) -> Result<Self::C, Failed>
        ensures untouched { IfOk result (λ c. IsUntouched (Self.C.gone c) (Self.C.written c)) }
        ensures sound { IfOk result (λ c. Self.C.faults c ≡ 0) }
        ensures out { OnOk result (out self.new ≡ out self.old + 1) }
        ensures none { OnErr result (out self.new ≡ out self.old) }
        ensures back { KeepsBack (back self.old) (back self.new) }
        ensures object { same self.old self.new }
        ensures cause { HasCause (faults self.old) (faults self.new) result };

    /// Takes back a connection, with the answer of its serving. At least one has to be out.
    fn done(&mut self, conn: Self::C, served: Served)
        requires { 0 < out self.old }
        ensures out { out self.new ≡ out self.old - 1 }
        ensures back { GrowsByOne (back self.old) (back self.new) (record { gone = Self.C.gone conn; left = Self.C.left conn; written = Self.C.written conn; faults = Self.C.faults conn; served = served }) }
        ensures object { same self.old self.new }
        ensures faults { faults self.new ≡ faults self.old };

    ghost same_now: { (s : Self) → same s s };

    ghost same_then: { (s t u : Self) → same s t → same t u → same s u };
}
