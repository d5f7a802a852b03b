ghost use Rattle.std.specs.Prelude.{◌≡◌, ℕ, IfOk};
ghost use Rattle.cs_device.specs.Causes.{HasCause};

use crate::Conn;
use cs_device::Failed;

/// What makes connections to one far end.
pub trait Dial {
    ghost use Rattle.cs_connection.specs.Given.{IsUntouched};

    /// The connections that it makes.
    type C: Conn;

    /// How often it has failed. It never falls.
    ghost faults: { Self → ℕ };

    /// What it tells of a connection that it gave.
    ghost gives: { Self → Self.C → Type 0 };

    /// The same object, later: where it is a loan, the same loan.
    ghost same: { Self → Self → Type 0 };

    /// Makes a connection: nothing was read from it or written to it.
    fn dial(&mut self) -> Result<Self::C, Failed>
        ensures untouched { IfOk result (λ c. IsUntouched (Self.C.gone c) (Self.C.written c)) }
        ensures given { IfOk result (gives self.new) }
        ensures object { same self.old self.new }
        ensures cause { HasCause (faults self.old) (faults self.new) result };

    ghost same_now: { (s : Self) → same s s };

    ghost same_then: { (s t u : Self) → same s t → same t u → same s u };
}
