ghost use Rattle.std.specs.Prelude.{◌≡◌};
ghost use Rattle.std.proofs.Common.{rules};

use crate::{Accept, Conn, ConnFault, Dial, Served};
use cs_device::Failed;

impl<C: Conn> Conn for &mut C {
    ghost gone = { λ c. C.gone c.now };

    ghost left = { λ c. C.left c.now };

    ghost written = { λ c. C.written c.now };

    ghost faults = { λ c. C.faults c.now };

    ghost same = { λ s t. (s.ghost_name ≡ t.ghost_name) × C.same s.now t.now };

    fn read(&mut self, into: &mut [u8]) -> Result<usize, ConnFault> {
        (**self).read(into)
    }

    fn write(&mut self, bytes: &[u8]) -> Result<(), ConnFault> {
        (**self).write(bytes)
    }

    ghost same_now = { λ s. Prim.search rules };

    ghost same_then = { λ s t u a b. Prim.search rules };
}

impl<D: Dial> Dial for &mut D {
    type C = D::C;

    ghost faults = { λ d. D.faults d.now };

    ghost gives = { λ d c. D.gives d.now c };

    ghost same = { λ s t. (s.ghost_name ≡ t.ghost_name) × D.same s.now t.now };

    fn dial(&mut self) -> Result<D::C, Failed> {
        (**self).dial()
    }

    ghost same_now = { λ s. Prim.search rules };

    ghost same_then = { λ s t u a b. Prim.search rules };
}

impl<A: Accept> Accept for &mut A {
    type C = A::C;

    ghost out = { λ a. A.out a.now };

    ghost back = { λ a. A.back a.now };

    ghost faults = { λ a. A.faults a.now };

    ghost same = { λ s t. (s.ghost_name ≡ t.ghost_name) × A.same s.now t.now };

    fn accept(&mut self) -> Result<A::C, Failed> {
        (**self).accept()
    }

    fn done(&mut self, conn: A::C, served: Served) {
        (**self).done(conn, served)
    }

    ghost same_now = { λ s. Prim.search rules };

    ghost same_then = { λ s t u a b. Prim.search rules };
}
