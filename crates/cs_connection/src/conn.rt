ghost use Rattle.std.specs.Prelude.{◌≡◌, ℕ, List, Option, OnOk, OnErr};
ghost use Rattle.std.specs.Io.{ReadsAtMost};
ghost use Rattle.std.specs.Io.KnownBytes.{ReadConsumes, Appends, Keeps};
ghost use Rattle.cs_device.specs.Sink.{TakesFront};

/// Why a call of a connection gave nothing.
#[derive(Clone, Copy, Debug, PartialEq, Eq)]
pub enum ConnFault {
    /// The call failed. The connection's count of faults rose.
    Failed,
    /// There was not enough memory. It raises no count.
    Memory,
}

/// How the serving of a connection ended.
#[derive(Clone, Copy, Debug, PartialEq, Eq)]
pub enum Served {
    /// The answer to its request was written.
    Answered,
    /// A read failed. The connection's count of faults rose.
    ReadFault,
    /// A write failed. The connection's count of faults rose.
    WriteFault,
    /// Its bytes ended inside of the request, or there were none.
    RequestCut,
    /// The request does not end within the bytes that one may have.
    RequestTooLong,
    /// There was not enough memory.
    Memory,
}

/// Two ends that are joined: bytes are read from the far one and written to it.
pub trait Conn {
    ghost use Rattle.cs_connection.specs.Conn.{HasConnCause, ReadGrows, StaysTold};

    /// The bytes that were read, where the connection tells them.
    ghost gone: { Self → Option (List ℕ) };

    /// The bytes that are still to be read, where the connection tells them.
    ghost left: { Self → Option (List ℕ) };

    /// The bytes that were written, where the connection tells them.
    ghost written: { Self → Option (List ℕ) };

    /// How often it has failed. It never falls.
    ghost faults: { Self → ℕ };

    /// The same object, later: where it is a loan, the same loan.
    ghost same: { Self → Self → Type 0 };

    /// Reads bytes into the front of the piece, and answers how many: 0 for a piece that is not
    /// empty is the end. Behind them the piece may hold any bytes. After a fault none was read, and
    /// then the whole piece may hold any bytes. What was written stays.
    fn read(&mut self, into: &mut [u8]) -> Result<usize, ConnFault>
        ensures bound { ReadsAtMost result into.new }
        ensures gone { ReadGrows (gone self.old) (gone self.new) result into.new }
        ensures left { ReadConsumes (left self.old) (left self.new) result into.new }
        ensures written { Keeps (written self.old) (written self.new) }
        ensures object { same self.old self.new }
        ensures cause { HasConnCause (faults self.old) (faults self.new) result };

    /// Takes all of the bytes, or answers a fault. After a fault what was written before stands, and
    /// behind it may stand a front of the bytes. What was read stays; what is still to be read may
    /// become another.
    fn write(&mut self, bytes: &[u8]) -> Result<(), ConnFault>
        ensures written { OnOk result (Appends (written self.old) (written self.new) bytes.now) }
        ensures torn { OnErr result (TakesFront (written self.old) (written self.new) bytes.now) }
        ensures gone { Keeps (gone self.old) (gone self.new) }
        ensures left { StaysTold (left self.old) (left self.new) }
        ensures object { same self.old self.new }
        ensures cause { HasConnCause (faults self.old) (faults self.new) result };

    ghost same_now: { (s : Self) → same s s };

    ghost same_then: { (s t u : Self) → same s t → same t u → same s u };
}
