ghost use Rattle.std.specs.Prelude.{◌≡◌, ◌≤◌, None, IfOk, IfErr};
ghost use Rattle.std.specs.Io.{ReadsAtMost};
ghost use Rattle.cs_device.specs.Causes.{Rose};
ghost use Rattle.cs_connection.specs.Conn.{HasConnCause};

use crate::{Conn, ConnFault};
use cs_device::Failed;
use std::io;
use std::io::{ErrorKind, Read, Write};
use std::net::{Shutdown, TcpStream};
use std::time::Duration;

/// How many seconds a read or a write waits for the far end. One that waits longer has failed.
const WAIT_SECONDS: u64 = 30;

/// How many seconds a read waits for the far end once the connection is served.
const LAST_WAIT_SECONDS: u64 = 1;

/// How many bytes are read and dropped at most once the connection is served.
const DROPPED_BYTES: usize = 65_536;

/// A TCP connection, whose bytes it does not tell. Its calls take no memory. A read or a write that
/// waits for the far end for 30 seconds fails, and a read or a write that a signal interrupts goes on.
#[derive(Drop)]
pub struct TcpConn {
    stream: TcpStream,
    faults: u64,
}

impl TcpConn {
    /// A connection that has not failed yet, with its time limits.
    pub(crate) fn new(stream: TcpStream) -> io::Result<TcpConn>
        ensures { IfOk result (λ c. c.faults ≡ 0) }
    {
        stream.set_read_timeout(Some(Duration::from_secs(WAIT_SECONDS)))?;
        stream.set_write_timeout(Some(Duration::from_secs(WAIT_SECONDS)))?;
        Ok(TcpConn { stream, faults: 0 })
    }

    /// Counts a call that failed.
    fn fail(&mut self) -> ConnFault
        ensures fault { result ≡ ConnFault.Failed }
        ensures later { self.old.faults ≤ self.new.faults }
        ensures rose { Rose self.old.faults self.new.faults }
    {
        self.faults = self.faults.saturating_add(1);
        ConnFault::Failed
    }

    /// Ends what was written, and reads and drops what the far end still sends: to its end, an error
    /// or 65,536 bytes, each read within a second. A socket that is closed with unread bytes is reset,
    /// and the far end may then lose what was written last.
    pub(crate) fn finish(mut self) {
        let _ = self.stream.shutdown(Shutdown::Write);
        let _ = self
            .stream
            .set_read_timeout(Some(Duration::from_secs(LAST_WAIT_SECONDS)));
        drop_rest(&mut self.stream);
    }
}

/// Reads and drops, to the end, an error or 65,536 bytes.
fn drop_rest(stream: &mut TcpStream) {
    let mut piece = [0; 4096];
    let mut left = DROPPED_BYTES;
    'pieces: while left > 0 {
        let most = left.min(piece.len());
        let Ok(count) = read_retrying(stream, &mut piece[..most]) else {
            return;
        };
        if count == 0 {
            return;
        }
        left -= count;
    }
}

/// One read, made again where a signal interrupts it.
fn read_retrying(stream: &mut TcpStream, into: &mut [u8]) -> Result<usize, Failed>
    ensures { ReadsAtMost result into.new }
{
    for _ in 0..u64::MAX {
        match stream.read(into) {
            Ok(count) => return Ok(count),
            Err(error) if error.kind() == ErrorKind::Interrupted => {}
            Err(_) => return Err(Failed),
        }
    }
    Err(Failed)
}

impl Conn for TcpConn {
    ghost gone = { λ _. None };

    ghost left = { λ _. None };

    ghost written = { λ _. None };

    ghost faults = { λ c. c.faults };

    ghost same = { λ _ _. Unit {0} };

    fn read(&mut self, into: &mut [u8]) -> Result<usize, ConnFault>
        ensures bound { ReadsAtMost result into.new }
        ensures cause { HasConnCause self.old.faults self.new.faults result }
        ensures failed { IfErr result (λ fault. fault ≡ ConnFault.Failed) }
    {
        match read_retrying(&mut self.stream, into) {
            Ok(count) => Ok(count),
            Err(Failed) => Err(self.fail()),
        }
    }

    fn write(&mut self, bytes: &[u8]) -> Result<(), ConnFault>
        ensures cause { HasConnCause self.old.faults self.new.faults result }
        ensures failed { IfErr result (λ fault. fault ≡ ConnFault.Failed) }
    {
        match self.stream.write_all(bytes) {
            Ok(()) => Ok(()),
            Err(_) => Err(self.fail()),
        }
    }

    ghost same_now = { λ _. tt };

    ghost same_then = { λ _ _ _ _ _. tt };
}
