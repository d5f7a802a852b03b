ghost use Rattle.std.specs.Prelude.{◌≡◌};

use crate::{Dial, TcpConn};
use cs_device::Failed;
use cs_types::Text;
use std::io;
use std::net::{Net, TcpStream};

/// What makes TCP connections to one address. It tells nothing of them.
#[derive(Drop)]
pub struct TcpDial<R: Net<Stream = TcpStream>> {
    rt: R,
    address: Text,
    faults: u64,
}

impl<R: Net<Stream = TcpStream>> TcpDial<R> {
    /// A dialer that has not failed yet. The address is `HOST:PORT`, where the host is an IP address
    /// or a name; a name is looked up at each call. An address that is none fails at each call. It
    /// takes no memory.
    pub fn new(rt: R, address: Text) -> TcpDial<R>
        ensures { ⟦<TcpDial<R> as Dial>⟧.faults result ≡ 0 }
    {
        TcpDial {
            rt,
            address,
            faults: 0,
        }
    }

    /// Connects, and sets the time limits.
    fn connect(&self) -> io::Result<TcpConn> {
        TcpConn::new(TcpStream::connect(&self.rt, self.address.as_str())?)
    }
}

impl<R: Net<Stream = TcpStream>> Dial for TcpDial<R> {
    type C = TcpConn;

    ghost faults = { λ d. d.faults };

    ghost gives = { λ _ _. Unit {0} };

    ghost same = { λ _ _. Unit {0} };

    fn dial(&mut self) -> Result<TcpConn, Failed> {
        match self.connect() {
            Ok(conn) => Ok(conn),
            Err(_) => {
                self.faults = self.faults.saturating_add(1);
                Err(Failed)
            }
        }
    }

    ghost same_now = { λ _. tt };

    ghost same_then = { λ _ _ _ _ _. tt };
}
