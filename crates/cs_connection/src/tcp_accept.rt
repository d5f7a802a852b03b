ghost use Rattle.std.specs.Prelude.{◌≡◌, None, IfOk};

use crate::{Accept, Conn, Served, TcpConn};
use cs_device::Failed;
use std::io;
use std::net::{Net, SocketAddr, TcpListener, TcpStream};

/// What takes the TCP connections that others make to one address. It does not tell those that were
/// given back.
#[derive(Drop)]
pub struct TcpAccept {
    listener: TcpListener,
    address: SocketAddr,
    out: u64,
    faults: u64,
}

impl TcpAccept {
    /// An acceptor that has not failed yet and listens on this address, which is `HOST:PORT`; for
    /// port 0 the system picks one. It fails where the address is none, or cannot be had.
    pub fn bind<R>(rt: &R, address: &str) -> io::Result<TcpAccept>
    where
        R: Net<Listener = TcpListener, Stream = TcpStream>,
        ensures out { IfOk result (λ a. ⟦<TcpAccept as Accept>⟧.out a ≡ 0) }
        ensures faults { IfOk result (λ a. ⟦<TcpAccept as Accept>⟧.faults a ≡ 0) }
    {
        let listener = TcpListener::bind(rt, address)?;
        let address = listener.local_addr()?;
        Ok(TcpAccept {
            listener,
            address,
            out: 0,
            faults: 0,
        })
    }

    /// The address that it listens on, with the port that the system picked.
    pub fn address(&self) -> SocketAddr
        ensures { result ≡ self.now.address }
    {
        self.address
    }

    /// Takes the next connection, and sets its time limits.
    fn take(&self) -> io::Result<TcpConn>
        ensures { IfOk result (λ c. ⟦<TcpConn as Conn>⟧.faults c ≡ 0) }
    {
        let (stream, _) = self.listener.accept()?;
        TcpConn::new(stream)
    }
}

impl Accept for TcpAccept {
    type C = TcpConn;

    ghost out = { λ a. a.out };

    ghost back = { λ _. None };

    ghost faults = { λ a. a.faults };

    ghost same = { λ _ _. Unit {0} };

    /// Fails at an error of the system, and where 2^64 - 1 connections are out.
    fn accept(&mut self) -> Result<TcpConn, Failed> {
        if self.out < u64::MAX
            && let Ok(conn) = self.take()
        {
            self.out += 1;
            return Ok(conn);
        }
        self.faults = self.faults.saturating_add(1);
        Err(Failed)
    }

    /// Ends what was written, and drops the connection once the far end has ended too: it reads on
    /// until it has, a second passes in which nothing comes, or 65,536 bytes came.
    fn done(&mut self, conn: TcpConn, _served: Served) {
        conn.finish();
        self.out -= 1;
    }

    ghost same_now = { λ _. tt };

    ghost same_then = { λ _ _ _ _ _. tt };
}
