//! Connections to a far end, what makes them and what takes them: in memory and over TCP.
//!
//! Each has a count of faults that never falls, and a call answers `Failed` only where it rose. What
//! an object tells of its bytes is optional: those in memory tell them, sockets do not.
#![tactic(auto)]

mod accept;
mod calls;
mod conn;
mod dial;
mod loans;
mod mem_accept;
mod mem_conn;
mod mem_dial;
mod queue;
mod returned;
mod tcp_accept;
mod tcp_conn;
mod tcp_dial;

pub use accept::Accept;
pub use conn::{Conn, ConnFault, Served};
pub use dial::Dial;
pub use mem_accept::MemAccept;
pub use mem_conn::MemConn;
pub use mem_dial::MemDial;
pub use returned::Returned;
pub use tcp_accept::TcpAccept;
pub use tcp_conn::TcpConn;
pub use tcp_dial::TcpDial;
