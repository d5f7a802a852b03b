//! The server of the scripted database: the bytes of requests, answered over connections.
#![tactic(auto)]

mod accepting;
mod answering;
mod incoming;
mod look;
mod parsed;
mod refusing;
mod sending;
mod serving;
mod taken;
mod unasked;

pub use accepting::{ServeEnd, serve};
pub use serving::serve_one;
