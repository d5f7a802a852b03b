//! A file that is made to hold a text again after a restart, whatever a crash or another hand left in it.
//!
//! The file is compared with the text in pieces. The longest front on which both agree stays as it is, what
//! stands behind it is cut off, what is missing is written, and all of it is synced.
#![tactic(auto)]

mod comparing;
mod fault;
mod replacing;
mod restoring;

pub use fault::RedoFault;
pub use restoring::redo;
