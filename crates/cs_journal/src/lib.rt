//! A journal of payloads on a disk: each is there whole from the moment that `put` answers, or not at all.
//!
//! The file is a row of gates and entries. A payload counts where the gate in front of it is open, and a
//! gate is opened by a write of its own, once what stands behind it is durable.
#![tactic(auto)]

mod device;
mod fault;
mod framed;
mod journal;
mod laws;
mod read;
mod window;

pub use fault::JournalFault;
pub use framed::{Framed, frame};
pub use journal::{Journal, Stored};
pub use laws::{a_broken_gate_has_no_whole_entry, payloads_are_those_of_the_entries};
