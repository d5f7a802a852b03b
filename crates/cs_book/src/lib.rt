//! The book of a run: a journal of entries, the board of their rows, and the output that tells them.
#![tactic(auto)]

mod adding;
mod book;
mod claim;
mod committing;
mod fault;
mod format;
mod found;
mod keeping;
mod lease;
mod leasing;
mod opening;
mod planning;
mod reading;
mod rows;
mod waiting;
mod writing;

pub use adding::BookPlan;
pub use book::Book;
pub use claim::Claim;
pub use fault::{CommitFault, OpenFault, ReserveFault};
pub use lease::Lease;
