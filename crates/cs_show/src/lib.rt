//! What a query shows: the lines of the steps that answer it, written as they are made.
#![tactic(auto)]

mod shown;

pub use shown::{ShowFault, Shown};
