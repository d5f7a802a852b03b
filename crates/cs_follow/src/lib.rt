//! A follower of a stream: what is to be read next, READ by READ, and what becomes of its book.
#![tactic(auto)]

mod follow;
mod laws;
mod outcome;
mod turn;

pub use follow::follow_one;
pub use laws::ended_texts_are_complete;
pub use outcome::{Outcome, Pace};
