//! The room of a follower's journal: how many bytes it needs at most until all of its window stands
//! there, and the moment from which on it still reads.
#![tactic(auto)]

mod theory;

pub use theory::{entries_are_carried, reads_start_at_low, room_is_enough, something_is_planned};
