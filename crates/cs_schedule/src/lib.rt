//! Entries of the journal and the board that they make: what of a stream was read, and what may be
//! read next.
#![tactic(auto)]

mod board;
mod codec;
mod cursor;
mod entry;
mod fold;
mod follow;
mod growing;
mod index;
mod judge;
mod known;
mod list;
mod opening;
mod plan;
mod planned;
mod put;
mod reading;
mod ready;
mod row;
mod search;
mod size;
mod slots;
mod sound;
mod theory;
mod turn;
mod update;
mod watermark;
mod writing;

pub use board::Board;
pub use entry::Entry;
pub use fold::FoldFault;
pub use growing::{
    boards_are_of_entries, boards_stay_consistent, leases_are_no_entries, payloads_differ,
};
pub use plan::PlanFault;
pub use planned::Plan;
pub use row::Row;
pub use theory::{
    consistent_journals_are_good, journals_stay_consistent, right_steps_are_good, rows_stay_right,
};
