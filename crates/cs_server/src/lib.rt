//! The server of the scripted database: READs over its state, without bytes.
#![tactic(auto)]

mod going;
mod kept;
mod laws;
mod link;
mod opening;
mod places;

pub use laws::{answers_are_those_of_queries, feeds_are_told_by_name, server_links_are_honest};
pub use link::ServerLink;
