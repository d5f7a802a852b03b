//! One READ over any link, and the batch that it brings.
#![tactic(auto)]

mod children;
mod dated;
mod fault;
mod fetching;
mod judging;
mod kept;
mod laws;
mod listing;
mod making;
mod so_far;
mod taken;
mod taking;

pub use fault::FetchFault;
pub use laws::{
    always_grows, always_well_formed, honest_brings_on, honest_gives_faithful, honest_reaches,
    made_is_faithful,
};
pub use making::fetch;
