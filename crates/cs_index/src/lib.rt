//! The index of a change stream: where its captured changes and its data records stand.
#![tactic(auto)]

mod alike;
mod line;
mod making;
mod touched;
mod types;
mod walk;

pub use making::stream_index;
pub use types::{PartIndex, StreamIndex};
