//! The generator: a realistic script of any number of commits, with splits and merges of
//! partitions between them. It is this project's own.
#![tactic(auto)]

mod commits;
mod reshapes;
mod script;
mod writes;

pub use script::{STREAM, is_size, script_text, window_end, window_start};
