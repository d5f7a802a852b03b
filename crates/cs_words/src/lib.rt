//! The words of a command line: what they ask for, or the place of the first that no command has.
#![tactic(auto)]

mod command;
mod expected;
mod laws;
mod numbers;
mod options;
mod query;
mod reading;
mod window;

pub use command::{Command, ReplayOptions, WordsFault};
pub use expected::expected_at;
pub use laws::options_are_in_range;
pub use reading::read_words;
