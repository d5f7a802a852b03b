//! The scripted database: what the lines of a script make, and why a line is refused.
#![tactic(auto)]

mod action;
mod borders;
mod cells;
mod combine;
mod commit;
mod fault;
mod finder;
mod laws;
mod line;
mod loading;
mod members;
mod reader;
mod reshape;
mod state;
mod statement;
mod texts;
mod writes;

pub use fault::{LineCause, ScriptFault};
pub use laws::{a_line_does_one_thing, a_script_makes_one_thing};
pub use loading::load;
pub use state::ServerState;
