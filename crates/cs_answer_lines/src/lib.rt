//! The lines that answer a READ: one for each of its steps.
#![tactic(auto)]

mod laws;
mod line;

pub use laws::{answers_can_stand, scripts_can_stand};
pub use line::step_line;
