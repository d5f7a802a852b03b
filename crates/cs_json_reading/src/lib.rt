//! The lines of records, read: each JSON object as the record for which it stands.
#![tactic(auto)]

mod cells;
mod change;
mod children;
mod columns;
mod element;
mod fault;
mod form;
mod forms;
mod laws;
mod line;
mod missing;
mod text;
mod tree;

pub use laws::{line_readings_are_spellings, stamp_readings_are_spellings};
pub use line::{LINE_END, record_from_line};
