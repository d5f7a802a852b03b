//! The lines of records: JSON objects, both ways.
#![tactic(auto)]

mod laws;
mod writing;
mod written_change;
mod written_texts;

pub use cs_json_reading::{
    LINE_END, line_readings_are_spellings, record_from_line, stamp_readings_are_spellings,
};
pub use writing::record_to_line;
