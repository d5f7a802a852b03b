//! Places of rows, and the parts that a stream's places are divided into over time.
#![tactic(auto)]

mod laws;
mod part;
mod place;

pub use laws::{places_are_apart, places_in_order, table_below_its_rows, tokens_name_parts};
pub use part::{Part, Range};
pub use place::{Place, place_of, table_place};
