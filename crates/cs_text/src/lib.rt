//! The text of an output, of the entries of a journal.
#![tactic(auto)]

mod laws;
mod telling;
mod text;

pub use laws::{consistent_texts_are_good, texts_are_by_entries};
pub use telling::{Telling, added_text, tell_on};
pub use text::text_of;
