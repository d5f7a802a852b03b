//! READs of a change stream over its index: what is refused, and the steps that answer.
#![tactic(auto)]

mod answer;
mod children;
mod content;
mod kept;
mod laws;
mod laying;
mod reading;
mod records;
mod spans;
mod steps;

pub use answer::{Answer, read};
pub use content::IndexedStream;
pub use kept::states_are_kept;
pub use laws::{reads_are_honest, streams_are_sound, typed_reads_are_honest};
pub use reading::Reading;
