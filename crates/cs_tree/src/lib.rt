//! A line of JSON as a tree whose texts are those of the line. It stands for what `serde_json`
//! reads, and takes no memory for a text.
#![tactic(auto)]

mod entries;
mod fault;
mod form;
mod number;
mod order;
mod read;
mod tree;

pub use entries::{Entries, Entry};
pub use fault::TreeFault;
pub use read::tree_of;
pub use tree::{Members, Tree, member};
