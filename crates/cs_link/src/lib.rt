//! READ calls: what is asked, what may be answered, what an honest server answers, and what a batch
//! of a READ is.
#![tactic(auto)]

mod batch;
mod breach;
mod feed;
mod link;
mod mem_read;
mod memory;
mod reading;
mod refusal;

pub use batch::{Batch, Ending, Known, Limits, NewChild, Seen};
pub use breach::Breach;
pub use feed::Feed;
pub use link::Link;
pub use mem_read::MemRead;
pub use memory::MemLink;
pub use reading::{Closing, ReadArgs, Step};
pub use refusal::{LinkAnswer, ReadRefusal};
