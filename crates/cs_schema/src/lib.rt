//! The catalog: the tables and the change streams that the statements of a script make.
#![tactic(auto)]

mod catalog;
mod fault;
mod laws;
mod lengths;
mod making;
mod names;
mod options;
mod setting;
mod streaming;
mod tables;
mod types;
mod watch_list;
mod watching;

pub use catalog::Catalog;
pub use cs_types::Names;
pub use fault::SchemaFault;
pub use laws::{retentions_are_read, tables_are_found};
pub use tables::Tables;
pub use types::{Column, Stream, Table, Watch, Watched};
pub use watch_list::WatchList;
