//! What a change stream tells of a change, beside the change itself.
#![tactic(auto)]

mod captured;
mod changes;
mod faults;
mod grouping;
mod keys;
mod laws;
mod records;
mod weight;

pub use captured::{Captured, ColumnInfo};
pub use changes::changes_of;
pub use faults::{LineFault, RecordFault};
pub use grouping::{group, mod_of};
pub use laws::runs_are_told;
pub use records::{Child, ChildRecord, DataRecord, Mod, Record};
