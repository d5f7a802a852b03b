//! READ calls over the scripted database: what is refused, and the steps that answer.
#![tactic(auto)]

mod cursor;
mod fault;
mod index;
mod laws;
mod places;
mod query;
mod refusals;
mod steps;

pub use cursor::{Cursor, Span, StepPlace};
pub use fault::ReadFault;
pub use index::index_is_the_definition;
pub use laws::{
    captured_is_committed, refusals_are_right, steps_are_honest, steps_are_those_of_the_records,
    worked_answers,
};
pub use places::{RecordPlace, record};
pub use query::read_args;
pub use refusals::{part_refusal, refusal, time_refusal};
pub use steps::{Material, child_record, step};
