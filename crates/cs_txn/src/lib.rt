//! Transactions and the history that they make.
#![tactic(auto)]

mod columns;
mod fault;
mod finding;
mod free;
mod history;
mod laws;
mod left;
mod lengths;
mod lookup;
mod refusals;
mod row_key;
mod rows;
mod sizes;
mod test;
mod txn;
mod writes;

pub use fault::TxnFault;
pub use history::History;
pub use laws::{
    a_transaction_has_one_stamp_and_tag, what_fits_is_of_one_database, what_fits_lasts,
};
pub use txn::{Modification, Txn, Write};
