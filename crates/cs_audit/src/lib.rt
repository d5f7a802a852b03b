//! The audit of an output: its lines against the changes that are wanted.
#![tactic(auto)]

mod auditing;
mod conditions;
mod index;
mod laws;
mod seen;
mod verdict;

pub use auditing::audit;
pub use conditions::can_be_audited;
pub use laws::changes_of_one_database_have_own_lines;
pub use verdict::Verdict;
