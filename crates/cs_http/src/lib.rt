//! The bytes of READ calls over HTTP/1.1: requests, answers and refusals, both ways.
#![tactic(auto)]

mod answer;
mod body;
mod closing;
mod fault;
mod fields;
mod finding;
mod head;
mod laws;
mod line;
mod number;
mod parsing;
mod reading;
mod refusal;
mod request;
mod route;
mod target;
mod texts;
mod writing;

pub use answer::{answer_head, fault_bytes, refusal_bytes};
pub use body::refusal_body;
pub use closing::closing_line;
pub use fault::WireFault;
pub use head::{Front, HEAD_LIMIT, front_of};
pub use laws::{closing_lines_are_read, heads_stand_alone, requests_end};
pub use line::step_of;
pub use parsing::parse_request;
pub use reading::{REQUEST_LIMIT, Request};
pub use refusal::refusal_of;
pub use request::request_bytes;
pub use texts::{written_refusals_read_back, written_requests_read_back, written_steps_are_lines};
pub use writing::answer_line;
