//! A link to a far server: READ calls over HTTP/1.1, by the bytes of cs_http, over connections of
//! cs_connection.
#![tactic(auto)]

mod begin;
mod feed_dial;
mod lines;
mod link;

pub use feed_dial::FeedDial;
pub use link::WireLink;
