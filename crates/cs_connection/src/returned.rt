use crate::{MemConn, Served};

/// A connection in memory that was given back, with the answer of its serving.
#[derive(Debug, Drop)]
pub struct Returned {
    /// The connection, as its serving left it.
    pub conn: MemConn,
    /// How its serving ended.
    pub served: Served,
}
