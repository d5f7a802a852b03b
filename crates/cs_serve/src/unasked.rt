use cs_http::WireFault;

/// Why no request was read from a connection.
#[derive(Clone, Copy, Debug, PartialEq, Eq)]
pub(crate) enum Unasked {
    /// The bytes read are refused, and the refusal is to be answered.
    Refused(WireFault),
    /// The bytes ended inside of the request, or there were none.
    Cut,
    /// The request does not end within the bytes that one may have.
    TooLong,
    /// A read failed. The connection's count of faults rose.
    Failed,
    /// There was not enough memory.
    Memory,
}
