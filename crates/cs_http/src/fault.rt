use cs_types::Memory;

/// Why the bytes of a request are refused. [`crate::parse_request`] says in which order the refusals
/// are tried; that and their numbers are this project's own.
#[derive(Clone, Copy, Debug, PartialEq, Eq)]
pub enum WireFault {
    /// 1: whatever bytes follow, these do not begin with the head of a request (RFC 9112, section 3),
    /// and they do not end inside of its target.
    Head,
    /// 2: more bytes are needed, and fewer than 65,536 are there.
    Partial,
    /// 3: the target is the route, and the method is not POST (RFC 9110, section 15.5.6).
    Method,
    /// 4: the target is not the route, `/v1/read` (RFC 9110, section 15.5.5).
    NotFound,
    /// 5: content-length is absent, stands twice, or is no number of 1 to 10 digits.
    Length,
    /// 6: transfer-encoding or content-encoding stands.
    Coding,
    /// 7: the request does not end within 65,536 bytes (RFC 9110, section 15.5.14).
    TooLong,
    /// 8: the body is not UTF-8.
    BadText,
    /// There was not enough memory. It has no number.
    Memory,
}

impl From<Memory> for WireFault {
    ghost use Rattle.std.specs.Prelude.{◌≡◌};
    ghost use Rattle.cs_http.specs.declared.fault.WireFault.TheVariants.{Memory as memory};

    ghost from_gives = { λ _ e. e ≡ memory };

    fn from(_: Memory) -> WireFault {
        WireFault::Memory
    }
}
