ghost use Rattle.std.specs.Prelude.{◌≡◌, ◌≤◌, ◌<◌, length, IfSome, IfOk};
ghost use Rattle.cs_serve.specs.Reading.{IsParsed};

use crate::unasked::Unasked;
use cs_http::{Request, WireFault, parse_request};
use std::alloc::Global;

/// The request that bytes are; None where more bytes are needed.
pub(crate) fn parsed(alloc: Global, bytes: &[u8]) -> Result<Option<Request>, Unasked>
    requires { length bytes.now ≤ 65536 }
    ensures { IsParsed bytes.now result }
{
    match parse_request(alloc, bytes) {
        Ok(request) => Ok(Some(request)),
        Err(WireFault::Partial) => Ok(None),
        Err(WireFault::TooLong) => Err(Unasked::TooLong),
        Err(WireFault::Memory) => Err(Unasked::Memory),
        Err(WireFault::Head) => Err(Unasked::Refused(WireFault::Head)),
        Err(WireFault::Method) => Err(Unasked::Refused(WireFault::Method)),
        Err(WireFault::NotFound) => Err(Unasked::Refused(WireFault::NotFound)),
        Err(WireFault::Length) => Err(Unasked::Refused(WireFault::Length)),
        Err(WireFault::Coding) => Err(Unasked::Refused(WireFault::Coding)),
        Err(WireFault::BadText) => Err(Unasked::Refused(WireFault::BadText)),
    }
}
