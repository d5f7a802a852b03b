ghost use Rattle.std.specs.Prelude.{◌≡◌, ◌≢◌, ◌≤◌, Some, ℕ, length, map, All, MatchResult, Ok, Err};
ghost use Rattle.httparse.specs.Spans.{header_bytes, IsHeaderWithin};
ghost use Rattle.cs_http.specs.Reading.{unfinished, text_reading, body_reading};
ghost use Rattle.cs_http.specs.declared.fault.WireFault.{WireFault as faults};

use crate::WireFault;
use crate::finding::is_coded;
use cs_types::Text;
use httparse::spans::HeaderSpan;
use std::alloc::Global;

/// The most bytes that a request may have.
pub const REQUEST_LIMIT: usize = 65_536;

/// What a request asks.
#[derive(Debug, Drop)]
pub struct Request {
    /// The text of its body.
    pub body: Text,
}

/// The refusal of a request that does not end within so many bytes.
pub(crate) fn unfinished(size: usize) -> WireFault
    ensures { result ≡ unfinished size }
{
    if size < REQUEST_LIMIT {
        return WireFault::Partial;
    }
    WireFault::TooLong
}

#[tactic(auto, using(crate::proofs::Asking::no_text, crate::proofs::Asking::text))]
fn text_of(alloc: Global, body: &[u8]) -> Result<Request, WireFault>
    ensures { MatchResult result (λ q. text_reading body.now ≡ Ok q.body) (λ e. e ≢ faults.Memory → text_reading body.now ≡ Err e) }
{
    match str::from_utf8(body) {
        Ok(text) => Ok(Request {
            body: Text::of(alloc, text)?,
        }),
        Err(_) => Err(WireFault::BadText),
    }
}

pub(crate) fn body_of(
    alloc: Global,
    bytes: &[u8],
    fields: &[HeaderSpan],
    size: Option<u64>,
    rest: &[u8],
) -> Result<Request, WireFault>
    requires fields { All (IsHeaderWithin (length bytes.now)) fields.now }
    requires there { (n : ℕ) → size ≡ Some n → n ≤ length rest.now }
    ensures { MatchResult result (λ q. body_reading (map (header_bytes bytes.now) fields.now) size rest.now ≡ Ok q.body) (λ e. e ≢ faults.Memory → body_reading (map (header_bytes bytes.now) fields.now) size rest.now ≡ Err e) }
{
    let Some(size) = size else {
        return Err(WireFault::Length);
    };
    if is_coded(bytes, fields) {
        return Err(WireFault::Coding);
    }
    text_of(alloc, &rest[..size as usize])
}
