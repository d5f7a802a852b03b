ghost use Rattle.std.specs.Prelude.{◌≡◌, ◌≢◌, ℕ, List, Result, Ok, Err, MatchResult, IsUtf8};
ghost use Rattle.httparse.specs.Grammar.{NeverHasRequest};
ghost use Rattle.httparse.specs.Spans.{span_bytes, IsRequestWithin, IsRequestOf};
ghost use Rattle.cs_http.specs.Reading.{IsReading};
ghost use Rattle.cs_http.specs.Span.{spans_reading};
ghost use Rattle.cs_http.specs.declared.fault.WireFault.{WireFault, WireFault as faults};

use crate::WireFault;
use crate::fields::room_for;
use crate::finding::content_length;
use crate::reading::{REQUEST_LIMIT, Request, body_of, unfinished};
use crate::route::{is_post, is_route};
use crate::target::ends_in_target;
use httparse::Status;
use httparse::spans::{HeaderSpan, RequestSpans};
use std::alloc::Global;

/// What is asked by a head and the bytes behind it.
fn asked(
    alloc: Global,
    bytes: &[u8],
    headers: &[HeaderSpan],
    head: &RequestSpans,
) -> Result<Request, WireFault>
    requires within { IsRequestWithin bytes.now headers.now head.now }
    requires target { IsUtf8 (span_bytes bytes.now head.now.path) }
    ensures { MatchResult result (λ q. spans_reading bytes.now headers.now head.now ≡ Ok q.body) (λ e. e ≢ faults.Memory → spans_reading bytes.now headers.now head.now ≡ Err e) }
{
    let fields = &headers[..head.headers];
    let rest = &bytes[head.len..];
    let size = content_length(bytes, fields);
    let wanted = size.unwrap_or(0);
    if (rest.len() as u64) < wanted {
        return Err(unfinished(head.len + rest.len()));
    }
    if head.len as u64 + wanted > REQUEST_LIMIT as u64 {
        return Err(WireFault::TooLong);
    }
    let Ok(target) = str::from_utf8(head.path.of(bytes)) else {
        unreachable!()
    };
    let Ok(served) = is_route(alloc, target) else {
        return Err(WireFault::Memory);
    };
    if !served {
        return Err(WireFault::NotFound);
    }
    let Ok(posted) = is_post(alloc, head.method.of(bytes)) else {
        return Err(WireFault::Memory);
    };
    if !posted {
        return Err(WireFault::Method);
    }
    body_of(alloc, bytes, fields, size, rest)
}

/// What is asked by bytes with a head at the front.
fn read_head(
    alloc: Global,
    bytes: &[u8],
    headers: &[HeaderSpan],
    head: &RequestSpans,
) -> Result<Request, WireFault>
    requires within { IsRequestWithin bytes.now headers.now head.now }
    requires of { IsRequestOf bytes.now headers.now head.now }
    ensures { MatchResult result (λ q. IsReading bytes.now (Ok q.body)) (λ e. e ≢ faults.Memory → IsReading bytes.now (Err e)) }
{
    asked(alloc, bytes, headers, head)
}

/// The refusal of bytes that never become the head of a request: they may end inside of a target
/// that is no text.
fn headless(bytes: &[u8]) -> WireFault
    requires { NeverHasRequest bytes.now }
    ensures { IsReading bytes.now (Err result) }
{
    if ends_in_target(bytes) {
        return unfinished(bytes.len());
    }
    WireFault::Head
}

/// Reads what stands at the front of the bytes.
fn read_request(alloc: Global, bytes: &[u8]) -> Result<Request, WireFault>
    ensures { MatchResult result (λ q. IsReading bytes.now (Ok q.body)) (λ e. e ≢ faults.Memory → IsReading bytes.now (Err e)) }
{
    let Ok(mut headers) = room_for(alloc, bytes.len()) else {
        return Err(WireFault::Memory);
    };
    match httparse::spans::parse_request(bytes, &mut headers) {
        Ok(Status::Complete(head)) => read_head(alloc, bytes, &headers, &head),
        Ok(Status::Partial) => Err(unfinished(bytes.len())),
        Err(httparse::Error::TooManyHeaders) => unreachable!(),
        Err(_) => Err(headless(bytes)),
    }
}

/// Reads a request from the front of the bytes: a head of HTTP/1.0 or 1.1 (RFC 9112, sections 2 to
/// 5), whose lines may end in LF alone and before which empty lines may stand, with any number of
/// fields, and a body of as many bytes as its `content-length` says (RFC 9112, section 6.2). Bytes
/// behind the body are not read. The one route is `POST /v1/read`, where the target is compared
/// byte for byte and the names of fields in any case (RFC 9110, section 5.1).
///
/// A request is refused by the first of these faults that it has, an order of this project's own:
/// - `Head`: whatever bytes follow, these do not begin with the head of a request, and they do not
///   end inside of its target.
/// - `Partial`: more bytes are needed, and fewer than [`REQUEST_LIMIT`] are there. A request
///   without one readable `content-length` ends with its head.
/// - `TooLong`: the request does not end within [`REQUEST_LIMIT`] bytes.
/// - `NotFound`: the target is not `/v1/read`.
/// - `Method`: the target is, and the method is not POST.
/// - `Length`: `content-length` is absent, stands twice, or is no number of 1 to 10 digits.
/// - `Coding`: `transfer-encoding` or `content-encoding` stands.
/// - `BadText`: the body is not UTF-8.
///
/// It takes time and memory in the size of the bytes.
pub fn parse_request(alloc: Global, bytes: &[u8]) -> Result<Request, WireFault>
    ensures reading { MatchResult result (λ q. IsReading bytes.now (Ok q.body)) (λ e. e ≢ faults.Memory → IsReading bytes.now (Err e)) }
    ensures all { (r : Result (List ℕ) WireFault) → IsReading bytes.now r → MatchResult result (λ q. r ≡ Ok q.body) (λ e. e ≢ faults.Memory → r ≡ Err e) }
    ensures one { (a b : Result (List ℕ) WireFault) → IsReading bytes.now a → IsReading bytes.now b → a ≡ b }
{
    read_request(alloc, bytes)
}
