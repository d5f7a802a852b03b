ghost use Rattle.std.specs.Prelude.{◌≡◌, ◌++◌, IfOk, MatchOption, None, Some};
ghost use Rattle.cs_http.specs.Refusal.{answer_head_text, reason_text, refusal_text, fault_text};

use crate::WireFault;
use crate::request::{put, put_number};
use cs_types::{Items, Memory, Text};
use std::alloc::Global;

const HEAD: &[u8] =
    b"HTTP/1.1 400 Bad Request\r\ncontent-type: application/json\r\nconnection: close\r\n\r\n{\"refusal\":\"Head\"}\n";

const METHOD: &[u8] =
    b"HTTP/1.1 405 Method Not Allowed\r\ncontent-type: application/json\r\nconnection: close\r\n\r\n{\"refusal\":\"Method\"}\n";

const NOT_FOUND: &[u8] =
    b"HTTP/1.1 404 Not Found\r\ncontent-type: application/json\r\nconnection: close\r\n\r\n{\"refusal\":\"NotFound\"}\n";

const LENGTH: &[u8] =
    b"HTTP/1.1 400 Bad Request\r\ncontent-type: application/json\r\nconnection: close\r\n\r\n{\"refusal\":\"Length\"}\n";

const CODING: &[u8] =
    b"HTTP/1.1 400 Bad Request\r\ncontent-type: application/json\r\nconnection: close\r\n\r\n{\"refusal\":\"Coding\"}\n";

const TOO_LONG: &[u8] =
    b"HTTP/1.1 413 Payload Too Large\r\ncontent-type: application/json\r\nconnection: close\r\n\r\n{\"refusal\":\"TooLong\"}\n";

const BAD_TEXT: &[u8] =
    b"HTTP/1.1 400 Bad Request\r\ncontent-type: application/json\r\nconnection: close\r\n\r\n{\"refusal\":\"BadText\"}\n";

const MEMORY: &[u8] =
    b"HTTP/1.1 503 Service Unavailable\r\ncontent-type: application/json\r\nconnection: close\r\n\r\n{\"refusal\":\"Memory\"}\n";

/// The head before the lines of an answer (RFC 9112, section 4). The lines end where the connection
/// does.
pub fn answer_head() -> &'static [u8]
    ensures { result.now ≡ answer_head_text }
{
    b"HTTP/1.1 200 OK\r\ncontent-type: application/x-ndjson\r\nconnection: close\r\n\r\n"
}

/// The words behind a status of a refusal; none for a status that no refusal has.
fn reason(status: u16) -> &'static [u8]
    ensures { result.now ≡ reason_text status }
{
    if status == 400 {
        return b"Bad Request";
    }
    if status == 404 {
        return b"Not Found";
    }
    if status == 405 {
        return b"Method Not Allowed";
    }
    if status == 413 {
        return b"Payload Too Large";
    }
    if status == 503 {
        return b"Service Unavailable";
    }
    b""
}

/// The bytes of a refusal: its head (RFC 9112, section 4), its body and a line end. The statuses of
/// refusals are 400, 404, 405, 413 and 503; another stands without words.
#[tactic(auto, unfolding(crate::specs::Refusal::refusal_text))]
pub fn refusal_bytes(alloc: Global, status: u16, body: &Text) -> Result<Items<u8>, Memory>
    ensures { IfOk result (λ bytes. bytes ≡ refusal_text status body.now) }
{
    let mut out = Vec::new(alloc);
    put(&mut out, b"HTTP/1.1 ")?;
    put_number(alloc, &mut out, u64::from(status))?;
    put(&mut out, b" ")?;
    put(&mut out, reason(status))?;
    put(
        &mut out,
        b"\r\ncontent-type: application/json\r\nconnection: close\r\n\r\n",
    )?;
    put(&mut out, body.as_str().as_bytes())?;
    put(&mut out, b"\n")?;
    Ok(Items::from_vec(out))
}

/// The bytes that answer a request which [`crate::parse_request`] refuses. `Partial`, which more
/// bytes may mend, has none. They take no memory.
pub fn fault_bytes(fault: WireFault) -> Option<&'static [u8]>
    ensures { MatchOption result (fault_text fault ≡ None) (λ bytes. fault_text fault ≡ Some bytes.now) }
{
    match fault {
        WireFault::Partial => None,
        WireFault::Head => Some(HEAD),
        WireFault::Method => Some(METHOD),
        WireFault::NotFound => Some(NOT_FOUND),
        WireFault::Length => Some(LENGTH),
        WireFault::Coding => Some(CODING),
        WireFault::TooLong => Some(TOO_LONG),
        WireFault::BadText => Some(BAD_TEXT),
        WireFault::Memory => Some(MEMORY),
    }
}
