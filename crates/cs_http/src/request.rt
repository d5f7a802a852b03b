ghost use Rattle.std.specs.Prelude.{◌≡◌, ◌≤◌, ◌++◌, IfOk, OnOk, Ok, length, codes, decimal};
ghost use Rattle.cs_types.specs.Stamp.{IsStamp, stamp_text};
ghost use Rattle.cs_http.specs.Reading.{request_limit, IsReading};
ghost use Rattle.cs_http.specs.Request.{quoted, end_text, token_text, query_text, request_with, request_text, IsKeptEnd, IsKeptToken, IsKeptArgs};

use cs_link::ReadArgs;
use cs_types::{Items, Memory, Stamp, Token, moment_texts_are_plain};
use std::alloc::Global;

/// Puts bytes behind others.
pub(crate) fn put(out: &mut Vec<u8>, bytes: &[u8]) -> Result<(), Memory>
    ensures { OnOk result (out.new.items ≡ out.old.items ++ bytes.now) }
{
    Ok(out.extend_from_slice(bytes)?)
}

/// Puts the decimal text of a number behind other bytes.
pub(crate) fn put_number(alloc: Global, out: &mut Vec<u8>, number: u64) -> Result<(), Memory>
    ensures { OnOk result (out.new.items ≡ out.old.items ++ decimal number) }
{
    let text = format!(in alloc; "{number}")?;
    put(out, text.as_bytes())
}

/// Puts a moment behind other bytes, between quotes.
fn put_stamp(alloc: Global, out: &mut Vec<u8>, at: Stamp) -> Result<(), Memory>
    ensures kept { OnOk result (IsStamp at) }
    ensures bytes { OnOk result (out.new.items ≡ out.old.items ++ quoted (stamp_text at)) }
{
    let text = at.write(alloc)?;
    put(out, b"'")?;
    put(out, text.as_str().as_bytes())?;
    put(out, b"'")
}

fn put_end(alloc: Global, out: &mut Vec<u8>, end: Option<Stamp>) -> Result<(), Memory>
    ensures kept { OnOk result (IsKeptEnd end) }
    ensures bytes { OnOk result (out.new.items ≡ out.old.items ++ end_text end) }
{
    match end {
        None => put(out, b"NULL"),
        Some(at) => put_stamp(alloc, out, at),
    }
}

fn put_token(out: &mut Vec<u8>, token: &Option<Token>) -> Result<(), Memory>
    ensures kept { OnOk result (IsKeptToken token.now) }
    ensures bytes { OnOk result (out.new.items ≡ out.old.items ++ token_text token.now) }
{
    match token {
        None => put(out, b"NULL"),
        Some(token) => {
            put(out, b"'")?;
            put(out, token.bytes())?;
            put(out, b"'")
        }
    }
}

/// The query of a READ.
#[tactic(auto, unfolding(crate::specs::Request::query_text))]
fn query(alloc: Global, args: &ReadArgs) -> Result<Vec<u8>, Memory>
    ensures kept { OnOk result (IsKeptArgs args.now) }
    ensures text { IfOk result (λ q. q.items ≡ query_text args.now) }
{
    let mut out = Vec::new(alloc);
    put(&mut out, b"SELECT ChangeRecord FROM READ_")?;
    put(&mut out, args.stream.as_str().as_bytes())?;
    put(&mut out, b"(start_timestamp => ")?;
    put_stamp(alloc, &mut out, args.start)?;
    put(&mut out, b", end_timestamp => ")?;
    put_end(alloc, &mut out, args.end)?;
    put(&mut out, b", partition_token => ")?;
    put_token(&mut out, &args.token)?;
    put(&mut out, b", heartbeat_milliseconds => ")?;
    put_number(alloc, &mut out, u64::from(args.heartbeat_ms))?;
    put(&mut out, b")")?;
    Ok(out)
}

/// The bytes of the request of a READ (RFC 9112, section 3): `POST /v1/read`, and as its body the
/// query, without a line end. A request of at most [`crate::REQUEST_LIMIT`] bytes is read again, by
/// [`crate::parse_request`], as its query.
pub fn request_bytes(alloc: Global, args: &ReadArgs) -> Result<Items<u8>, Memory>
    ensures text { IfOk result (λ bytes. bytes ≡ request_text args.now) }
    ensures reads { IfOk result (λ bytes. length bytes ≤ request_limit → IsReading bytes (Ok (query_text args.now))) }
{
    moment_texts_are_plain();
    request(alloc, args)
}

#[tactic(auto, unfolding(crate::specs::Request::request_with))]
fn request(alloc: Global, args: &ReadArgs) -> Result<Items<u8>, Memory>
    ensures kept { OnOk result (IsKeptArgs args.now) }
    ensures text { IfOk result (λ bytes. bytes ≡ request_text args.now) }
{
    let body = query(alloc, args)?;
    let mut out = Vec::new(alloc);
    put(
        &mut out,
        b"POST /v1/read HTTP/1.1\r\nhost: spanstream\r\ncontent-type: application/sql\r\ncontent-length: ",
    )?;
    put_number(alloc, &mut out, body.len() as u64)?;
    put(&mut out, b"\r\n\r\n")?;
    put(&mut out, &body)?;
    Ok(Items::from_vec(out))
}
