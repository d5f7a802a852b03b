ghost use Rattle.std.specs.Prelude.{◌≡◌, [], OnOk, IfOk};
ghost use Rattle.std.specs.Option.{unwrap_or};
ghost use Rattle.std.specs.Io.KnownBytes.{Appends, Keeps};
ghost use Rattle.cs_http.specs.Refusal.{refusal_text};
ghost use Rattle.cs_http.specs.RefusalLine.{body_text};
ghost use Rattle.cs_connection.specs.Conn.{HasConnCause};
ghost use Rattle.cs_serve.specs.Serving.{HasFaultCause};
ghost use Rattle.cs_serve.specs.Answer.{fault_status, fault_body, fault_answer, refusal_answer};

use cs_connection::{Conn, ConnFault};
use cs_http::{WireFault, refusal_body, refusal_bytes};
use cs_link::ReadRefusal;
use cs_types::{Memory, Text};
use std::alloc::Global;

/// The answer where memory is wanting before a head was written. It is there without memory.
const NO_MEMORY: &[u8] =
    b"HTTP/1.1 503 Service Unavailable\r\ncontent-type: application/json\r\nconnection: close\r\n\r\n{\"refusal\":\"Memory\"}\n";

/// The status of the answer to bytes that are refused.
fn fault_status(fault: WireFault) -> u16
    ensures { result ≡ fault_status fault }
{
    match fault {
        WireFault::Head => 400,
        WireFault::Partial => 400,
        WireFault::Method => 405,
        WireFault::NotFound => 404,
        WireFault::Length => 400,
        WireFault::Coding => 400,
        WireFault::TooLong => 413,
        WireFault::BadText => 400,
        WireFault::Memory => 503,
    }
}

/// The body of the answer to bytes that are refused.
fn fault_body(fault: WireFault) -> &'static str
    ensures { result.now ≡ fault_body fault }
{
    match fault {
        WireFault::Head => "{\"refusal\":\"Head\"}",
        WireFault::Partial => "{\"refusal\":\"Partial\"}",
        WireFault::Method => "{\"refusal\":\"Method\"}",
        WireFault::NotFound => "{\"refusal\":\"NotFound\"}",
        WireFault::Length => "{\"refusal\":\"Length\"}",
        WireFault::Coding => "{\"refusal\":\"Coding\"}",
        WireFault::TooLong => "{\"refusal\":\"TooLong\"}",
        WireFault::BadText => "{\"refusal\":\"BadText\"}",
        WireFault::Memory => "{\"refusal\":\"Memory\"}",
    }
}

/// Writes that memory is wanting, and answers so, or that the write failed.
pub(crate) fn want<C: Conn>(conn: &mut C) -> ConnFault
    ensures gone { Keeps (C.gone conn.old) (C.gone conn.new) }
    ensures object { C.same conn.old conn.new }
    ensures cause { HasFaultCause (C.faults conn.old) (C.faults conn.new) result }
{
    match conn.write(NO_MEMORY) {
        Ok(()) => ConnFault::Memory,
        Err(fault) => fault,
    }
}

/// Writes the answer to bytes that are refused.
pub(crate) fn refuse_bytes<C: Conn>(
    alloc: Global,
    fault: WireFault,
    conn: &mut C,
) -> Result<(), ConnFault>
    ensures written { OnOk result (Appends (C.written conn.old) (C.written conn.new) (fault_answer fault)) }
    ensures gone { Keeps (C.gone conn.old) (C.gone conn.new) }
    ensures object { C.same conn.old conn.new }
    ensures cause { HasConnCause (C.faults conn.old) (C.faults conn.new) result }
{
    let Ok(body) = Text::of(alloc, fault_body(fault)) else {
        return Err(want(conn));
    };
    refuse(alloc, fault_status(fault), &body, conn)
}

/// Writes the answer to a READ that is refused.
pub(crate) fn refuse_read<C: Conn>(
    alloc: Global,
    refusal: &ReadRefusal,
    conn: &mut C,
) -> Result<(), ConnFault>
    ensures written { OnOk result (Appends (C.written conn.old) (C.written conn.new) (refusal_answer refusal.now)) }
    ensures gone { Keeps (C.gone conn.old) (C.gone conn.new) }
    ensures object { C.same conn.old conn.new }
    ensures cause { HasConnCause (C.faults conn.old) (C.faults conn.new) result }
{
    let Ok(body) = body_of(alloc, refusal) else {
        return Err(want(conn));
    };
    refuse(alloc, 400, &body, conn)
}

/// The body of a refusal; an empty one where it tells nothing but a status.
fn body_of(alloc: Global, refusal: &ReadRefusal) -> Result<Text, Memory>
    ensures { IfOk result (λ t. t ≡ unwrap_or (body_text refusal.now) []) }
{
    match refusal_body(alloc, refusal)? {
        Some(body) => Ok(body),
        None => Text::of(alloc, ""),
    }
}

/// Writes a refusal with this status and this body.
fn refuse<C: Conn>(alloc: Global, status: u16, body: &Text, conn: &mut C) -> Result<(), ConnFault>
    ensures written { OnOk result (Appends (C.written conn.old) (C.written conn.new) (refusal_text status body.now)) }
    ensures gone { Keeps (C.gone conn.old) (C.gone conn.new) }
    ensures object { C.same conn.old conn.new }
    ensures cause { HasConnCause (C.faults conn.old) (C.faults conn.new) result }
{
    let Ok(bytes) = refusal_bytes(alloc, status, body) else {
        return Err(want(conn));
    };
    conn.write(bytes.as_slice())
}
