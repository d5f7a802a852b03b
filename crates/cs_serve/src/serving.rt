ghost use Rattle.std.specs.Prelude.{◌≡◌};
ghost use Rattle.cs_connection.specs.Given.{IsUntouched};
ghost use Rattle.cs_serve.specs.Served.{IsServedRightly, StaysSilent};
ghost use Rattle.cs_serve.specs.Serving.{IsServing, HasServedCause, unserved};

use crate::answering::answer_body;
use crate::incoming::read_request;
use crate::refusing::{refuse_bytes, want};
use crate::unasked::Unasked;
use cs_connection::{Conn, ConnFault, Served};
use cs_http::WireFault;
use cs_script::ServerState;
use cs_types::Stamp;
use std::alloc::Global;

/// Serves one connection at a moment: reads a request, in pieces of at most 4,096 bytes, and writes
/// its answer, whose lines are written as the steps are made. At most 65,536 bytes are read, and no
/// byte behind the piece in which the request ends. It costs the index of the stream that is read
/// and the places of the steps.
///
/// It answers `Answered` where all of the answer was written, `RequestCut` where the bytes end
/// before the request does, or there are none, `RequestTooLong` where the request does not end
/// within 65,536 bytes, and that was written, `ReadFault` and `WriteFault` where a call of the
/// connection failed, and `Memory` where memory was wanting, also to the connection: where no head
/// was written, status 503 then was, and else the answer ends without its closing line.
pub fn serve_one<C: Conn>(alloc: Global, state: &ServerState, moment: Stamp, conn: &mut C) -> Served
    ensures serving { IsServing state.now moment (C.gone conn.old) (C.gone conn.new) (C.left conn.new) (C.written conn.old) (C.written conn.new) result }
    ensures right { IsUntouched (C.gone conn.old) (C.written conn.old) → StaysSilent (C.gone conn.old) (C.gone conn.new) → StaysSilent (C.written conn.old) (C.written conn.new) → IsServedRightly state.now moment (C.gone conn.new) (C.left conn.new) (C.written conn.new) (C.faults conn.new) result }
    ensures object { C.same conn.old conn.new }
    ensures cause { HasServedCause (C.faults conn.old) (C.faults conn.new) result }
{
    serve_request(alloc, state, moment, conn)
}

fn serve_request<C: Conn>(alloc: Global, state: &ServerState, moment: Stamp, conn: &mut C) -> Served
    ensures serving { IsServing state.now moment (C.gone conn.old) (C.gone conn.new) (C.left conn.new) (C.written conn.old) (C.written conn.new) result }
    ensures object { C.same conn.old conn.new }
    ensures cause { HasServedCause (C.faults conn.old) (C.faults conn.new) result }
{
    match read_request(alloc, conn) {
        Ok(request) => match answer_body(alloc, state, moment, &request.body, conn) {
            Ok(()) => Served::Answered,
            Err(fault) => unserved(fault),
        },
        Err(Unasked::Refused(fault)) => match refuse_bytes(alloc, fault, conn) {
            Ok(()) => Served::Answered,
            Err(fault) => unserved(fault),
        },
        Err(Unasked::TooLong) => match refuse_bytes(alloc, WireFault::TooLong, conn) {
            Ok(()) => Served::RequestTooLong,
            Err(fault) => unserved(fault),
        },
        Err(Unasked::Cut) => Served::RequestCut,
        Err(Unasked::Failed) => Served::ReadFault,
        Err(Unasked::Memory) => unserved(want(conn)),
    }
}

/// How a serving ends in which a write failed, or memory was wanting.
fn unserved(fault: ConnFault) -> Served
    ensures { result ≡ unserved fault }
{
    match fault {
        ConnFault::Failed => Served::WriteFault,
        ConnFault::Memory => Served::Memory,
    }
}
