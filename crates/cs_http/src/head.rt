ghost use Rattle.std.specs.Prelude.{◌≡◌, ◌≤◌, ◌<◌, IfOk};
ghost use Rattle.cs_http.specs.Front.{IsFront};

use crate::fields::room_for;
use crate::finding::is_coded;
use cs_types::Memory;
use httparse::Status;
use std::alloc::Global;

/// The most bytes of the head of an answer, a limit of this project's own.
pub const HEAD_LIMIT: usize = 8_192;

/// What stands at the front of an answer.
#[derive(Clone, Copy, Debug)]
pub enum Front {
    /// A head with this status, which ends at this place.
    Head(u16, usize),
    /// No head that is taken, whatever follows.
    Outside,
    /// The beginning of a head.
    More,
}

/// What stands at the front of the bytes of an answer: a head of HTTP/1.0 or 1.1 (RFC 9112, section
/// 4) whose lines may end in LF alone. One that is taken has at most [`HEAD_LIMIT`] bytes and
/// neither `transfer-encoding` nor `content-encoding`; its other fields are passed over. It takes
/// memory in the size of the limit.
pub fn front_of(alloc: Global, bytes: &[u8]) -> Result<Front, Memory>
    ensures { IfOk result (IsFront bytes.now) }
{
    let mut headers = room_for(alloc, HEAD_LIMIT)?;
    match httparse::spans::parse_response(bytes, &mut headers) {
        Ok(Status::Complete(head)) => {
            if head.len > HEAD_LIMIT {
                return Ok(Front::Outside);
            }
            if is_coded(bytes, &headers[..head.headers]) {
                return Ok(Front::Outside);
            }
            Ok(Front::Head(head.code, head.len))
        }
        Ok(Status::Partial) => Ok(Front::More),
        Err(_) => Ok(Front::Outside),
    }
}
