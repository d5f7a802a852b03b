ghost use Rattle.std.specs.Prelude.{◌≡◌, ◌≤◌, length, IfOk, All};
ghost use Rattle.httparse.specs.Spans.{IsHeaderWithin};

use cs_types::Memory;
use httparse::Status;
use httparse::spans::{EMPTY_HEADER_SPAN, HeaderSpan};
use std::alloc::Global;

/// How far the bytes of a request were looked through. It only advises when to parse them, so that
/// they are parsed a few times in all, in however many pieces they come.
#[derive(Clone, Copy, Debug)]
pub(crate) enum Look {
    /// Nothing but line ends.
    Blank,
    /// In the first line.
    First,
    /// In a field.
    Field,
    /// Behind the end of a line.
    Behind,
    /// Behind the empty line that ends the head.
    Body,
}

impl Look {
    /// Looks at bytes more, and tells whether the first line or the head ended with them.
    pub(crate) fn pass(&mut self, bytes: &[u8]) -> bool {
        let mut ended = false;
        for byte in bytes {
            if self.ends_with(*byte) {
                ended = true;
            }
        }
        ended
    }

    fn ends_with(&mut self, byte: u8) -> bool {
        match self {
            Look::Blank => {
                if byte != b'\r' && byte != b'\n' {
                    *self = Look::First;
                }
                false
            }
            Look::First => {
                if byte == b'\n' {
                    *self = Look::Behind;
                }
                byte == b'\n'
            }
            Look::Field => {
                if byte == b'\n' {
                    *self = Look::Behind;
                }
                false
            }
            Look::Behind => self.begins_with(byte),
            Look::Body => false,
        }
    }

    /// Looks at a byte behind the end of a line.
    fn begins_with(&mut self, byte: u8) -> bool {
        if byte == b'\n' {
            *self = Look::Body;
            return true;
        }
        if byte != b'\r' {
            *self = Look::Field;
        }
        false
    }

    /// Whether the head has ended.
    pub(crate) fn is_behind_head(&self) -> bool {
        match self {
            Look::Blank | Look::First | Look::Field | Look::Behind => false,
            Look::Body => true,
        }
    }
}

/// How many bytes the request at the front has with its body; 0 where it cannot be told. Like
/// [`Look`] it only advises.
pub(crate) fn whole_length(alloc: Global, bytes: &[u8]) -> usize {
    let Ok(mut headers) = room_for(alloc, bytes.len()) else {
        return 0;
    };
    match httparse::spans::parse_request(bytes, &mut headers) {
        Ok(Status::Complete(head)) => {
            let told = told_length(&bytes[..head.len], &headers[..head.headers]);
            head.len.saturating_add(told)
        }
        Ok(Status::Partial) => 0,
        Err(_) => 0,
    }
}

fn room_for(alloc: Global, count: usize) -> Result<Vec<HeaderSpan>, Memory>
    ensures { IfOk result (λ v. length v.items ≡ count) }
{
    Ok(Vec::from_elem(alloc, EMPTY_HEADER_SPAN, count)?)
}

/// What the first content-length says; 0 where none is a number.
fn told_length(head: &[u8], fields: &[HeaderSpan]) -> usize
    requires { All (IsHeaderWithin (length head.now)) fields.now }
{
    for field in fields {
        if field.name.of(head).eq_ignore_ascii_case(b"content-length") {
            return number_of(field.value.of(head));
        }
    }
    0
}

fn number_of(text: &[u8]) -> usize {
    let Ok(text) = str::from_utf8(text) else {
        return 0;
    };
    text.parse::<usize>().unwrap_or(0)
}
