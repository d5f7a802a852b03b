ghost use Rattle.std.specs.Prelude.{◌≡◌, ◌≤◌, length, map, All};
ghost use Rattle.httparse.specs.Spans.{header_bytes, IsHeaderWithin};
ghost use Rattle.cs_http.specs.Fields.{values, content_length, is_coded, is_some_value};
ghost use Rattle.cs_http.specs.Span.{IsFound};

use crate::fields::{Found, is_same_name};
use crate::number::length_of;
use httparse::spans::HeaderSpan;

/// The values of the fields of this name. It goes from the last field to the first.
fn find(bytes: &[u8], fields: &[HeaderSpan], wanted: &[u8]) -> Found
    requires { All (IsHeaderWithin (length bytes.now)) fields.now }
    ensures { IsFound bytes.now (values wanted.now (map (header_bytes bytes.now) fields.now)) result }
{
    let mut found = Found::Nothing;
    let mut left = fields.len();
    'fields: while left > 0 {
        left -= 1;
        let field = fields[left];
        if is_same_name(field.name.of(bytes), wanted) {
            found = match found {
                Found::Nothing => Found::One(field.value),
                Found::One(_) => Found::More,
                Found::More => Found::More,
            };
        }
    }
    found
}

/// How many bytes the body has, where content-length stands once and says it.
pub(crate) fn content_length(bytes: &[u8], fields: &[HeaderSpan]) -> Option<u64>
    requires { All (IsHeaderWithin (length bytes.now)) fields.now }
    ensures { result ≡ content_length (map (header_bytes bytes.now) fields.now) }
{
    match find(bytes, fields, b"content-length") {
        Found::Nothing => None,
        Found::One(span) => length_of(span.of(bytes)),
        Found::More => None,
    }
}

fn has_field(bytes: &[u8], fields: &[HeaderSpan], wanted: &[u8]) -> bool
    requires { All (IsHeaderWithin (length bytes.now)) fields.now }
    ensures { result ≡ is_some_value (values wanted.now (map (header_bytes bytes.now) fields.now)) }
{
    match find(bytes, fields, wanted) {
        Found::Nothing => false,
        Found::One(_) => true,
        Found::More => true,
    }
}

/// Whether the body is coded.
pub(crate) fn is_coded(bytes: &[u8], fields: &[HeaderSpan]) -> bool
    requires { All (IsHeaderWithin (length bytes.now)) fields.now }
    ensures { result ≡ is_coded (map (header_bytes bytes.now) fields.now) }
{
    if has_field(bytes, fields, b"transfer-encoding") {
        return true;
    }
    has_field(bytes, fields, b"content-encoding")
}
