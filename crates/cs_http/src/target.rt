ghost use Rattle.std.specs.Prelude.{◌≡◌, ◌↔◌, ℕ, List, MatchOption, IsTrue};
ghost use Rattle.std.specs.List.{list_all};
ghost use Rattle.httparse.specs.Grammar.{LineEnd, is_uri_byte, EndsInTarget};
ghost use Rattle.httparse.specs.Pieces.{Newline};
ghost use Rattle.cs_http.specs.Span.{HasNoSpace, IsFirstSpace, IsOpenTarget};

use httparse::{is_token, is_uri_token};
use memchr::memchr;

/// The bytes behind the line end at the front.
fn behind_line_end(bytes: &[u8]) -> Option<&[u8]>
    ensures { MatchOption result ((end : LineEnd) (rest : List ℕ) → Newline end bytes.now rest → ⊥) (λ rest. (end : LineEnd) × Newline end bytes.now rest.now) }
{
    match bytes {
        [b'\n', rest @ ..] => Some(rest),
        [b'\r', b'\n', rest @ ..] => Some(rest),
        _ => None,
    }
}

/// The place of the first space.
fn space_in(bytes: &[u8]) -> Option<usize>
    ensures { MatchOption result (HasNoSpace bytes.now) (IsFirstSpace bytes.now) }
{
    memchr(b' ', bytes)
}

fn are_target_bytes(bytes: &[u8]) -> bool
    ensures { result ≡ list_all is_uri_byte bytes.now }
{
    bytes.iter().all(|b| is_uri_token(*b))
}

/// Whether the bytes are a method, a space and bytes of a target.
fn is_open_target(bytes: &[u8]) -> bool
    ensures { IsTrue result ↔ IsOpenTarget bytes.now }
{
    let Some(place) = space_in(bytes) else {
        return false;
    };
    if !is_token(&bytes[..place]) {
        return false;
    }
    are_target_bytes(&bytes[place + 1..])
}

/// Whether the bytes end inside of a request's target, before which empty lines may stand.
pub(crate) fn ends_in_target(bytes: &[u8]) -> bool
    ensures { IsTrue result ↔ EndsInTarget bytes.now }
{
    let mut rest = bytes;
    'lines: while let Some(after) = behind_line_end(rest) {
        rest = after;
    }
    is_open_target(rest)
}
