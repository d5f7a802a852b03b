// Texts of a line beside texts that are kept.
ghost use Rattle.std.specs.Prelude.{◌≡◌, IfOk, IsTrue};
ghost use Rattle.cs_types.specs.Names.{is_same};

use cs_types::{Duplicate, Memory, Text};
use std::alloc::Global;

/// Whether a text is this one. It takes no memory.
pub(crate) fn is_text(text: &Text, other: &str) -> bool
    ensures same { result ≡ is_same text.now other.now }
    ensures equal { IsTrue result → text.now ≡ other.now }
{
    is_bytes(text.as_str(), other)
}

fn is_bytes(one: &str, other: &str) -> bool
    ensures same { result ≡ is_same one.now other.now }
    ensures equal { IsTrue result → one.now ≡ other.now }
{
    one == other
}

/// A text, which shares the bytes of another where both are the same.
pub(crate) fn shared(alloc: Global, text: &str, other: Option<&Text>) -> Result<Text, Memory>
    ensures { IfOk result (λ t. t ≡ text.now) }
{
    if let Some(other) = other {
        if is_text(other, text) {
            return other.copy();
        }
    }
    Text::of(alloc, text)
}
