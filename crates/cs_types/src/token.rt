ghost use Rattle.std.specs.Prelude.{◌≡◌, IfOk, true};
ghost use Rattle.cs_types.specs.Token.{is_token, is_token_byte, are_token_bytes, token_reading};

use crate::{Duplicate, Items, Memory};
use std::alloc::Global;
use std::marker::Model;

/// The name of a part: 1 to 1,024 visible bytes of ASCII, without quotes and backslash. Tokens are
/// ordered by their bytes.
#[derive(Debug, Drop, PartialEq, Eq, PartialOrd, Ord)]
pub struct Token {
    inner: Items<u8>,
}

impl Model for Token {
    ghost use Rattle.std.specs.Prelude.{◌≡◌, List, ℕ, true};
    ghost use Rattle.cs_types.specs.Token.{is_token};

    ghost Value = { List ℕ };

    ghost view = { λ t. t.inner };

    ghost invariant = { λ t. is_token t.inner ≡ true };

    ghost inverse = { λ bytes. record { inner = bytes } };
}

impl Token {
    /// The most bytes of a token.
    pub const MOST: usize = 1024;

    /// The token of these bytes; None exactly where they are no token.
    pub fn of(alloc: Global, bytes: &[u8]) -> Result<Option<Token>, Memory>
        ensures { IfOk result (λ o. o ≡ token_reading bytes.now) }
    {
        if !is_token(bytes) {
            return Ok(None);
        }
        Ok(Some(Token {
            inner: Items::from_slice(alloc, bytes)?,
        }))
    }

    /// The bytes. It takes no memory.
    pub fn bytes(&self) -> &[u8]
        ensures value { result.now ≡ self.now }
        ensures token { is_token self.now ≡ true }
    {
        self.inner.as_slice()
    }
}

impl Duplicate for Token {
    fn copy(&self) -> Result<Token, Memory> {
        Ok(Token {
            inner: self.inner.copy()?,
        })
    }
}

#[tactic(auto, unfolding(crate::specs::Token::is_token))]
fn is_token(bytes: &[u8]) -> bool
    ensures { result ≡ is_token bytes.now }
{
    !bytes.is_empty() && bytes.len() <= Token::MOST && are_token_bytes(bytes)
}

/// Whether each byte is one that a token may have: visible ASCII, without quotes and backslash. It
/// takes no memory.
pub fn are_token_bytes(bytes: &[u8]) -> bool
    ensures { result ≡ are_token_bytes bytes.now }
{
    let mut rest = bytes;
    while let [first, after @ ..] = rest {
        if !is_token_byte(*first) {
            return false;
        }
        rest = after;
    }
    true
}

fn is_token_byte(b: u8) -> bool
    ensures { result ≡ is_token_byte b }
{
    b'!' <= b && b <= b'~' && b != b'"' && b != b'\'' && b != b'\\'
}
