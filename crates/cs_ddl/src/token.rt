ghost use Rattle.std.specs.Prelude.{◌≡◌};

use crate::reserved::is_reserved;
use std::marker::Model;

/// What a token is.
#[derive(Clone, Copy, Debug, PartialEq, Eq)]
pub enum Kind {
    /// A letter, and letters, digits and `_`: a word of the grammar, or a name.
    Word,
    /// A name between backquotes.
    Quoted,
    /// A text between `'` or `"`.
    Text,
    /// Digits, with an optional `-` in front.
    Number,
    /// `(`
    Open,
    /// `)`
    Close,
    /// `,`
    Comma,
    /// `;`
    Semicolon,
    /// `=`
    Equals,
    /// `=>`
    Arrow,
}

/// A token: its bytes, where they begin in the text, and its kind, which a byte with which no
/// token begins has not.
#[derive(Debug, Drop)]
pub struct Token<'a> {
    kind: Option<Kind>,
    text: &'a [u8],
    at: usize,
}

impl<'a> Model for Token<'a> {
    ghost use Rattle.cs_ddl.specs.Token.{Lexeme};

    ghost Value = { Lexeme };

    ghost view = { λ t. record { kind = t.kind; text = t.text.now; at = t.at } };
}

impl<'a> Token<'a> {
    ghost use Rattle.cs_ddl.specs.Token.{is_kind, is_word, is_name_within, name_in, is_number, inner};

    /// A token of these bytes, which begin at this place of the text.
    pub fn new(kind: Option<Kind>, text: &'a [u8], at: usize) -> Token<'a>
        ensures { result ≡ record { kind = kind; text = text.now; at = at } }
    {
        Token { kind, text, at }
    }

    /// Its bytes.
    pub fn text(&self) -> &'a [u8]
        ensures { result.now ≡ self.now.text }
    {
        self.text
    }

    /// Where its first byte stands in the text.
    pub fn at(&self) -> usize
        ensures { result ≡ self.now.at }
    {
        self.at
    }

    /// Whether it is of this kind.
    pub fn is_kind(&self, kind: Kind) -> bool
        ensures { result ≡ is_kind kind self.now }
    {
        match self.kind {
            Some(own) => own as u8 == kind as u8,
            None => false,
        }
    }

    /// Whether it is this word of the grammar, in any case.
    pub fn is_word(&self, word: &[u8]) -> bool
        ensures { result ≡ is_word word.now self.now }
    {
        self.is_kind(Kind::Word) && self.text.eq_ignore_ascii_case(word)
    }

    /// Whether it is a name of so many bytes at most.
    pub fn is_name(&self, limit: usize) -> bool
        ensures { result ≡ is_name_within limit self.now }
    {
        self.name_text().len() <= limit
            && (self.is_kind(Kind::Quoted) || self.is_kind(Kind::Word) && !is_reserved(self.text))
    }

    /// The bytes of the name, without backquotes.
    pub fn name_text(&self) -> &'a [u8]
        ensures { result.now ≡ name_in self.now }
    {
        match self.kind {
            Some(Kind::Quoted) => match self.text {
                [_, inner @ .., _] => inner,
                _ => &[],
            },
            _ => self.text,
        }
    }

    /// Whether it is a number of 19 digits at most.
    pub fn is_number(&self) -> bool
        ensures { result ≡ is_number self.now }
    {
        if !self.is_kind(Kind::Number) {
            return false;
        }
        match self.text {
            [b'-', ..] => self.text.len() <= 20,
            _ => self.text.len() <= 19,
        }
    }

    /// Its bytes without the first and the last.
    pub fn inner(&self) -> &'a [u8]
        ensures { result.now ≡ inner self.now.text }
    {
        match self.text {
            [_, inner @ .., _] => inner,
            _ => &[],
        }
    }
}
