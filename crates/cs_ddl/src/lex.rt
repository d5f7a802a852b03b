ghost use Rattle.std.specs.Prelude.{ℕ, List, ◌≡◌, ◌≤◌, not, position, length, IfOk};
ghost use Rattle.std.specs.Char.{is_ascii_digit};
ghost use Rattle.cs_ddl.specs.Lex as spec;

use crate::token::{Kind, Token};
use std::alloc::{AllocError, Global};

fn is_blank(byte: u8) -> bool
    ensures { result ≡ spec.is_blank byte }
{
    byte == b' ' || byte == b'\t' || byte == b'\r' || byte == b'\n'
}

fn is_word_byte(byte: u8) -> bool
    ensures { result ≡ spec.is_word_byte byte }
{
    byte.is_ascii_alphanumeric() || byte == b'_'
}

fn word_end(bytes: &[u8]) -> Option<usize>
    ensures { result ≡ position (λ b. not (spec.is_word_byte b)) bytes.now }
{
    bytes.iter().position(|b| !is_word_byte(*b))
}

fn word_len(bytes: &[u8]) -> usize
    ensures len { result ≡ spec.word_len bytes.now }
    ensures within { result ≤ length bytes.now }
{
    word_end(bytes).unwrap_or(bytes.len())
}

fn digits_end(bytes: &[u8]) -> Option<usize>
    ensures { result ≡ position (λ b. not (is_ascii_digit b)) bytes.now }
{
    bytes.iter().position(|b| !b.is_ascii_digit())
}

fn digits_len(bytes: &[u8]) -> usize
    ensures len { result ≡ spec.digits_len bytes.now }
    ensures within { result ≤ length bytes.now }
{
    digits_end(bytes).unwrap_or(bytes.len())
}

fn ends_text(quote: u8, byte: u8) -> bool
    ensures { result ≡ spec.ends_text quote byte }
{
    byte == quote || byte == b'\\' || byte == b'\r' || byte == b'\n'
}

fn text_end(quote: u8, bytes: &[u8]) -> Option<usize>
    ensures { result ≡ position (spec.ends_text quote) bytes.now }
{
    bytes.iter().position(|b| ends_text(quote, *b))
}

fn text_len(quote: u8, bytes: &[u8]) -> usize
    ensures len { result ≡ spec.text_len quote bytes.now }
    ensures within { result ≤ length bytes.now }
{
    text_end(quote, bytes).unwrap_or(bytes.len())
}

fn has_at(byte: u8, i: usize, bytes: &[u8]) -> bool
    ensures { result ≡ spec.has_at byte i bytes.now }
{
    i < bytes.len() && bytes[i] == byte
}

#[tactic(auto, unfolding(crate::specs::Lex::quoted))]
fn quoted(bytes: &[u8]) -> (Option<Kind>, usize)
    ensures is { result ≡ spec.quoted bytes.now }
    ensures within { result.1 ≤ length bytes.now }
{
    let len = word_len(bytes);
    match bytes {
        [first, ..] if first.is_ascii_alphabetic() && has_at(b'`', len, bytes) => (
            Some(Kind::Quoted),
            len + 1,
        ),
        _ => (None, 0),
    }
}

#[tactic(auto, unfolding(crate::specs::Lex::quoted_text))]
fn quoted_text(quote: u8, bytes: &[u8]) -> (Option<Kind>, usize)
    ensures is { result ≡ spec.quoted_text quote bytes.now }
    ensures within { result.1 ≤ length bytes.now }
{
    let len = text_len(quote, bytes);
    if has_at(quote, len, bytes) {
        (Some(Kind::Text), len + 1)
    } else {
        (None, 0)
    }
}

#[tactic(auto, unfolding(crate::specs::Lex::negative))]
fn negative(bytes: &[u8]) -> (Option<Kind>, usize)
    ensures is { result ≡ spec.negative bytes.now }
    ensures within { result.1 ≤ length bytes.now }
{
    let len = digits_len(bytes);
    if len > 0 {
        (Some(Kind::Number), len)
    } else {
        (None, 0)
    }
}

#[tactic(auto, unfolding(crate::specs::Lex::equals))]
fn equals(bytes: &[u8]) -> (Option<Kind>, usize)
    ensures is { result ≡ spec.equals bytes.now }
    ensures within { result.1 ≤ length bytes.now }
{
    if has_at(b'>', 0, bytes) {
        (Some(Kind::Arrow), 1)
    } else {
        (Some(Kind::Equals), 0)
    }
}

#[tactic(auto, unfolding(crate::specs::Lex::kind_and_len))]
fn kind_and_len(first: u8, bytes: &[u8]) -> (Option<Kind>, usize)
    ensures is { result ≡ spec.kind_and_len first bytes.now }
    ensures within { result.1 ≤ length bytes.now }
{
    if first.is_ascii_alphabetic() {
        (Some(Kind::Word), word_len(bytes))
    } else if first.is_ascii_digit() {
        (Some(Kind::Number), digits_len(bytes))
    } else if first == b'`' {
        quoted(bytes)
    } else if first == b'\'' {
        quoted_text(first, bytes)
    } else if first == b'"' {
        quoted_text(first, bytes)
    } else if first == b'-' {
        negative(bytes)
    } else if first == b'=' {
        equals(bytes)
    } else if first == b'(' {
        (Some(Kind::Open), 0)
    } else if first == b')' {
        (Some(Kind::Close), 0)
    } else if first == b',' {
        (Some(Kind::Comma), 0)
    } else if first == b';' {
        (Some(Kind::Semicolon), 0)
    } else {
        (None, 0)
    }
}

/// The tokens of a text.
pub(crate) fn tokens<'a>(alloc: Global, text: &'a [u8]) -> Result<Vec<Token<'a>>, AllocError>
    ensures { IfOk result (λ tokens. tokens.items ≡ spec.tokens_of text.now) }
{
    let mut tokens = Vec::new(alloc);
    let mut at = 0;
    while at < text.len() {
        if is_blank(text[at]) {
            at += 1;
        } else {
            let (kind, len) = kind_and_len(text[at], &text[at + 1..]);
            tokens.push(Token::new(kind, &text[at..at + 1 + len], at))?;
            at += 1 + len;
        }
    }
    Ok(tokens)
}

/// Each token's text is its slice of the text, and they are in order.
pub fn spans_in_order()
    ensures { (bytes : List ℕ) → spec.AreSpans bytes 0 (spec.tokens_of bytes) }
{}
