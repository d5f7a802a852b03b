ghost use Rattle.std.specs.Prelude.{◌≡◌, bytes_eq};
ghost use Rattle.cs_types.specs.Stamp.{stamp_reading};
ghost use Rattle.cs_json_reading.specs.Texts.{sequence_reading, digits_reading, is_transaction, is_letter, is_name_byte, are_name_bytes, is_name, kind_reading, capture_reading, code_reading};

use cs_types::{CaptureType, ColumnType, Kind, Stamp, are_token_bytes, is_digits};

/// How many digits a sequence has at most.
const SEQUENCE_DIGITS: usize = 8;

/// How many bytes the id of a transaction has at most.
const TRANSACTION_BYTES: usize = 64;

/// How many bytes a name has at most.
const NAME_BYTES: usize = 128;

/// The end of the whole numbers: 2^63.
const WHOLE_END: u64 = 9_223_372_036_854_775_808;

pub(crate) fn stamp_of(text: &str) -> Option<Stamp>
    ensures { result ≡ stamp_reading text.now }
{
    match Stamp::read(text.as_bytes()) {
        Ok(stamp) => Some(stamp),
        Err(_) => None,
    }
}

/// The number of 1 to 8 digits.
pub(crate) fn sequence_of(text: &str) -> Option<u32>
    ensures { result ≡ sequence_reading text.now }
{
    if !is_digits(text.as_bytes()) {
        return None;
    }
    if text.len() > SEQUENCE_DIGITS {
        return None;
    }
    match text.parse::<u32>() {
        Ok(n) => Some(n),
        Err(_) => None,
    }
}

/// The number of one digit or more, where it is below 2^63.
pub(crate) fn digits_of(text: &str) -> Option<u64>
    ensures { result ≡ digits_reading text.now }
{
    if !is_digits(text.as_bytes()) {
        return None;
    }
    match text.parse::<u64>() {
        Ok(n) => if n < WHOLE_END { Some(n) } else { None },
        Err(_) => None,
    }
}

/// Whether a text can be the id of a transaction.
#[tactic(auto, unfolding(crate::specs::Texts::is_transaction))]
pub(crate) fn is_transaction(text: &[u8]) -> bool
    ensures { result ≡ is_transaction text.now }
{
    !text.is_empty() && text.len() <= TRANSACTION_BYTES && are_token_bytes(text)
}

/// Whether a text can be the name of a table.
#[tactic(auto, unfolding(crate::specs::Texts::is_name))]
pub(crate) fn is_name(text: &[u8]) -> bool
    ensures { result ≡ is_name text.now }
{
    match text {
        [first, after @ ..] => is_letter(*first)
            && are_name_bytes(after)
            && text.len() <= NAME_BYTES,
        [] => false,
    }
}

fn are_name_bytes(text: &[u8]) -> bool
    ensures { result ≡ are_name_bytes text.now }
{
    let mut rest = text;
    while let [first, after @ ..] = rest {
        if !is_name_byte(*first) {
            return false;
        }
        rest = after;
    }
    true
}

fn is_name_byte(b: u8) -> bool
    ensures { result ≡ is_name_byte b }
{
    is_letter(b) || (b'0' <= b && b <= b'9') || b == b'_'
}

fn is_letter(b: u8) -> bool
    ensures { result ≡ is_letter b }
{
    (b'A' <= b && b <= b'Z') || (b'a' <= b && b <= b'z')
}

pub(crate) fn kind_of(text: &str) -> Option<Kind>
    ensures { result ≡ kind_reading text.now }
{
    if is_same(text, "INSERT") {
        return Some(Kind::Insert);
    }
    if is_same(text, "UPDATE") {
        return Some(Kind::Update);
    }
    if is_same(text, "DELETE") {
        return Some(Kind::Delete);
    }
    None
}

pub(crate) fn capture_of(text: &str) -> Option<CaptureType>
    ensures { result ≡ capture_reading text.now }
{
    if is_same(text, "OLD_AND_NEW_VALUES") {
        return Some(CaptureType::OldAndNewValues);
    }
    if is_same(text, "NEW_VALUES") {
        return Some(CaptureType::NewValues);
    }
    if is_same(text, "NEW_ROW") {
        return Some(CaptureType::NewRow);
    }
    if is_same(text, "NEW_ROW_AND_OLD_VALUES") {
        return Some(CaptureType::NewRowAndOldValues);
    }
    None
}

pub(crate) fn type_of_code(text: &str) -> Option<ColumnType>
    ensures { result ≡ code_reading text.now }
{
    if is_same(text, "BOOL") {
        return Some(ColumnType::Bool);
    }
    if is_same(text, "INT64") {
        return Some(ColumnType::Int64);
    }
    if is_same(text, "NUMERIC") {
        return Some(ColumnType::Numeric);
    }
    if is_same(text, "STRING") {
        return Some(ColumnType::Text);
    }
    if is_same(text, "BYTES") {
        return Some(ColumnType::Bytes);
    }
    if is_same(text, "DATE") {
        return Some(ColumnType::Date);
    }
    if is_same(text, "TIMESTAMP") {
        return Some(ColumnType::Timestamp);
    }
    None
}

fn is_same(one: &str, other: &str) -> bool
    ensures { result ≡ bytes_eq one.now other.now }
{
    one == other
}
