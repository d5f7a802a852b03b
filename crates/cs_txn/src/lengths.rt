ghost use Rattle.std.specs.Prelude.{◌≡◌, ◌+◌, ℕ, List, All, IfOk, OnOk, length, nat_lt};
ghost use Rattle.std.specs.Fmt.{signed_decimal};
ghost use Rattle.json.specs.Print.{escape_letter, escape_byte, quoted};
ghost use Rattle.serde_json.specs.Data.{string};
ghost use Rattle.serde_json.specs.Written.{compact_text};
ghost use Rattle.cs_types.specs.Cells.{IsRising};
ghost use Rattle.cs_types.specs.Value.{IsInRange, value_data};
ghost use Rattle.cs_txn.specs.Left.{found_in};
ghost use Rattle.cs_txn.specs.Lengths.{member_length, object_length, cells_length, length_if, hidden_length};
ghost use Rattle.cs_txn.specs.Sizes.{row_size};

use crate::finding::find;
use cs_types::{Cell, Cells, Memory, Text, Value, integer_length};
use std::alloc::Global;

/// The sum. `Memory` where it has more than 64 bits, as no length of a text has.
fn add(a: u64, b: u64) -> Result<u64, Memory>
    ensures { IfOk result (λ n. n ≡ a + b) }
{
    match a.checked_add(b) {
        Some(sum) => Ok(sum),
        None => Err(Memory),
    }
}

/// Whether a byte of a text has an escape of two bytes in JSON.
fn is_short(byte: u8) -> bool
    ensures { result ≡ nat_lt 0 (escape_letter byte) }
{
    matches!(byte, b'"' | b'\\' | 8 | 9 | 10 | 12 | 13)
}

/// How many bytes stand for a byte of a text in JSON.
#[tactic(auto, unfolding(json::specs::Print::escape_byte))]
fn escaped_size(byte: u8) -> u64
    ensures { result ≡ length (escape_byte byte) }
{
    if is_short(byte) {
        return 2;
    }
    if byte < 32 {
        return 6;
    }
    1
}

/// The length of a text in JSON, with its quotes.
fn text_size(text: &str) -> Result<u64, Memory>
    ensures { IfOk result (λ n. n ≡ length (quoted text.now)) }
{
    let mut size = 2;
    for byte in text.as_bytes() {
        size = add(size, escaped_size(*byte))?;
    }
    Ok(size)
}

/// The length of a number in JSON, where its digits stand between quotes: no text is made.
fn number_size(number: i64) -> Result<u64, Memory>
    ensures { IfOk result (λ n. n ≡ length (quoted (signed_decimal number))) }
{
    let size = add(integer_length(number) as u64, 2)?;
    Ok(size)
}

fn written_size(alloc: Global, value: &Value) -> Result<u64, Memory>
    requires { IsInRange value.now }
    ensures { IfOk result (λ n. (s : List ℕ) → value_data value.now ≡ string s → n ≡ length (quoted s)) }
{
    let tree = value.to_tree(alloc)?;
    match tree.as_str() {
        Some(text) => text_size(text),
        None => Ok(0),
    }
}

/// The length of a value in JSON.
fn value_size(alloc: Global, value: &Value) -> Result<u64, Memory>
    requires { IsInRange value.now }
    ensures { IfOk result (λ n. n ≡ length (compact_text (value_data value.now))) }
{
    match value {
        Value::Null => Ok(4),
        Value::Bool(true) => Ok(4),
        Value::Bool(false) => Ok(5),
        Value::Text(text) => text_size(text.as_str()),
        Value::Int64(number) => number_size(*number),
        _ => written_size(alloc, value),
    }
}

fn member_size(alloc: Global, name: &Text, value: &Value) -> Result<u64, Memory>
    requires { IsInRange value.now }
    ensures { IfOk result (λ n. n ≡ member_length name.now (value_data value.now)) }
{
    let name = text_size(name.as_str())?;
    let value = value_size(alloc, value)?;
    let value = add(value, 2)?;
    add(name, value)
}

/// What the cells take in an object.
pub(crate) fn cells_size(alloc: Global, cells: &Cells) -> Result<u64, Memory>
    ensures sum { IfOk result (λ n. n ≡ cells_length cells.now) }
    ensures rising { OnOk result (IsRising cells.now) }
    ensures in_range { OnOk result (All (λ c. IsInRange c.value) cells.now) }
{
    let mut sum = 0;
    for cell in cells.items() {
        let size = member_size(alloc, &cell.column, &cell.value)?;
        sum = add(sum, size)?;
    }
    Ok(sum)
}

fn size_if(alloc: Global, key: &Cells, cell: &Cell) -> Result<u64, Memory>
    ensures { IfOk result (λ n. n ≡ length_if cell.now.column (found_in cell.now.column key.now)) }
{
    match find(&cell.column, key) {
        Some(value) => member_size(alloc, &cell.column, value),
        None => Ok(0),
    }
}

/// What the cells of a key would take whose columns have another cell.
fn hidden_size(alloc: Global, key: &Cells, cells: &Cells) -> Result<u64, Memory>
    ensures { IfOk result (λ n. n ≡ hidden_length key.now cells.now) }
{
    let mut sum = 0;
    for cell in cells.items() {
        let size = size_if(alloc, key, cell)?;
        sum = add(sum, size)?;
    }
    Ok(sum)
}

/// The length of an object whose members take so much.
fn object_size(members: u64) -> Result<u64, Memory>
    ensures { IfOk result (λ n. n ≡ object_length members) }
{
    if members == 0 {
        return Ok(2);
    }
    add(members, 1)
}

/// The length of a row's object as JSON without spaces, of which no text is made; `names` is what
/// the cells of its key take.
pub(crate) fn row_size(alloc: Global, names: u64, key: &Cells, cells: &Cells) -> Result<u64, Memory>
    requires names { names ≡ cells_length key.now }
    requires rising { IsRising key.now }
    ensures size { IfOk result (λ n. n ≡ row_size key.now cells.now) }
    ensures rising { OnOk result (IsRising cells.now) }
    ensures in_range { OnOk result (All (λ c. IsInRange c.value) cells.now) }
{
    let others = cells_size(alloc, cells)?;
    let all = add(others, names)?;
    let hidden = hidden_size(alloc, key, cells)?;
    let size = object_size(all - hidden)?;
    Ok(size)
}
