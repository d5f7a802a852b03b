ghost use Rattle.std.specs.Prelude.{◌≡◌, ◌≤◌, Some, None, MatchResult, IfOk};
ghost use Rattle.std.specs.Str.Lossy.{utf8_lossy};
ghost use Rattle.cs_schema.specs.Lengths.{is_digit as is_numeral, length_from, size_of, limit_of, length_fault, type_of, no_length, column_made, columns_made};
ghost use Rattle.cs_schema.specs.Faults.{not_memory};

use crate::names::text;
use crate::{Column, SchemaFault};
use cs_ddl::{ColumnTree, Size, TypeTree, Word};
use cs_types::{ColumnType, Items, Memory};
use std::alloc::Global;

/// The greatest length of a STRING, in characters.
const MOST_CHARACTERS: u32 = 2_621_440;

/// The greatest length of BYTES, in bytes.
const MOST_BYTES: u32 = 10_485_760;

/// Whether a byte is one of 0 to 9.
pub(crate) fn is_digit(byte: u8) -> bool
    ensures { result ≡ is_numeral byte }
{
    b'0' <= byte && byte <= b'9'
}

fn length(digits: &[u8], most: u32) -> Option<u32>
    requires { most ≤ 10485760 }
    ensures { result ≡ length_from most 0 digits.now }
{
    let mut number: u32 = 0;
    for digit in digits {
        if !is_digit(*digit) {
            return None;
        }
        number = number * 10 + u32::from(*digit - b'0');
        if most < number {
            return None;
        }
    }
    if number == 0 {
        return None;
    }
    Some(number)
}

#[tactic(auto, using(crate::proofs::Decimals::length_is))]
fn size(size: &Size, most: u32) -> Option<u32>
    requires { most ≤ 10485760 }
    ensures { result ≡ size_of most size.now }
{
    match size {
        Size::Max => Some(most),
        Size::Number(digits) => length(digits.as_slice(), most),
    }
}

/// The greatest length of a type that has one.
fn limit(ty: &TypeTree) -> Option<u32>
    ensures { result ≡ limit_of ty.now }
{
    match ty {
        TypeTree::Text(most) => size(most, MOST_CHARACTERS),
        TypeTree::Bytes(most) => size(most, MOST_BYTES),
        _ => None,
    }
}

fn some_length(length: Option<u32>) -> Result<(), SchemaFault>
    ensures { MatchResult result (λ _. no_length length ≡ None) (λ e. not_memory e → no_length length ≡ Some e) }
{
    match length {
        Some(_) => Ok(()),
        None => Err(SchemaFault::BadLength),
    }
}

/// Refuses a length that is out of its range.
pub(crate) fn check_length(ty: &TypeTree) -> Result<(), SchemaFault>
    ensures { MatchResult result (λ _. length_fault ty.now ≡ None) (λ e. not_memory e → length_fault ty.now ≡ Some e) }
{
    match ty {
        TypeTree::Text(most) => some_length(size(most, MOST_CHARACTERS)),
        TypeTree::Bytes(most) => some_length(size(most, MOST_BYTES)),
        _ => Ok(()),
    }
}

fn column_type(ty: &TypeTree) -> ColumnType
    ensures { result ≡ type_of ty.now }
{
    match ty {
        TypeTree::Bool => ColumnType::Bool,
        TypeTree::Int64 => ColumnType::Int64,
        TypeTree::Numeric => ColumnType::Numeric,
        TypeTree::Date => ColumnType::Date,
        TypeTree::Timestamp => ColumnType::Timestamp,
        TypeTree::Text(_) => ColumnType::Text,
        TypeTree::Bytes(_) => ColumnType::Bytes,
    }
}

/// The column of a name and a type.
pub(crate) fn column(
    alloc: Global,
    name: &Word,
    ty: &TypeTree,
    not_null: bool,
) -> Result<Column, Memory>
    ensures { IfOk result (λ c. c ≡ column_made name.now ty.now not_null) }
{
    Ok(Column {
        name: text(alloc, name)?,
        ty: column_type(ty),
        limit: limit(ty),
        not_null,
    })
}

/// The columns of CREATE TABLE.
pub(crate) fn columns(alloc: Global, trees: &[ColumnTree]) -> Result<Items<Column>, Memory>
    ensures { IfOk result (λ c. c ≡ columns_made trees.now) }
{
    let mut made = Items::new(alloc);
    for tree in trees {
        made.push(column(alloc, &tree.name, &tree.ty, tree.not_null)?)?;
    }
    Ok(made)
}
