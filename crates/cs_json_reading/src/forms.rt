ghost use Rattle.std.specs.Prelude.{◌≡◌, IfOk};
ghost use Rattle.serde_json.specs.View.{view, items_view, number_view};
ghost use Rattle.cs_json_reading.specs.Members.{each_token, number_value, whole_value};

use crate::form::Form;
use crate::text::{capture_of, digits_of, is_name, is_transaction, kind_of, sequence_of, stamp_of};
use cs_types::{CaptureType, Items, Kind, Memory, Stamp, Text, Token};
use serde_json::{Number, Value};
use std::alloc::Global;

/// The end of the whole numbers: 2^63.
const WHOLE_END: u64 = 9_223_372_036_854_775_808;

/// The end of the ordinals: 2^32.
const ORDINAL_END: u64 = 4_294_967_296;

impl Form for Stamp {
    ghost use Rattle.cs_json_reading.specs.Members.{stamp_value};

    type Out = Stamp;

    ghost reads = { stamp_value };

    fn of(_: Global, tree: &Value) -> Result<Option<Stamp>, Memory> {
        let Some(text) = tree.as_str() else {
            return Ok(None);
        };
        Ok(stamp_of(text))
    }
}

/// The number of a record among others: a text of 1 to 8 digits.
pub(crate) struct Sequence;

impl Form for Sequence {
    ghost use Rattle.cs_json_reading.specs.Members.{sequence_value};

    type Out = u32;

    ghost reads = { sequence_value };

    fn of(_: Global, tree: &Value) -> Result<Option<u32>, Memory> {
        let Some(text) = tree.as_str() else {
            return Ok(None);
        };
        Ok(sequence_of(text))
    }
}

impl Form for Text {
    ghost use Rattle.serde_json.specs.Find.{as_str};

    type Out = Text;

    ghost reads = { as_str };

    fn of(alloc: Global, tree: &Value) -> Result<Option<Text>, Memory> {
        let Some(text) = tree.as_str() else {
            return Ok(None);
        };
        Ok(Some(Text::of(alloc, text)?))
    }
}

/// The id of a transaction.
pub(crate) struct Transaction;

impl Form for Transaction {
    ghost use Rattle.cs_json_reading.specs.Members.{transaction_value};

    type Out = Text;

    ghost reads = { transaction_value };

    fn of(alloc: Global, tree: &Value) -> Result<Option<Text>, Memory> {
        let Some(text) = tree.as_str() else {
            return Ok(None);
        };
        if !is_transaction(text.as_bytes()) {
            return Ok(None);
        }
        Ok(Some(Text::of(alloc, text)?))
    }
}

/// The name of a table.
pub(crate) struct Name;

impl Form for Name {
    ghost use Rattle.cs_json_reading.specs.Members.{name_value};

    type Out = Text;

    ghost reads = { name_value };

    fn of(alloc: Global, tree: &Value) -> Result<Option<Text>, Memory> {
        let Some(text) = tree.as_str() else {
            return Ok(None);
        };
        if !is_name(text.as_bytes()) {
            return Ok(None);
        }
        Ok(Some(Text::of(alloc, text)?))
    }
}

impl Form for bool {
    ghost use Rattle.serde_json.specs.Find.{as_bool};

    type Out = bool;

    ghost reads = { as_bool };

    fn of(_: Global, tree: &Value) -> Result<Option<bool>, Memory> {
        Ok(tree.as_bool())
    }
}

impl Form for Kind {
    ghost use Rattle.cs_json_reading.specs.Members.{kind_value};

    type Out = Kind;

    ghost reads = { kind_value };

    fn of(_: Global, tree: &Value) -> Result<Option<Kind>, Memory> {
        let Some(text) = tree.as_str() else {
            return Ok(None);
        };
        Ok(kind_of(text))
    }
}

impl Form for CaptureType {
    ghost use Rattle.cs_json_reading.specs.Members.{capture_value};

    type Out = CaptureType;

    ghost reads = { capture_value };

    fn of(_: Global, tree: &Value) -> Result<Option<CaptureType>, Memory> {
        let Some(text) = tree.as_str() else {
            return Ok(None);
        };
        Ok(capture_of(text))
    }
}

impl Form for Token {
    ghost use Rattle.cs_json_reading.specs.Members.{token_value};

    type Out = Token;

    ghost reads = { token_value };

    fn of(alloc: Global, tree: &Value) -> Result<Option<Token>, Memory> {
        let Some(text) = tree.as_str() else {
            return Ok(None);
        };
        Token::of(alloc, text.as_bytes())
    }
}

/// An array of tokens, or null, which is none.
pub(crate) struct Tokens;

impl Form for Tokens {
    ghost use Rattle.cs_json_reading.specs.Members.{tokens_value};

    type Out = Items<Token>;

    ghost reads = { tokens_value };

    fn of(alloc: Global, tree: &Value) -> Result<Option<Items<Token>>, Memory> {
        match tree {
            Value::Null => Ok(Some(Items::new(alloc))),
            Value::Array(trees) => each_token(alloc, trees.as_slice()),
            _ => Ok(None),
        }
    }
}

fn each_token(alloc: Global, trees: &[Value]) -> Result<Option<Items<Token>>, Memory>
    ensures { IfOk result (λ o. o ≡ each_token (items_view trees.now)) }
{
    let mut tokens = Items::new(alloc);
    for tree in trees {
        let Some(token) = <Token as Form>::of(alloc, tree)? else {
            return Ok(None);
        };
        tokens.push(token)?;
    }
    Ok(Some(tokens))
}

/// A whole number from 0 to 2^63 - 1.
impl Form for u64 {
    ghost use Rattle.cs_json_reading.specs.Members.{whole_value};

    type Out = u64;

    ghost reads = { whole_value };

    fn of(_: Global, tree: &Value) -> Result<Option<u64>, Memory> {
        Ok(whole_of(tree))
    }
}

fn whole_of(tree: &Value) -> Option<u64>
    ensures { result ≡ whole_value (view tree.now) }
{
    if let Some(number) = tree.as_number() {
        return number_of(number);
    }
    match tree.as_str() {
        Some(text) => digits_of(text),
        None => None,
    }
}

fn number_of(number: &Number) -> Option<u64>
    ensures { result ≡ number_value (number_view number.now) }
{
    match number.as_u64() {
        Some(n) => if n < WHOLE_END { Some(n) } else { None },
        None => None,
    }
}

/// The place of a column: a whole number below 2^32.
pub(crate) struct Ordinal;

impl Form for Ordinal {
    ghost use Rattle.cs_json_reading.specs.Members.{ordinal_value};

    type Out = u32;

    ghost reads = { ordinal_value };

    fn of(_: Global, tree: &Value) -> Result<Option<u32>, Memory> {
        match whole_of(tree) {
            Some(n) => if n < ORDINAL_END {
                Ok(Some(n as u32))
            } else {
                Ok(None)
            },
            None => Ok(None),
        }
    }
}
