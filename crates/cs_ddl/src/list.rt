ghost use Rattle.std.specs.Prelude.{◌≡◌, ℕ, List, Result};
ghost use Rattle.cs_ddl.specs.Token.{Lexeme};
ghost use Rattle.cs_ddl.specs.Reading.{Gives};
ghost use Rattle.cs_ddl.specs.Lists.{list_at, with_front};

use crate::Run;
use crate::cursor::Cursor;
use crate::fault::Refusal;
use crate::token::Kind;
use std::alloc::Global;

/// A part of a list.
pub(crate) trait Part {
    type Value: Drop;

    ghost reads: { List Lexeme → Result (Self.Value × List Lexeme) ℕ };

    fn read(alloc: Global, cursor: &mut Cursor) -> Result<Self::Value, Refusal>
        ensures { Gives (λ x. (x, cursor.new)) result (reads cursor.old) };
}

/// One part or more, with commas between them. A comma may be trailing, before a bracket.
pub(crate) fn list<P: Part>(
    alloc: Global,
    cursor: &mut Cursor,
    trailing: bool,
) -> Result<Run<P::Value>, Refusal>
    ensures { Gives (λ xs. (xs, cursor.new)) result (list_at P.reads trailing cursor.old) }
{
    list_behind::<P>(alloc, cursor, Run::new(alloc), trailing)
}

/// The same behind the parts that are read already.
pub(crate) fn list_behind<P: Part>(
    alloc: Global,
    cursor: &mut Cursor,
    front: Run<P::Value>,
    trailing: bool,
) -> Result<Run<P::Value>, Refusal>
    ensures { Gives (λ xs. (xs, cursor.new)) result (with_front front (list_at P.reads trailing cursor.old)) }
{
    let mut items = front;
    for _ in 0..cursor.left() {
        items.push(P::read(alloc, cursor)?)?;
        if !cursor.is_sign(Kind::Comma) {
            return Ok(items);
        }
        cursor.skip();
        if cursor.ends_list(trailing) {
            return Ok(items);
        }
    }
    Err(Refusal::Left(cursor.left()))
}
