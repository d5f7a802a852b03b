ghost use Rattle.std.specs.Prelude.{◌≡◌, ◌≤◌, ℕ, List};
ghost use Rattle.cs_ddl.specs.Reading.{Gives};
ghost use Rattle.cs_ddl.specs.Query as grammar;
ghost use Rattle.cs_ddl.specs.QueryReading.{plain_at, literal_at, argument_at, named_at, named_behind_at, placed_at, first_at, timestamp_at, arguments_at, select_at, called_at, query_at};
ghost use Rattle.cs_ddl.specs.declared.tree.ReadQuery.{ReadQuery as Tree};
ghost use Rattle.cs_ddl.specs.Text.{IsTextOf, Answers, IsThis};
ghost use Rattle.cs_ddl.specs.Grammars.{queries};

use crate::answer::answer;
use crate::cursor::Cursor;
use crate::fault::{Refusal, SyntaxFault};
use crate::lex::tokens;
use crate::list::{Part, list, list_behind};
use crate::statement::ended;
use crate::token::{Kind, Token};
use crate::{Argument, Literal, ReadQuery, Run, Word};
use std::alloc::Global;

/// The name of an argument by its place: so many places are left with it, at most five.
fn place_name(left: usize) -> &'static [u8]
    ensures { result.now ≡ grammar.place_name left }
{
    match left {
        5 => b"start_timestamp",
        4 => b"end_timestamp",
        3 => b"partition_token",
        2 => b"heartbeat_milliseconds",
        _ => b"read_options",
    }
}

/// Reads a literal that does not begin with TIMESTAMP.
#[tactic(auto, unfolding(crate::specs::QueryReading::plain_at))]
fn plain(alloc: Global, cursor: &mut Cursor) -> Result<Literal, Refusal>
    ensures { Gives (λ x. (x, cursor.new)) result (plain_at cursor.old) }
{
    if cursor.is_word(b"null") {
        cursor.skip();
        Ok(Literal::Null)
    } else if cursor.is_sign(Kind::Text) {
        Ok(Literal::Text(cursor.text(alloc)?))
    } else {
        Ok(Literal::Number(cursor.number(alloc)?))
    }
}

#[tactic(auto, unfolding(crate::specs::QueryReading::literal_at))]
fn literal(alloc: Global, cursor: &mut Cursor) -> Result<Literal, Refusal>
    ensures { Gives (λ x. (x, cursor.new)) result (literal_at cursor.old) }
{
    if cursor.is_word(b"timestamp") {
        cursor.skip();
        Ok(Literal::Timestamp(cursor.text(alloc)?))
    } else {
        plain(alloc, cursor)
    }
}

struct NamedArgument;

impl Part for NamedArgument {
    type Value = Argument;

    ghost reads = { argument_at };

    #[tactic(auto, unfolding(crate::specs::QueryReading::argument_at))]
    fn read(alloc: Global, cursor: &mut Cursor) -> Result<Argument, Refusal> {
        let name = cursor.name(alloc)?;
        cursor.sign(Kind::Arrow)?;
        let value = literal(alloc, cursor)?;
        Ok(Argument { name, value })
    }
}

/// Reads some arguments with names, and the bracket.
#[tactic(auto, unfolding(crate::specs::QueryReading::named_at))]
fn named(alloc: Global, cursor: &mut Cursor) -> Result<Run<Argument>, Refusal>
    ensures { Gives (λ x. (x, cursor.new)) result (named_at cursor.old) }
{
    let arguments = list::<NamedArgument>(alloc, cursor, false)?;
    cursor.sign(Kind::Close)?;
    Ok(arguments)
}

/// Reads the arguments with names that stand behind these, and the bracket.
#[tactic(auto, unfolding(crate::specs::QueryReading::named_behind_at))]
fn named_behind(
    alloc: Global,
    cursor: &mut Cursor,
    front: Run<Argument>,
) -> Result<Run<Argument>, Refusal>
    ensures { Gives (λ x. (x, cursor.new)) result (named_behind_at front cursor.old) }
{
    if !cursor.is_sign(Kind::Comma) {
        cursor.sign(Kind::Close)?;
        return Ok(front);
    }
    cursor.skip();
    let arguments = list_behind::<NamedArgument>(alloc, cursor, front, false)?;
    cursor.sign(Kind::Close)?;
    Ok(arguments)
}

/// Reads the arguments by places that stand behind these, and the bracket, where so many places
/// are left. It is none behind a comma where no place is left.
#[tactic(auto, unfolding(crate::specs::QueryReading::placed_at))]
fn placed(
    alloc: Global,
    cursor: &mut Cursor,
    mut front: Run<Argument>,
    left: usize,
) -> Result<Option<Run<Argument>>, Refusal>
    requires { left ≤ 4 }
    ensures { Gives (λ x. (x, cursor.new)) result (placed_at front left cursor.old) }
{
    if !cursor.is_sign(Kind::Comma) {
        cursor.sign(Kind::Close)?;
        return Ok(Some(front));
    }
    cursor.skip();
    if left == 0 {
        return Ok(None);
    }
    let value = literal(alloc, cursor)?;
    let name = Word::of(alloc, place_name(left))?;
    front.push(Argument { name, value })?;
    placed(alloc, cursor, front, left - 1)
}

/// Reads what stands behind the first argument by its place.
#[tactic(auto, unfolding(crate::specs::QueryReading::first_at))]
fn first(
    alloc: Global,
    cursor: &mut Cursor,
    value: Literal,
) -> Result<Option<Run<Argument>>, Refusal>
    ensures { Gives (λ x. (x, cursor.new)) result (first_at value cursor.old) }
{
    let name = Word::of(alloc, place_name(5))?;
    let mut front = Run::new(alloc);
    front.push(Argument { name, value })?;
    placed(alloc, cursor, front, 4)
}

/// Reads what stands behind the word TIMESTAMP in front of all arguments: a text where it is a
/// literal, and `=>` where it is a name.
#[tactic(auto, unfolding(crate::specs::QueryReading::timestamp_at))]
fn behind_timestamp(
    alloc: Global,
    cursor: &mut Cursor,
    name: Word,
) -> Result<Option<Run<Argument>>, Refusal>
    ensures { Gives (λ x. (x, cursor.new)) result (timestamp_at name cursor.old) }
{
    if cursor.is_sign(Kind::Text) {
        let text = cursor.text(alloc)?;
        return first(alloc, cursor, Literal::Timestamp(text));
    }
    cursor.sign(Kind::Arrow)?;
    let value = literal(alloc, cursor)?;
    let mut front = Run::new(alloc);
    front.push(Argument { name, value })?;
    let arguments = named_behind(alloc, cursor, front)?;
    Ok(Some(arguments))
}

/// Reads the arguments and the bracket that closes them. It is none behind five arguments by
/// their places and a comma.
#[tactic(auto, unfolding(crate::specs::QueryReading::arguments_at))]
fn arguments(alloc: Global, cursor: &mut Cursor) -> Result<Option<Run<Argument>>, Refusal>
    ensures { Gives (λ x. (x, cursor.new)) result (arguments_at cursor.old) }
{
    if cursor.is_sign(Kind::Close) {
        cursor.skip();
        Ok(Some(Run::new(alloc)))
    } else if cursor.is_word(b"timestamp") {
        let name = cursor.spelled(alloc, b"timestamp")?;
        behind_timestamp(alloc, cursor, name)
    } else if cursor.is_name() {
        let arguments = named(alloc, cursor)?;
        Ok(Some(arguments))
    } else {
        let value = plain(alloc, cursor)?;
        first(alloc, cursor, value)
    }
}

#[tactic(auto, unfolding(crate::specs::QueryReading::select_at))]
fn select(cursor: &mut Cursor) -> Result<(), Refusal>
    ensures { Gives (λ _. (tt, cursor.new)) result (select_at cursor.old) }
{
    cursor.word(b"select")?;
    cursor.word(b"changerecord")?;
    cursor.word(b"from")
}

/// Reads what stands in front of the arguments, and gives the name behind FROM.
#[tactic(auto, unfolding(crate::specs::QueryReading::called_at))]
fn called(alloc: Global, cursor: &mut Cursor) -> Result<Word, Refusal>
    ensures { Gives (λ x. (x, cursor.new)) result (called_at cursor.old) }
{
    select(cursor)?;
    let function = cursor.function(alloc)?;
    cursor.sign(Kind::Open)?;
    Ok(function)
}

#[tactic(auto, unfolding(crate::specs::QueryReading::query_at))]
fn query<'t>(alloc: Global, tokens: &'t [Token<'t>]) -> Result<ReadQuery, Refusal>
    ensures { Gives (λ q. q) result (query_at tokens.now) }
{
    let mut cursor = Cursor::new(tokens);
    let function = called(alloc, &mut cursor)?;
    match arguments(alloc, &mut cursor)? {
        Some(arguments) => ended(
            ReadQuery {
                function,
                arguments,
            },
            &mut cursor,
        ),
        None => Err(Refusal::Left(cursor.left())),
    }
}

/// The query that a text is. `At` holds the place of the first token, or the end, with which no
/// query goes on, which behind five arguments by their places and a comma is the next token;
/// `Memory` is want of memory, and comes for no other reason.
pub fn parse_query(alloc: Global, text: &[u8]) -> Result<ReadQuery, SyntaxFault>
    ensures answers { Answers queries text.now result }
    ensures only { (q : Tree) → IsTextOf queries text.now q → IsThis q result }
{
    let tokens = tokens(alloc, text)?;
    let read = query(alloc, &tokens);
    answer(text.len(), &tokens, read)
}

/// A text is one query at most.
pub fn one_query()
    ensures { (bytes : List ℕ) (q r : Tree) → IsTextOf queries bytes q → IsTextOf queries bytes r → q ≡ r }
{}
