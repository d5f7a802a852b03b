ghost use Rattle.std.specs.Prelude.{◌≡◌, ℕ, List};
ghost use Rattle.cs_ddl.specs.Reading.{Gives, name_at};
ghost use Rattle.cs_ddl.specs.Productions.{columns_at, item_at, watch_at, for_at, size_at, sized_at, type_at, not_null_at, column_at, key_at, column_list_at, key_list_at, table_at, value_at, option_at, option_list_at, options_at, stream_at, change_at, set_at, alter_stream_at, add_column_at, alter_at, create_at, drop_at, statement_at};

use crate::cursor::Cursor;
use crate::fault::Refusal;
use crate::list::{Part, list};
use crate::token::Kind;
use crate::{
    ColumnTree, OptionTree, OptionValue, Run, Size, Statement, TypeTree, WatchItem, WatchTree, Word,
};
use std::alloc::Global;

struct Name;

impl Part for Name {
    type Value = Word;

    ghost reads = { name_at };

    fn read(alloc: Global, cursor: &mut Cursor) -> Result<Word, Refusal> {
        cursor.name(alloc)
    }
}

struct Item;

impl Part for Item {
    type Value = WatchItem;

    ghost reads = { item_at };

    #[tactic(auto, unfolding(crate::specs::Productions::item_at))]
    fn read(alloc: Global, cursor: &mut Cursor) -> Result<WatchItem, Refusal> {
        let table = cursor.name(alloc)?;
        let columns = columns(alloc, cursor)?;
        Ok(WatchItem { table, columns })
    }
}

#[tactic(auto, unfolding(crate::specs::Productions::columns_at))]
fn columns(alloc: Global, cursor: &mut Cursor) -> Result<Option<Run<Word>>, Refusal>
    ensures { Gives (λ x. (x, cursor.new)) result (columns_at cursor.old) }
{
    if !cursor.is_sign(Kind::Open) {
        return Ok(None);
    }
    cursor.skip();
    if cursor.is_sign(Kind::Close) {
        cursor.skip();
        return Ok(Some(Run::new(alloc)));
    }
    let names = list::<Name>(alloc, cursor, false)?;
    cursor.sign(Kind::Close)?;
    Ok(Some(names))
}

#[tactic(auto, unfolding(crate::specs::Productions::watch_at))]
fn watch(alloc: Global, cursor: &mut Cursor) -> Result<WatchTree, Refusal>
    ensures { Gives (λ x. (x, cursor.new)) result (watch_at cursor.old) }
{
    if cursor.is_word(b"all") {
        cursor.skip();
        Ok(WatchTree::All)
    } else {
        Ok(WatchTree::Tables(list::<Item>(alloc, cursor, false)?))
    }
}

#[tactic(auto, unfolding(crate::specs::Productions::for_at))]
fn for_watch(alloc: Global, cursor: &mut Cursor) -> Result<Option<WatchTree>, Refusal>
    ensures { Gives (λ x. (x, cursor.new)) result (for_at cursor.old) }
{
    if cursor.is_word(b"for") {
        cursor.skip();
        Ok(Some(watch(alloc, cursor)?))
    } else {
        Ok(None)
    }
}

#[tactic(auto, unfolding(crate::specs::Productions::size_at))]
fn size(alloc: Global, cursor: &mut Cursor) -> Result<Size, Refusal>
    ensures { Gives (λ x. (x, cursor.new)) result (size_at cursor.old) }
{
    if cursor.is_word(b"max") {
        cursor.skip();
        Ok(Size::Max)
    } else {
        Ok(Size::Number(cursor.number(alloc)?))
    }
}

#[tactic(auto, unfolding(crate::specs::Productions::sized_at))]
fn sized(alloc: Global, cursor: &mut Cursor) -> Result<Size, Refusal>
    ensures { Gives (λ x. (x, cursor.new)) result (sized_at cursor.old) }
{
    cursor.sign(Kind::Open)?;
    let size = size(alloc, cursor)?;
    cursor.sign(Kind::Close)?;
    Ok(size)
}

#[tactic(auto, unfolding(crate::specs::Productions::type_at))]
fn ty(alloc: Global, cursor: &mut Cursor) -> Result<TypeTree, Refusal>
    ensures { Gives (λ x. (x, cursor.new)) result (type_at cursor.old) }
{
    if cursor.is_word(b"bool") {
        cursor.skip();
        Ok(TypeTree::Bool)
    } else if cursor.is_word(b"int64") {
        cursor.skip();
        Ok(TypeTree::Int64)
    } else if cursor.is_word(b"numeric") {
        cursor.skip();
        Ok(TypeTree::Numeric)
    } else if cursor.is_word(b"date") {
        cursor.skip();
        Ok(TypeTree::Date)
    } else if cursor.is_word(b"timestamp") {
        cursor.skip();
        Ok(TypeTree::Timestamp)
    } else if cursor.is_word(b"string") {
        cursor.skip();
        Ok(TypeTree::Text(sized(alloc, cursor)?))
    } else {
        cursor.word(b"bytes")?;
        Ok(TypeTree::Bytes(sized(alloc, cursor)?))
    }
}

#[tactic(auto, unfolding(crate::specs::Productions::not_null_at))]
fn not_null(cursor: &mut Cursor) -> Result<bool, Refusal>
    ensures { Gives (λ x. (x, cursor.new)) result (not_null_at cursor.old) }
{
    if cursor.is_word(b"not") {
        cursor.skip();
        cursor.word(b"null")?;
        Ok(true)
    } else {
        Ok(false)
    }
}

struct Column;

impl Part for Column {
    type Value = ColumnTree;

    ghost reads = { column_at };

    #[tactic(auto, unfolding(crate::specs::Productions::column_at))]
    fn read(alloc: Global, cursor: &mut Cursor) -> Result<ColumnTree, Refusal> {
        let name = cursor.name(alloc)?;
        let ty = ty(alloc, cursor)?;
        let not_null = not_null(cursor)?;
        Ok(ColumnTree { name, ty, not_null })
    }
}

struct Key;

impl Part for Key {
    type Value = Word;

    ghost reads = { key_at };

    #[tactic(auto, unfolding(crate::specs::Productions::key_at))]
    fn read(alloc: Global, cursor: &mut Cursor) -> Result<Word, Refusal> {
        let name = cursor.name(alloc)?;
        cursor.may_word(b"asc");
        Ok(name)
    }
}

#[tactic(auto, unfolding(crate::specs::Productions::column_list_at))]
fn column_list(alloc: Global, cursor: &mut Cursor) -> Result<Run<ColumnTree>, Refusal>
    ensures { Gives (λ x. (x, cursor.new)) result (column_list_at cursor.old) }
{
    cursor.sign(Kind::Open)?;
    let columns = list::<Column>(alloc, cursor, true)?;
    cursor.sign(Kind::Close)?;
    Ok(columns)
}

#[tactic(auto, unfolding(crate::specs::Productions::key_list_at))]
fn key_list(alloc: Global, cursor: &mut Cursor) -> Result<Run<Word>, Refusal>
    ensures { Gives (λ x. (x, cursor.new)) result (key_list_at cursor.old) }
{
    cursor.word(b"primary")?;
    cursor.word(b"key")?;
    cursor.sign(Kind::Open)?;
    let key = list::<Key>(alloc, cursor, false)?;
    cursor.sign(Kind::Close)?;
    Ok(key)
}

#[tactic(auto, unfolding(crate::specs::Productions::table_at))]
fn table(alloc: Global, cursor: &mut Cursor) -> Result<Statement, Refusal>
    ensures { Gives (λ x. (x, cursor.new)) result (table_at cursor.old) }
{
    let name = cursor.name(alloc)?;
    let columns = column_list(alloc, cursor)?;
    let key = key_list(alloc, cursor)?;
    Ok(Statement::CreateTable { name, columns, key })
}

#[tactic(auto, unfolding(crate::specs::Productions::value_at))]
fn value(alloc: Global, cursor: &mut Cursor) -> Result<OptionValue, Refusal>
    ensures { Gives (λ x. (x, cursor.new)) result (value_at cursor.old) }
{
    if cursor.is_word(b"true") {
        cursor.skip();
        Ok(OptionValue::True)
    } else if cursor.is_word(b"false") {
        cursor.skip();
        Ok(OptionValue::False)
    } else if cursor.is_word(b"null") {
        cursor.skip();
        Ok(OptionValue::Null)
    } else {
        Ok(OptionValue::Text(cursor.text(alloc)?))
    }
}

struct Setting;

impl Part for Setting {
    type Value = OptionTree;

    ghost reads = { option_at };

    #[tactic(auto, unfolding(crate::specs::Productions::option_at))]
    fn read(alloc: Global, cursor: &mut Cursor) -> Result<OptionTree, Refusal> {
        let name = cursor.name(alloc)?;
        cursor.sign(Kind::Equals)?;
        let value = value(alloc, cursor)?;
        Ok(OptionTree { name, value })
    }
}

#[tactic(auto, unfolding(crate::specs::Productions::option_list_at))]
fn option_list(alloc: Global, cursor: &mut Cursor) -> Result<Run<OptionTree>, Refusal>
    ensures { Gives (λ x. (x, cursor.new)) result (option_list_at cursor.old) }
{
    cursor.sign(Kind::Open)?;
    let options = list::<Setting>(alloc, cursor, false)?;
    cursor.sign(Kind::Close)?;
    Ok(options)
}

#[tactic(auto, unfolding(crate::specs::Productions::options_at))]
fn options(alloc: Global, cursor: &mut Cursor) -> Result<Run<OptionTree>, Refusal>
    ensures { Gives (λ x. (x, cursor.new)) result (options_at cursor.old) }
{
    if cursor.is_word(b"options") {
        cursor.skip();
        option_list(alloc, cursor)
    } else {
        Ok(Run::new(alloc))
    }
}

#[tactic(auto, unfolding(crate::specs::Productions::stream_at))]
fn stream(alloc: Global, cursor: &mut Cursor) -> Result<Statement, Refusal>
    ensures { Gives (λ x. (x, cursor.new)) result (stream_at cursor.old) }
{
    cursor.word(b"stream")?;
    let name = cursor.name(alloc)?;
    let watch = for_watch(alloc, cursor)?;
    let options = options(alloc, cursor)?;
    Ok(Statement::CreateStream {
        name,
        watch,
        options,
    })
}

/// What is set of a stream.
#[derive(Debug, Drop)]
pub(crate) enum Change {
    Watch(WatchTree),
    Options(Run<OptionTree>),
    Nothing,
}

#[tactic(auto, unfolding(crate::specs::Productions::change_at))]
fn change_of(alloc: Global, cursor: &mut Cursor) -> Result<Change, Refusal>
    ensures { Gives (λ x. (x, cursor.new)) result (change_at cursor.old) }
{
    if cursor.is_word(b"set") {
        cursor.skip();
        set(alloc, cursor)
    } else {
        cursor.word(b"drop")?;
        cursor.word(b"for")?;
        cursor.word(b"all")?;
        Ok(Change::Nothing)
    }
}

#[tactic(auto, unfolding(crate::specs::Productions::set_at))]
fn set(alloc: Global, cursor: &mut Cursor) -> Result<Change, Refusal>
    ensures { Gives (λ x. (x, cursor.new)) result (set_at cursor.old) }
{
    if cursor.is_word(b"for") {
        cursor.skip();
        Ok(Change::Watch(watch(alloc, cursor)?))
    } else {
        cursor.word(b"options")?;
        Ok(Change::Options(option_list(alloc, cursor)?))
    }
}

#[tactic(auto, unfolding(crate::specs::Productions::alter_stream_at))]
fn alter_stream(alloc: Global, cursor: &mut Cursor) -> Result<Statement, Refusal>
    ensures { Gives (λ x. (x, cursor.new)) result (alter_stream_at cursor.old) }
{
    cursor.word(b"stream")?;
    let name = cursor.name(alloc)?;
    match change_of(alloc, cursor)? {
        Change::Watch(watch) => Ok(Statement::SetWatch { name, watch }),
        Change::Options(options) => Ok(Statement::SetOptions { name, options }),
        Change::Nothing => Ok(Statement::DropWatch { name }),
    }
}

#[tactic(auto, unfolding(crate::specs::Productions::add_column_at))]
fn add_column(alloc: Global, cursor: &mut Cursor) -> Result<Statement, Refusal>
    ensures { Gives (λ x. (x, cursor.new)) result (add_column_at cursor.old) }
{
    let table = cursor.name(alloc)?;
    cursor.word(b"add")?;
    cursor.word(b"column")?;
    let name = cursor.name(alloc)?;
    let ty = ty(alloc, cursor)?;
    Ok(Statement::AddColumn { table, name, ty })
}

#[tactic(auto, unfolding(crate::specs::Productions::alter_at))]
fn alter(alloc: Global, cursor: &mut Cursor) -> Result<Statement, Refusal>
    ensures { Gives (λ x. (x, cursor.new)) result (alter_at cursor.old) }
{
    if cursor.is_word(b"table") {
        cursor.skip();
        add_column(alloc, cursor)
    } else {
        cursor.word(b"change")?;
        alter_stream(alloc, cursor)
    }
}

#[tactic(auto, unfolding(crate::specs::Productions::create_at))]
fn create(alloc: Global, cursor: &mut Cursor) -> Result<Statement, Refusal>
    ensures { Gives (λ x. (x, cursor.new)) result (create_at cursor.old) }
{
    if cursor.is_word(b"table") {
        cursor.skip();
        table(alloc, cursor)
    } else {
        cursor.word(b"change")?;
        stream(alloc, cursor)
    }
}

#[tactic(auto, unfolding(crate::specs::Productions::drop_at))]
fn drop_stream(alloc: Global, cursor: &mut Cursor) -> Result<Statement, Refusal>
    ensures { Gives (λ x. (x, cursor.new)) result (drop_at cursor.old) }
{
    cursor.word(b"change")?;
    cursor.word(b"stream")?;
    let name = cursor.name(alloc)?;
    Ok(Statement::DropStream { name })
}

#[tactic(auto, unfolding(crate::specs::Productions::statement_at))]
pub(crate) fn statement(alloc: Global, cursor: &mut Cursor) -> Result<Statement, Refusal>
    ensures { Gives (λ x. (x, cursor.new)) result (statement_at cursor.old) }
{
    if cursor.is_word(b"create") {
        cursor.skip();
        create(alloc, cursor)
    } else if cursor.is_word(b"alter") {
        cursor.skip();
        alter(alloc, cursor)
    } else {
        cursor.word(b"drop")?;
        drop_stream(alloc, cursor)
    }
}
