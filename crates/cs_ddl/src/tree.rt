ghost use Rattle.std.specs.Prelude.{◌≡◌};

use crate::{CopyTree, Run, Word};
use std::alloc::AllocError;

/// A statement of the schema language.
#[derive(Debug, Drop)]
pub enum Statement {
    /// CREATE TABLE, with a column at least and a key column at least.
    CreateTable {
        /// The table.
        name: Word,
        /// Its columns, in order.
        columns: Run<ColumnTree>,
        /// The columns of its primary key, in order.
        key: Run<Word>,
    },
    /// ALTER TABLE .. ADD COLUMN.
    AddColumn {
        /// The table.
        table: Word,
        /// The new column.
        name: Word,
        /// Its type.
        ty: TypeTree,
    },
    /// CREATE CHANGE STREAM.
    CreateStream {
        /// The stream.
        name: Word,
        /// What it watches, where FOR stands.
        watch: Option<WatchTree>,
        /// Its options, none where OPTIONS is left out.
        options: Run<OptionTree>,
    },
    /// ALTER CHANGE STREAM .. SET FOR.
    SetWatch {
        /// The stream.
        name: Word,
        /// What it watches from then on.
        watch: WatchTree,
    },
    /// ALTER CHANGE STREAM .. DROP FOR ALL.
    DropWatch {
        /// The stream.
        name: Word,
    },
    /// ALTER CHANGE STREAM .. SET OPTIONS.
    SetOptions {
        /// The stream.
        name: Word,
        /// The options that are set, one at least.
        options: Run<OptionTree>,
    },
    /// DROP CHANGE STREAM.
    DropStream {
        /// The stream.
        name: Word,
    },
}

/// A column of CREATE TABLE.
#[derive(Debug, Drop)]
pub struct ColumnTree {
    /// Its name.
    pub name: Word,
    /// Its type.
    pub ty: TypeTree,
    /// Whether NOT NULL stands behind the type.
    pub not_null: bool,
}

/// The type of a column.
#[derive(Debug, Drop)]
pub enum TypeTree {
    /// BOOL.
    Bool,
    /// INT64.
    Int64,
    /// NUMERIC.
    Numeric,
    /// DATE.
    Date,
    /// TIMESTAMP.
    Timestamp,
    /// STRING of a greatest length in characters.
    Text(Size),
    /// BYTES of a greatest length in bytes.
    Bytes(Size),
}

/// The greatest length of a STRING or of BYTES.
#[derive(Debug, Drop)]
pub enum Size {
    /// MAX, the greatest of the type.
    Max,
    /// A number as it is spelled: an optional `-` and 1 to 19 digits.
    Number(Word),
}

/// What a change stream watches.
#[derive(Debug, Drop)]
pub enum WatchTree {
    /// ALL: each column of each table.
    All,
    /// Some tables, one at least.
    Tables(Run<WatchItem>),
}

/// One table of what a change stream watches.
#[derive(Debug, Drop)]
pub struct WatchItem {
    /// The table.
    pub table: Word,
    /// Its columns, where a list of them stands, which may be empty.
    pub columns: Option<Run<Word>>,
}

/// An option of a change stream.
#[derive(Debug, Drop)]
pub struct OptionTree {
    /// Its name.
    pub name: Word,
    /// Its value.
    pub value: OptionValue,
}

/// The value of an option.
#[derive(Debug, Drop)]
pub enum OptionValue {
    /// A text, without its quotes.
    Text(Word),
    /// TRUE.
    True,
    /// FALSE.
    False,
    /// NULL.
    Null,
}

/// A query that reads a change stream.
#[derive(Debug, Drop)]
pub struct ReadQuery {
    /// The name behind FROM, of 133 bytes at most.
    pub function: Word,
    /// The arguments. Those that stand without a name have the name of their place.
    pub arguments: Run<Argument>,
}

/// An argument of a query.
#[derive(Debug, Drop)]
pub struct Argument {
    /// Its name.
    pub name: Word,
    /// Its value.
    pub value: Literal,
}

/// The value of an argument.
#[derive(Debug, Drop)]
pub enum Literal {
    /// NULL.
    Null,
    /// A text, without its quotes.
    Text(Word),
    /// TIMESTAMP and a text, without its quotes.
    Timestamp(Word),
    /// A number as it is spelled: an optional `-` and 1 to 19 digits.
    Number(Word),
}

impl CopyTree for Statement {
    fn copy(&self) -> Result<Statement, AllocError> {
        Ok(match self {
            Statement::CreateTable { name, columns, key } => Statement::CreateTable {
                name: name.copy()?,
                columns: columns.copy()?,
                key: key.copy()?,
            },
            Statement::AddColumn { table, name, ty } => Statement::AddColumn {
                table: table.copy()?,
                name: name.copy()?,
                ty: ty.copy()?,
            },
            Statement::CreateStream {
                name,
                watch,
                options,
            } => Statement::CreateStream {
                name: name.copy()?,
                watch: watch.copy()?,
                options: options.copy()?,
            },
            Statement::SetWatch { name, watch } => Statement::SetWatch {
                name: name.copy()?,
                watch: watch.copy()?,
            },
            Statement::DropWatch { name } => Statement::DropWatch { name: name.copy()? },
            Statement::SetOptions { name, options } => Statement::SetOptions {
                name: name.copy()?,
                options: options.copy()?,
            },
            Statement::DropStream { name } => Statement::DropStream { name: name.copy()? },
        })
    }
}

impl CopyTree for ColumnTree {
    fn copy(&self) -> Result<ColumnTree, AllocError> {
        Ok(ColumnTree {
            name: self.name.copy()?,
            ty: self.ty.copy()?,
            not_null: self.not_null,
        })
    }
}

impl CopyTree for TypeTree {
    fn copy(&self) -> Result<TypeTree, AllocError> {
        Ok(match self {
            TypeTree::Bool => TypeTree::Bool,
            TypeTree::Int64 => TypeTree::Int64,
            TypeTree::Numeric => TypeTree::Numeric,
            TypeTree::Date => TypeTree::Date,
            TypeTree::Timestamp => TypeTree::Timestamp,
            TypeTree::Text(size) => TypeTree::Text(size.copy()?),
            TypeTree::Bytes(size) => TypeTree::Bytes(size.copy()?),
        })
    }
}

impl CopyTree for Size {
    fn copy(&self) -> Result<Size, AllocError> {
        match self {
            Size::Max => Ok(Size::Max),
            Size::Number(number) => Ok(Size::Number(number.copy()?)),
        }
    }
}

impl CopyTree for WatchTree {
    fn copy(&self) -> Result<WatchTree, AllocError> {
        match self {
            WatchTree::All => Ok(WatchTree::All),
            WatchTree::Tables(items) => Ok(WatchTree::Tables(items.copy()?)),
        }
    }
}

impl CopyTree for WatchItem {
    fn copy(&self) -> Result<WatchItem, AllocError> {
        Ok(WatchItem {
            table: self.table.copy()?,
            columns: self.columns.copy()?,
        })
    }
}

impl CopyTree for OptionTree {
    fn copy(&self) -> Result<OptionTree, AllocError> {
        Ok(OptionTree {
            name: self.name.copy()?,
            value: self.value.copy()?,
        })
    }
}

impl CopyTree for OptionValue {
    fn copy(&self) -> Result<OptionValue, AllocError> {
        match self {
            OptionValue::Text(text) => Ok(OptionValue::Text(text.copy()?)),
            OptionValue::True => Ok(OptionValue::True),
            OptionValue::False => Ok(OptionValue::False),
            OptionValue::Null => Ok(OptionValue::Null),
        }
    }
}

impl CopyTree for ReadQuery {
    fn copy(&self) -> Result<ReadQuery, AllocError> {
        Ok(ReadQuery {
            function: self.function.copy()?,
            arguments: self.arguments.copy()?,
        })
    }
}

impl CopyTree for Argument {
    fn copy(&self) -> Result<Argument, AllocError> {
        Ok(Argument {
            name: self.name.copy()?,
            value: self.value.copy()?,
        })
    }
}

impl CopyTree for Literal {
    fn copy(&self) -> Result<Literal, AllocError> {
        match self {
            Literal::Null => Ok(Literal::Null),
            Literal::Text(text) => Ok(Literal::Text(text.copy()?)),
            Literal::Timestamp(text) => Ok(Literal::Timestamp(text.copy()?)),
            Literal::Number(number) => Ok(Literal::Number(number.copy()?)),
        }
    }
}
