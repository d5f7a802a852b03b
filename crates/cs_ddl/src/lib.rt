//! SQL texts as trees: the statements of the schema language, and the query that reads a change
//! stream.
#![tactic(auto)]

mod answer;
mod cursor;
mod fault;
mod grammar;
mod lex;
mod list;
mod query;
mod reserved;
mod run;
mod statement;
mod token;
mod tree;
mod word;

pub use fault::SyntaxFault;
pub use lex::spans_in_order;
pub use query::{one_query, parse_query};
pub use run::{CopyTree, Run};
pub use statement::{one_tree, parse_ddl};
pub use token::{Kind, Token};
pub use tree::{
    Argument, ColumnTree, Literal, OptionTree, OptionValue, ReadQuery, Size, Statement, TypeTree,
    WatchItem, WatchTree,
};
pub use word::Word;
