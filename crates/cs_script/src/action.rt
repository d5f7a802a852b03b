use cs_place::Place;
use cs_txn::Write;
use cs_types::{Items, Text, Token};

/// What a line says beside its moment.
#[derive(Debug, Drop)]
pub(crate) enum Action {
    /// The text of a statement.
    Ddl(Text),
    /// A transaction.
    Commit(Commit),
    /// Parts of a stream that end, and the borders between those that follow them.
    Reshape(Reshape),
}

/// A transaction, as its line tells it.
#[derive(Debug, Drop)]
pub(crate) struct Commit {
    pub id: Text,
    pub tag: Text,
    pub writes: Items<Write>,
}

/// A reshape, as its line tells it.
#[derive(Debug, Drop)]
pub(crate) struct Reshape {
    pub stream: Text,
    pub parts: Items<Token>,
    pub borders: Items<Place>,
}

/// The three kinds of line.
#[derive(Clone, Copy, Debug, PartialEq, Eq)]
pub(crate) enum Word {
    Ddl,
    Commit,
    Reshape,
}
