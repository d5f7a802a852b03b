//! Why there is no answer.

use cs_ddl::SyntaxFault;
use cs_link::LinkAnswer;
use cs_output::TextFault;
use cs_schema::SchemaFault;
use cs_txn::TxnFault;
use cs_types::{CellsFault, Memory};
use std::alloc::AllocError;
use std::fmt;

/// Why there is no answer.
#[derive(Debug, Drop)]
pub enum Trouble {
    /// The words name nothing that can be run.
    Words,
    /// A file cannot be read.
    File,
    /// A moment is none.
    Moment,
    /// A statement is refused.
    Statement,
    /// Cells are refused.
    Cells,
    /// A transaction is refused.
    Transaction,
    /// A transaction that is too large is not refused as such.
    Limit,
    /// A script is refused.
    Script,
    /// A query is refused.
    Query,
    /// Two changes cannot be told apart.
    Changes,
    /// An output is not read back, or is not found to be complete.
    Output,
    /// Want of memory.
    Memory,
}

impl fmt::Display for Trouble {
    fn fmt<W: fmt::Write>(&self, f: &mut fmt::Formatter<W>) -> fmt::Result {
        let text = match self {
            Trouble::Words => "the words name nothing that can be run",
            Trouble::File => "the file cannot be read",
            Trouble::Moment => "a moment is none",
            Trouble::Statement => "a statement is refused",
            Trouble::Cells => "cells are refused",
            Trouble::Transaction => "a transaction is refused",
            Trouble::Limit => "a transaction that is too large is not refused as such",
            Trouble::Script => "a script is refused",
            Trouble::Query => "a query is refused",
            Trouble::Changes => "two changes cannot be told apart",
            Trouble::Output => "the output is not read back, or is not found to be complete",
            Trouble::Memory => "memory was wanting",
        };
        f.write_str(text)
    }
}

impl From<Memory> for Trouble {
    fn from(_: Memory) -> Trouble {
        Trouble::Memory
    }
}

impl From<AllocError> for Trouble {
    fn from(_: AllocError) -> Trouble {
        Trouble::Memory
    }
}

impl From<CellsFault> for Trouble {
    fn from(fault: CellsFault) -> Trouble {
        match fault {
            CellsFault::Memory => Trouble::Memory,
            _ => Trouble::Cells,
        }
    }
}

impl From<TextFault> for Trouble {
    fn from(fault: TextFault) -> Trouble {
        match fault {
            TextFault::Memory => Trouble::Memory,
            _ => Trouble::Output,
        }
    }
}

impl From<SchemaFault> for Trouble {
    fn from(fault: SchemaFault) -> Trouble {
        match fault {
            SchemaFault::Memory => Trouble::Memory,
            _ => Trouble::Statement,
        }
    }
}

impl From<TxnFault> for Trouble {
    fn from(fault: TxnFault) -> Trouble {
        match fault {
            TxnFault::Memory => Trouble::Memory,
            _ => Trouble::Transaction,
        }
    }
}

impl From<SyntaxFault> for Trouble {
    fn from(fault: SyntaxFault) -> Trouble {
        match fault {
            SyntaxFault::Memory => Trouble::Memory,
            _ => Trouble::Query,
        }
    }
}

impl From<LinkAnswer> for Trouble {
    fn from(answer: LinkAnswer) -> Trouble {
        match answer {
            LinkAnswer::Memory => Trouble::Memory,
            _ => Trouble::Query,
        }
    }
}
