//! What a stream captures of a history, written as an output, read back and audited.

ghost use Rattle.std.specs.Prelude.{◌↔◌, IfOk, IsTrue};
ghost use Rattle.cs_types.specs.Database.{IsName};
ghost use Rattle.cs_audit.specs.Audit.{HaveOwnLines, AreApart};
ghost use Rattle.cs_txn.specs.Fits.{HaveNames, IsHistoryOf};

use crate::commits;
use crate::trouble::Trouble;
use cs_audit::{Verdict, audit, changes_of_one_database_have_own_lines};
use cs_capture::{changes_are_of_one_database, wanted};
use cs_output::{read_lines, whole_text};
use cs_schema::{Catalog, Stream, Table};
use cs_txn::History;
use cs_types::{Change, Items, Memory, Stamp};
use std::alloc::Global;

/// Whether the table's name has no byte 00.
fn is_named(table: &Table) -> bool
    ensures { IsTrue result ↔ IsName table.now.name }
{
    let name = table.name.as_str().as_bytes();
    name.iter().all(|byte| *byte > 0)
}

/// Whether no table has a name with a byte 00.
fn are_named(tables: &[Table]) -> bool
    ensures { IsTrue result ↔ HaveNames tables.now }
{
    tables.iter().all(|table| is_named(table))
}

/// The changes that a stream captures of a history of the catalog. They can be told apart by their
/// lines.
fn changes(
    alloc: Global,
    catalog: &Catalog,
    history: &History,
    stream: &Stream,
    start: Stamp,
    end: Stamp,
) -> Result<Items<Change>, Memory>
    requires history { IsHistoryOf catalog.now.tables history.now }
    requires names { HaveNames catalog.now.tables }
    ensures own_lines { IfOk result (λ changes. HaveOwnLines changes) }
    ensures apart { IfOk result (λ changes. AreApart changes) }
{
    changes_are_of_one_database();
    changes_of_one_database_have_own_lines();
    prove!(start.us() <= Stamp::GREATEST);
    prove!(end.us() <= Stamp::GREATEST);
    let _tables = catalog.tables();
    let _items = history.modifications();
    wanted(alloc, history, catalog, stream, start, end)
}

/// The changes that the stream S captures of so many commits, up to the end.
fn captured(alloc: Global, count: u32, end: Stamp) -> Result<Items<Change>, Trouble>
    ensures own_lines { IfOk result (λ changes. HaveOwnLines changes) }
    ensures apart { IfOk result (λ changes. AreApart changes) }
{
    let catalog = commits::catalog(alloc)?;
    let history = commits::history(alloc, &catalog, count)?;
    if !are_named(catalog.tables().as_slice()) {
        return Err(Trouble::Statement);
    }
    let start = commits::moment(0)?;
    match catalog.streams().first() {
        Some(stream) => Ok(changes(alloc, &catalog, &history, stream, start, end)?),
        None => Err(Trouble::Statement),
    }
}

/// Says that the output of so many commits is found to be complete.
pub fn audited(alloc: Global, count: u32) -> Result<String, Trouble> {
    let end = commits::moment(count)?;
    let wanted = captured(alloc, count, end)?;
    let text = whole_text(alloc, wanted.as_slice(), end)?;
    let lines = read_lines(alloc, text.as_str().as_bytes())?;
    let changes = wanted.as_slice().len();
    let found = lines.as_slice().len();
    match audit(alloc, lines.as_slice(), wanted.as_slice(), end)? {
        Verdict::Complete => Ok(format!(in alloc;
            "audit {count}: {changes} changes, {found} lines, Complete"
        )?),
        _ => Err(Trouble::Output),
    }
}
