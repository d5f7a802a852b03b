// Whether wanted changes are such that they can be told apart by their lines.
ghost use Rattle.std.specs.Prelude.{◌≡◌, ◌↔◌, IfOk, IsTrue};
ghost use Rattle.cs_audit.specs.Audit.{HaveOwnLines, AreApart};
ghost use Rattle.cs_audit.specs.Index.{DifferBy, DifferInLines, name_of};

use cs_output::{line_of, lines_tell_changes};
use cs_types::{Change, Duplicate, Memory, RowName, Text};
use std::alloc::Global;
use std::collections::BTreeMap;

/// Whether `audit` may be called with these wanted changes: those of different rows have different
/// lines, and no two agree in both transaction and row. It is for a caller that does not know it
/// otherwise.
pub fn can_be_audited(alloc: Global, wanted: &[Change]) -> Result<bool, Memory>
    ensures { IfOk result (λ b. IsTrue b ↔ (HaveOwnLines wanted.now × AreApart wanted.now)) }
{
    lines_tell_changes();
    if !lines_differ(alloc, wanted)? {
        return Ok(false);
    }
    names_differ(alloc, wanted)
}

/// Whether no two changes have one line.
fn lines_differ(alloc: Global, wanted: &[Change]) -> Result<bool, Memory>
    ensures { IfOk result (λ b. IsTrue b ↔ DifferInLines wanted.now) }
{
    let mut places = BTreeMap::new(alloc);
    for (place, change) in wanted.iter().enumerate() {
        let line = line_of(alloc, change)?;
        if let Some(_earlier) = places.insert(line, place)? {
            return Ok(false);
        }
    }
    Ok(true)
}

/// The row and the transaction of a change.
#[derive(Drop, PartialEq, Eq, PartialOrd, Ord)]
struct Name {
    row: RowName,
    tx: Text,
}

/// Whether no two changes agree in both row and transaction.
fn names_differ(alloc: Global, wanted: &[Change]) -> Result<bool, Memory>
    ensures { IfOk result (λ b. IsTrue b ↔ DifferBy name_of wanted.now) }
{
    let mut places = BTreeMap::new(alloc);
    for (place, change) in wanted.iter().enumerate() {
        let name = named(change)?;
        if let Some(_earlier) = places.insert(name, place)? {
            return Ok(false);
        }
    }
    Ok(true)
}

fn named(change: &Change) -> Result<Name, Memory>
    ensures { IfOk result (λ name. name ≡ name_of change.now) }
{
    Ok(Name {
        row: change.row.copy()?,
        tx: change.tx.copy()?,
    })
}
