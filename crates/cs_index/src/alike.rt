ghost use Rattle.std.specs.Prelude.{◌≡◌, bytes_eq};
ghost use Rattle.cs_types.specs.Names.{columns_of};
ghost use Rattle.cs_steps.specs.Records.{kind_number, same_names, is_alike};

use cs_records::Captured;
use cs_types::{Cell, Kind, Text};

/// Whether both are the same bytes.
pub(crate) fn is_same(one: &Text, other: &Text) -> bool
    ensures { result ≡ bytes_eq one.now other.now }
{
    let one = one.as_str();
    let other = other.as_str();
    one == other
}

fn number(kind: Kind) -> u8
    ensures { result ≡ kind_number kind }
{
    match kind {
        Kind::Insert => 0,
        Kind::Update => 1,
        Kind::Delete => 2,
    }
}

/// Whether cells are of the same columns.
fn same_columns(one: &[Cell], other: &[Cell]) -> bool
    ensures { result ≡ same_names (columns_of one.now) (columns_of other.now) }
{
    if one.len() != other.len() {
        return false;
    }
    for index in 0..one.len() {
        if !is_same(&one[index].column, &other[index].column) {
            return false;
        }
    }
    true
}

/// Whether two changes may share a data record: they are of one table and kind, with the same
/// columns in their new and in their old cells.
pub(crate) fn is_alike(one: &Captured, other: &Captured) -> bool
    ensures { result ≡ is_alike one.now other.now }
{
    if !is_same(&one.change.row.table, &other.change.row.table) {
        return false;
    }
    if number(one.change.kind) != number(other.change.kind) {
        return false;
    }
    if !same_columns(one.change.new.items(), other.change.new.items()) {
        return false;
    }
    same_columns(one.change.old.items(), other.change.old.items())
}
