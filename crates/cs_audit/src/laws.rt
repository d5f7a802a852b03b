ghost use Rattle.std.specs.Prelude.{List};
ghost use Rattle.std.specs.List.{AllPairs};
ghost use Rattle.cs_types.specs.Database.{AreChangesOfOneDatabase};
ghost use Rattle.cs_types.specs.declared.change.Change.{Change};
ghost use Rattle.cs_audit.specs.Audit.{HaveOwnLines};

use cs_output::lines_tell_changes;

/// A law: where any two changes are of one database, those of different rows have different lines,
/// which is the first of the two conditions of `audit`.
pub fn changes_of_one_database_have_own_lines()
    ensures { (wanted : List Change) → AllPairs AreChangesOfOneDatabase wanted → HaveOwnLines wanted }
{
    lines_tell_changes();
}
