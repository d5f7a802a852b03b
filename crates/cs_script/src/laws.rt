ghost use Rattle.std.specs.Prelude.{◌≡◌, ℕ, List, Result};
ghost use Rattle.cs_script.specs.declared.fault.ScriptFault.{ScriptFault};
ghost use Rattle.cs_script.specs.Database.{Database};
ghost use Rattle.cs_script.specs.Readings.{Reading};
ghost use Rattle.cs_script.specs.Script.{Makes};
ghost use Rattle.cs_script.specs.Takes.{Takes};

use cs_ddl::one_tree;
use cs_types::written_stamps_read_back;

/// A law: a line does one thing to a database.
pub fn a_line_does_one_thing()
    ensures { (db : Database) (line : List ℕ) (a b : Reading Database) → Takes db line a → Takes db line b → a ≡ b }
{
    written_stamps_read_back();
    one_tree();
}

/// A law: a script makes one thing.
pub fn a_script_makes_one_thing()
    ensures { (bytes : List ℕ) (a b : Result Database ScriptFault) → Makes bytes a → Makes bytes b → a ≡ b }
{
    written_stamps_read_back();
    one_tree();
}
