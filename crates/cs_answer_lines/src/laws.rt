ghost use Rattle.cs_answer_lines.specs.Writable.{PartCanStand, StartCanStand, EachCanStand, ScriptsAreKept, ScriptsAreWritable};

use cs_capture::captured_changes_can_be_grouped;
use cs_steps::captured_is_committed;

/// A law: a line can stand for each step that answers a READ, of a part or of none, of a stream
/// that has at most 65,536 parts, where a record can name each table and each transaction; and so
/// for the step at a place.
pub fn answers_can_stand()
    ensures part { PartCanStand }
    ensures start { StartCanStand }
    ensures each { EachCanStand }
{
    let _grouped = captured_changes_can_be_grouped();
    let _committed = captured_is_committed();
}

/// A law: so it is for a database that a script has made, whose catalog is sound and whose
/// modifications are a history.
pub fn scripts_can_stand()
    ensures kept { ScriptsAreKept }
    ensures writable { ScriptsAreWritable }
{}
