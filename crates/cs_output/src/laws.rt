ghost use Rattle.std.specs.Prelude.{◌≡◌, ◌≤◌, ℕ, List, All};
ghost use Rattle.std.specs.List.{AllZip};
ghost use Rattle.cs_types.specs.declared.change.Change.{Change};
ghost use Rattle.cs_types.specs.Database.{AreOfOneDatabase, AreChangesOfOneDatabase};
ghost use Rattle.cs_types.specs.Stamp.{IsStamp};
ghost use Rattle.cs_output.specs.Line.{change_line};
ghost use Rattle.cs_output.specs.Output.{Line as Meaning, text_of_lines, watermarks_of_lines};
ghost use Rattle.cs_output.specs.Reading.{IsReadable, Means, read_text, text_of_read};
ghost use Rattle.cs_output.specs.declared.reading.Line.{Line};

use cs_types::{moment_texts_are_plain, written_values_differ};

/// A law: the line of a change tells its transaction, its kind, its table and its stamp; among
/// changes of one database also its row, so that changes of different rows have different lines,
/// and all of its cells, so that different changes have different lines.
pub fn lines_tell_changes()
    ensures transaction { (c d : Change) → change_line c ≡ change_line d → c.tx ≡ d.tx }
    ensures kind { (c d : Change) → change_line c ≡ change_line d → c.kind ≡ d.kind }
    ensures table { (c d : Change) → change_line c ≡ change_line d → c.row.table ≡ d.row.table }
    ensures stamp { (c d : Change) → IsStamp c.stamp → IsStamp d.stamp → change_line c ≡ change_line d → c.stamp ≡ d.stamp }
    ensures row { (c d : Change) → AreOfOneDatabase c.row d.row → change_line c ≡ change_line d → c.row ≡ d.row }
    ensures change { (c d : Change) → AreChangesOfOneDatabase c d → change_line c ≡ change_line d → c ≡ d }
{
    moment_texts_are_plain();
    written_values_differ();
}

/// A law: lines that were read are told by their texts, and what they mean is one; lines and what
/// they mean have one text, and lines with the text of some lines of an output mean these, where no
/// watermark of them is above a stamp.
pub fn lines_have_one_meaning()
    ensures line { (x y : Line) → IsReadable x → IsReadable y → read_text x ≡ read_text y → x ≡ y }
    ensures text { (lines : List Line) (meanings : List Meaning) → AllZip Means lines meanings → text_of_read lines ≡ text_of_lines meanings }
    ensures meaning { (end : ℕ) (lines : List Line) (meanings : List Meaning) → IsStamp end → All (λ at. at ≤ end) (watermarks_of_lines meanings) → All IsReadable lines → text_of_read lines ≡ text_of_lines meanings → AllZip Means lines meanings }
{
    moment_texts_are_plain();
}
