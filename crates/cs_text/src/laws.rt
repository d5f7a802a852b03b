ghost use Rattle.std.specs.Prelude.{◌≡◌, ◌++◌, [], ◌∷◌, List};
ghost use Rattle.cs_types.specs.declared.names.Window.{Window};
ghost use Rattle.cs_schedule.specs.declared.entry.Entry.{Entry};
ghost use Rattle.cs_schedule.specs.declared.entry.Entry.TheVariants.{Begin};
ghost use Rattle.cs_text.specs.Output.{output_of, marked_of, added_by, mark_with, ConsistentTextIsGood, FinishedTextIsComplete};

use cs_schedule::consistent_journals_are_good;

/// A law: the output of entries and one more is theirs with the lines of this one behind it, and
/// the mark of its last watermark goes on so; that of the entry that begins is empty.
pub fn texts_are_by_entries()
    ensures text { (w : Window) (es : List Entry) (e : Entry) → output_of w (es ++ e ∷ []) ≡ output_of w es ++ added_by w es e }
    ensures mark { (w : Window) (es : List Entry) (e : Entry) → marked_of w (es ++ e ∷ []) ≡ mark_with w es e }
    ensures first { (w : Window) → (output_of w (Begin w ∷ []) ≡ []) × (marked_of w (Begin w ∷ []) ≡ w.start) }
{}

/// A law: the output of consistent entries is good for the wanted changes of the window, and
/// complete where they have rows and all are finished.
pub fn consistent_texts_are_good()
    ensures good { ConsistentTextIsGood }
    ensures complete { FinishedTextIsComplete }
{
    consistent_journals_are_good();
}
