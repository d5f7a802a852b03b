ghost use Rattle.cs_steps.specs.Captures.{CapturedIsCommitted};
ghost use Rattle.cs_steps.specs.Cursor.{GroupsAreSlices, SourceHasSteps};
ghost use Rattle.cs_steps.specs.Refusals.{FirstIsRight, NoneIsRight};
ghost use Rattle.cs_steps.specs.Worked.{Begins, CatchesUp, Finishes, Shifts};
ghost use Rattle.cs_steps.specs.Honest.{IsFeedOfCommitted, PartIsHonest, StartIsHonest};

use cs_capture::captured_changes_can_be_grouped;
use cs_place::tokens_name_parts;
use cs_records::runs_are_told;

/// A law: what a stream of the scripted database has to give is a feed, and the steps that answer
/// a READ which no refusal meets are those of an honest server for that feed.
pub fn steps_are_honest()
    ensures feed { IsFeedOfCommitted }
    ensures part { PartIsHonest }
    ensures start { StartIsHonest }
{
    let _runs = runs_are_told();
}

/// A law: the steps over the records of a part, from the start to the last moment, with the
/// children where the part has ended, are those of a READ of the part; and each child record has the
/// next 1,024 of its children.
pub fn steps_are_those_of_the_records()
    ensures steps { SourceHasSteps }
    ensures children { GroupsAreSlices }
{}

/// A law: the first refusal is one whose condition holds for the feed, and where there is none no
/// condition holds.
pub fn refusals_are_right()
    ensures first { FirstIsRight }
    ensures none { NoneIsRight }
{
    let _tokens = tokens_name_parts();
}

/// A law: what a stream captures of a history that a database keeps is as its feed needs it.
pub fn captured_is_committed()
    ensures { CapturedIsCommitted }
{
    let _grouped = captured_changes_can_be_grouped();
}

/// A law: the answers of worked READs.
pub fn worked_answers()
    ensures catches_up { CatchesUp }
    ensures finishes { Finishes }
    ensures shifts { Shifts }
    ensures begins { Begins }
{}
