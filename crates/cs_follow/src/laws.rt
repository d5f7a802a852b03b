ghost use Rattle.cs_follow.specs.Ended.{EndedIsComplete};

use cs_text::consistent_texts_are_good;

/// A law: where a follower has ended, and its entries are consistent, their output is complete.
pub fn ended_texts_are_complete()
    ensures { EndedIsComplete }
{
    consistent_texts_are_good();
}
