ghost use Rattle.cs_room.specs.Laws.{RoomIsEnough, FrameIsExact, ReadBringsOn, FirstBringsOn, SomethingIsPlanned, EntryLowers, EntryIsCarried, LowIsOfEntries, LowStays, DueIsAtLow};

use cs_schedule::{boards_stay_consistent, journals_stay_consistent, rows_stay_right};

/// A law: no more is expected behind consistent entries than the room, whose frame of an entry is
/// the least that serves.
pub fn room_is_enough()
    ensures enough { RoomIsEnough }
    ensures frame { FrameIsExact }
{}

/// A law: a faithful batch that brings its part on by the pace brings its row on, and so always
/// makes an entry.
pub fn something_is_planned()
    ensures brings { ReadBringsOn }
    ensures first { FirstBringsOn }
    ensures some { SomethingIsPlanned }
{}

/// A law: the entry of such a batch lowers what is expected by its own bytes, so that it fits in
/// where what is expected does.
pub fn entries_are_carried()
    ensures lowers { EntryLowers }
    ensures carried { EntryIsCarried }
{
    boards_stay_consistent();
    journals_stay_consistent();
    rows_stay_right();
}

/// A law: the least start of a READ never falls with an entry, and no READ starts below it.
pub fn reads_start_at_low()
    ensures of { LowIsOfEntries }
    ensures stays { LowStays }
    ensures due { DueIsAtLow }
{
    boards_stay_consistent();
    journals_stay_consistent();
    rows_stay_right();
}
