//! Rows of a board that are given back, and an entry that is taken in.
ghost use Rattle.std.specs.Prelude.{◌≡◌, ◌++◌, [], ◌∷◌, List, Some};
ghost use Rattle.cs_link.specs.declared.batch.Ending.{Ending as TheEnding};
ghost use Rattle.cs_schedule.specs.declared.entry.Entry.{Entry};
ghost use Rattle.cs_schedule.specs.Board.{IsOrdered};
ghost use Rattle.cs_schedule.specs.Follows.{IsBoardOf, IsNextOf};
ghost use Rattle.cs_schedule.specs.Update.{applied};
ghost use Rattle.cs_book.specs.Book.{rows_back, opening_back};
ghost use Rattle.cs_book.specs.Entries.{with_entry};
ghost use Rattle.cs_book.specs.Planned.{is_caught_up};

use cs_link::Ending;
use cs_schedule::{Board, Plan, boards_are_of_entries, leases_are_no_entries};
use cs_types::Token;

/// Whether a READ caught up with the present moment.
pub(crate) fn is_caught_up(ending: Ending) -> bool
    ensures { result ≡ is_caught_up ending }
{
    match ending {
        Ending::Finished => false,
        Ending::CaughtUp(_) => true,
        Ending::Cut => false,
        Ending::Full => false,
    }
}

/// Whether somebody still lists the parts at the window's start when a lease of a token is given back.
pub(crate) fn is_still_opening(token: &Option<Token>, is_opening: bool) -> bool
    ensures { result ≡ opening_back token.now is_opening }
{
    match token {
        None => false,
        Some(_) => is_opening,
    }
}

/// Gives the row of a token back.
pub(crate) fn give_row_back(board: &mut Board, token: &Option<Token>, caught_up: bool)
    ensures window { board.new.window ≡ board.old.window }
    ensures rows { board.new.rows ≡ rows_back token.now caught_up board.old.rows }
    ensures ordered { IsOrdered board.old.rows × IsOrdered board.new.rows }
    ensures entries { (es : List Entry) → IsBoardOf es board.old → IsBoardOf es board.new }
{
    leases_are_no_entries();
    let _before = board.rows();
    if let Some(token) = token {
        board.give_back(token, caught_up);
    }
    let _after = board.rows();
}

/// Takes the entry of a plan in, and gives the row of a token back.
pub(crate) fn take_in(board: &mut Board, plan: Plan, token: &Option<Token>, caught_up: bool)
    requires { IsNextOf board.old plan }
    ensures window { board.new.window ≡ board.old.window }
    ensures rows { board.new.rows ≡ rows_back token.now caught_up (applied board.old.window.start board.old.rows plan.entry) }
    ensures ordered { IsOrdered board.new.rows }
    ensures entries { (es : List Entry) → IsBoardOf es board.old → IsBoardOf (with_entry es plan.entry) board.new }
{
    boards_are_of_entries();
    board.apply(plan);
    give_row_back(board, token, caught_up);
}
