//! What is to be done next over the board of a book.
ghost use Rattle.std.specs.Prelude.{◌≡◌, ◌<◌, true, false, length, slice_index_or, IfOk, OnErr};
ghost use Rattle.cs_schedule.specs.declared.row.Row.{Row as TheRow};
ghost use Rattle.cs_schedule.specs.Board.{may_read, ready_place};
ghost use Rattle.cs_schedule.specs.Follows.{IsLeasedAt};
ghost use Rattle.cs_book.specs.Waiting.{AreWithin, NoneMayRead};
ghost use Rattle.cs_book.specs.Claim.{IsLeasedRow, is_leased, IsStuck, IsNext, opening_after};

use crate::lease::{Lease, lease_of, lease_of_first};
use crate::waiting::{first_missing, first_unfinished};
use cs_schedule::{Board, Row, leases_are_no_entries, rows_stay_right};
use cs_types::{Duplicate, Memory, Token};
use std::alloc::Global;

/// What is to be done by one who asks for work.
#[derive(Debug, Drop)]
pub enum Claim {
    /// The parts at the window's start are to be listed; nobody else does so from now on.
    Initial(Lease),
    /// A row is to be read, which is leased from now on.
    Row(Lease),
    /// Nothing, until somebody who is at work is done.
    Busy,
    /// Nothing, and nobody is at work: the first unfinished row waits for this parent, and no row may
    /// be read.
    Orphan(Token, Token),
    /// Nothing: all rows are finished.
    Done,
}

fn is_leased(rows: &[Row]) -> bool
    ensures { result ≡ is_leased rows.now }
{
    let mut rest = rows;
    while let [first, after @ ..] = rest {
        if first.leased {
            return true;
        }
        rest = after;
    }
    false
}

/// What is left where no row may be read and there are rows.
fn stuck(board: &Board) -> Result<Claim, Memory>
    requires { NoneMayRead board.now.rows }
    ensures { IfOk result (IsStuck board.now.rows) }
{
    if is_leased(board.rows()) {
        return Ok(Claim::Busy);
    }
    let Some(row) = first_unfinished(board.rows()) else {
        return Ok(Claim::Done);
    };
    let Some(parent) = first_missing(board, row.parents.as_slice()) else {
        unreachable!();
    };
    let row = row.token.copy()?;
    let parent = parent.copy()?;
    Ok(Claim::Orphan(row, parent))
}

/// Leases the row at a place that may be read; where there is no memory the board stays as it is.
fn lease_row(board: &mut Board, place: usize) -> Result<Lease, Memory>
    requires inside { place < length board.old.rows }
    requires may { (d : TheRow) → may_read board.old.rows (slice_index_or board.old.rows place d) ≡ true }
    requires within { AreWithin board.old.window.end board.old.rows }
    ensures leased { IfOk result (IsLeasedRow board.old place board.new) }
    ensures refused { OnErr result (board.new ≡ board.old) }
{
    rows_stay_right();
    leases_are_no_entries();
    let _end = board.window().end.us();
    let lease = lease_of(board.window(), &board.rows()[place])?;
    board.lease(place);
    let _rows = board.rows();
    Ok(lease)
}

/// Leases what is to be done next.
pub(crate) fn take_turn(
    alloc: Global,
    board: &mut Board,
    is_opening: bool,
    order: u64,
) -> Result<Claim, Memory>
    requires within { AreWithin board.old.window.end board.old.rows }
    ensures next { IfOk result (IsNext board.old board.new is_opening order) }
    ensures refused { OnErr result (board.new ≡ board.old) }
{
    let [_, ..] = board.rows() else {
        if is_opening {
            return Ok(Claim::Busy);
        }
        return Ok(Claim::Initial(lease_of_first(alloc, board.window())?));
    };
    match board.ready(order) {
        Some(place) => Ok(Claim::Row(lease_row(board, place)?)),
        None => stuck(board),
    }
}

/// Whether somebody lists the parts at the window's start after a claim.
pub(crate) fn is_opening_after(claim: &Claim, is_opening: bool) -> bool
    ensures { result ≡ opening_after claim.now is_opening }
{
    match claim {
        Claim::Initial(_) => true,
        Claim::Row(_) => is_opening,
        Claim::Busy => is_opening,
        Claim::Orphan(_, _) => is_opening,
        Claim::Done => is_opening,
    }
}
