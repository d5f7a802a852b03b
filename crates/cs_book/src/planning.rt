//! What a batch makes of a board.
ghost use Rattle.std.specs.Prelude.{◌≡◌, ◌≤◌, ◌++◌, [], ◌∷◌, List, Some, IfOk, IfErr, IfSome};
ghost use Rattle.cs_schedule.specs.declared.entry.Entry.{Entry as TheEntry};
ghost use Rattle.cs_schedule.specs.Follows.{IsBoardOf, IsNextOf, MayAdd};
ghost use Rattle.cs_schedule.specs.Rows.{low_watermark, rows_of};
ghost use Rattle.cs_schedule.specs.Update.{PlansBatch};
ghost use Rattle.cs_book.specs.Adding.{IsTooBig};
ghost use Rattle.cs_book.specs.Planned.{AreAdditions};

use crate::adding::{Addition, add};
use crate::fault::ReserveFault;
use cs_link::Batch;
use cs_schedule::{Board, Plan, PlanFault, boards_are_of_entries};
use std::alloc::Global;

/// The plan of a batch.
pub(crate) fn plan_of(alloc: Global, board: &Board, batch: &Batch) -> Result<Plan, PlanFault>
    requires { MayAdd board.now batch.now }
    ensures next { IfOk result (IsNextOf board.now) }
    ensures exact { PlansBatch board.now.rows batch.now result }
{
    boards_are_of_entries();
    let _rows = board.rows();
    board.plan(alloc, batch)
}

/// The low watermark once a plan is taken in.
fn mark_with(board: &Board, plan: &Plan) -> Option<u64>
    requires { IsNextOf board.now plan.now }
    ensures range { IfSome result (λ n. n ≤ 253402300799999999) }
    ensures low { (es : List TheEntry) (e : TheEntry) → IsBoardOf es board.now → plan.now.entry ≡ Some e → result ≡ low_watermark board.now.window.end (rows_of board.now.window.start (es ++ e ∷ [])) }
{
    boards_are_of_entries();
    let _end = board.window().end.us();
    board.mark_after(plan)
}

/// What is written for the entry of a plan, where it has one.
pub(crate) fn addition_for(
    alloc: Global,
    board: &Board,
    plan: &Plan,
    gate: u64,
    marked: u64,
) -> Result<Option<Addition>, ReserveFault>
    requires next { IsNextOf board.now plan.now }
    requires least { 1 ≤ marked }
    ensures additions { IfOk result (AreAdditions board.now marked gate plan.now.entry) }
    ensures full { IfErr result (IsTooBig gate plan.now.entry) }
{
    let Some(entry) = plan.entry() else {
        return Ok(None);
    };
    let mark = mark_with(board, plan);
    let addition = add(alloc, entry, gate, marked, mark)?;
    Ok(Some(addition))
}
