//! Taking in a sample.

ghost use Rattle.std.specs.Prelude.{◌≡◌, IsNone, None, true, false};
ghost use Rattle.namespace_id.specs.Cells.{is_in_square};
ghost use Rattle.axis_roots.specs.Proved.{IsUnder, kept_message};
ghost use Rattle.repair_queue.specs.Pools.{slot_in, HasPlace, KeepsCapacity};
ghost use Rattle.repair_queue.specs.Repairs.{Shows};
ghost use Rattle.repair_queue.specs.Boards.{given_of, decided_of, is_lined, IsGood, AreAtRest};
ghost use Rattle.repair_queue.specs.Tools.{AreTools};
ghost use Rattle.repair_queue.specs.Moves.{IsKeptOn, TakesMessage, Steps};

use crate::boards::{Board, decided_through, is_known};
use crate::conflicts::{beside, conflict};
use crate::ending::Ending;
use crate::judging::drain;
use crate::making::read_along;
use crate::pools::{Pool, held_in, put_in, take_out};
use crate::tools::Tools;
use axis_roots::{Proved, index};
use data_header::Header;
use namespace_id::{Axis, Cell, Share};

/// Whether a sample that is kept of a cell along an axis shows this share.
fn shows(pool: &Pool, axis: Axis, cell: Cell, share: &Share) -> bool
    requires cell { is_in_square pool.now.places.k cell ≡ true }
    ensures shows { result ≡ true → Shows (slot_in pool.now axis cell) share.now }
{
    match held_in(pool, axis, cell) {
        Some(kept) => kept.message().share == *share,
        None => false,
    }
}

/// Keeps a sample of a cell of which none is kept along its axis, and counts the cell where it
/// wasn't known.
fn keep_new(board: &mut Board, header: &Header, message: Proved)
    requires good { IsGood header.now board.old }
    requires rest { AreAtRest header.now.k (given_of board.old) (decided_of board.old) }
    requires place { HasPlace board.old.pool }
    requires under { IsUnder header.now message }
    requires off { is_lined (decided_of board.old) (kept_message message).cell ≡ false }
    requires empty { given_of board.old (kept_message message).axis (kept_message message).cell
        ≡ None }
    ensures kept { IsKeptOn header.now board.old board.new (kept_message message) }
    ensures capacity { KeepsCapacity board.old.pool board.new.pool }
{
    let cell = message.message().cell;
    let was_known = is_known(board, cell);
    put_in(&mut board.pool, message);
    if !was_known {
        board.counts.raise(Axis::Row, cell.row);
        board.counts.raise(Axis::Col, cell.col);
    }
}

/// Takes a sample in, or names what is wrong where its decided row or column has another share, or a
/// sample that is kept along its axis shows one. One whose share is known is dropped.
fn take(board: &mut Board, tools: &mut Tools, header: &Header, message: Proved) -> Option<Ending>
    requires good { IsGood header.now board.old }
    requires rest { AreAtRest header.now.k (given_of board.old) (decided_of board.old) }
    requires place { HasPlace board.old.pool }
    requires tools { AreTools header.now.k tools.old }
    requires under { IsUnder header.now message }
    ensures takes { TakesMessage header.now board.old board.new tools.new (kept_message message) result }
    ensures capacity { KeepsCapacity board.old.pool board.new.pool }
{
    let shown = message.message();
    let (own, cell, share) = (shown.axis, shown.cell, &shown.share);
    if let Some(axis) = decided_through(&board.marks, cell) {
        if board.grid.cell(cell) == share {
            return None;
        }
        let i = index(axis, cell);
        read_along(&board.grid, axis, i, &mut tools.line);
        return Some(conflict(tools, header, axis, i, message));
    }
    if let Some(kept) = held_in(&board.pool, own, cell) {
        if kept.message().share == *share {
            return None;
        }
        let kept = take_out(&mut board.pool, own, cell).unwrap();
        return Some(Ending::Clash(beside(header, message, kept)));
    }
    if shows(&board.pool, own.crossing(), cell, share) {
        return None;
    }
    keep_new(board, header, message);
    None
}

/// Takes a sample in, and decides what it lets decide.
pub(crate) fn step(
    board: &mut Board,
    tools: &mut Tools,
    header: &Header,
    message: Proved,
) -> Option<Ending>
    requires good { IsGood header.now board.old }
    requires rest { AreAtRest header.now.k (given_of board.old) (decided_of board.old) }
    requires place { HasPlace board.old.pool }
    requires tools { AreTools header.now.k tools.old }
    requires under { IsUnder header.now message }
    ensures steps { Steps header.now board.old board.new tools.new (kept_message message) result }
    ensures capacity { IsNone result → KeepsCapacity board.old.pool board.new.pool }
{
    let ended = take(board, tools, header, message);
    if ended.is_some() {
        return ended;
    }
    drain(board, tools, header)
}
