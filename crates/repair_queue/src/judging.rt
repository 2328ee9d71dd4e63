//! Deciding a row or a column of which k cells are known.

ghost use Rattle.std.specs.Prelude.{◌≡◌, ◌≢◌, ℕ, ◌*◌, ◌<◌, ◌≤◌, List, length, true, false, IsTrue, IsNone, Some, Option, ◌↔◌};
ghost use Rattle.namespace_id.specs.Cells.{is_in_square};
ghost use Rattle.namespace_id.specs.declared.shares.Share.{Share as Block};
ghost use Rattle.data_header.specs.Headers.{root_of};
ghost use Rattle.axis_roots.specs.declared.message.messages.Message.{Message};
ghost use Rattle.axis_roots.specs.Lines.{cell_on, entry, line_strict_root};
ghost use Rattle.axis_roots.specs.Trees.{line_leaves};
ghost use Rattle.leopard_code.specs.Codewords.{IsCodeword, HasEntries};
ghost use Rattle.befp_maker.specs.Conflicts.{IsLineOf};
ghost use Rattle.befp_maker.specs.Gathered.{AreOfLine};
ghost use Rattle.repair_queue.specs.Closures.{AreChosen};
ghost use Rattle.repair_queue.specs.Slots.{IsAlike, IsFlagged};
ghost use Rattle.repair_queue.specs.Lines.{AreFacts};
ghost use Rattle.repair_queue.specs.Repairs.{IsEnd};
ghost use Rattle.repair_queue.specs.Steps.{IsSpare};
ghost use Rattle.repair_queue.specs.Counts.{count_of};
ghost use Rattle.repair_queue.specs.Pools.{KeepsCapacity};
ghost use Rattle.repair_queue.specs.Boards.{given_of, decided_of, shared_of, found_count, found_share, is_found, AreAlikeLined, AreParts, IsGood, HoldsFor};
ghost use Rattle.repair_queue.specs.Tools.{AreTools, AreGathered, HasSpare};
ghost use Rattle.repair_queue.specs.Judging.{IsAlikeAt, IsApartAt, IsReadable, IsTakenAt, AreFoundAt, AreShownBy, IsOtherMessage, IsApartOrAlike};
ghost use Rattle.repair_queue.specs.Moves.{DecidesLine, SettlesLine, Drains, IsMessageAt};

use crate::boards::{Board, decided_through, is_on_decided};
use crate::conflicts::conflict;
use crate::ending::Ending;
use crate::gathering::{complete, gather};
use crate::keeping::keep_line;
use crate::making::{make, take_first, take_other};
use crate::pools::is_other;
use crate::rooting::root_of_line;
use crate::sessions::width;
use crate::tools::Tools;
use axis_roots::{FraudProof, Proved, cell_on, is_root};
use befp_maker::AxisRoom;
use data_header::Header;
use namespace_id::{Axis, Cell, Share};

/// Whether another share than this one is known of a cell.
fn is_apart(board: &Board, cell: Cell, share: &Share) -> bool
    requires parts { AreParts board.now }
    requires cell { is_in_square board.now.grid.k cell ≡ true }
    ensures apart { result ≡ true →
        IsApartAt (given_of board.now) (decided_of board.now) (shared_of board.now) cell share.now }
    ensures alike { result ≡ false →
        IsAlikeAt (given_of board.now) (decided_of board.now) (shared_of board.now) cell share.now }
{
    if is_on_decided(&board.marks, cell) {
        return board.grid.cell(cell) != share;
    }
    is_other(&board.pool, Axis::Row, cell, share) || is_other(&board.pool, Axis::Col, cell, share)
}

/// The first position of a row or a column at which another share is known than the line's.
fn first_apart(board: &Board, axis: Axis, index: u16, line: &[Share]) -> Option<u16>
    requires parts { AreParts board.now }
    requires index { index < 2 * board.now.grid.k }
    requires line { length line.now ≡ 2 * board.now.grid.k }
    ensures { IsApartOrAlike board.now.grid.k board.now axis index line.now result }
{
    for pos in 0..2 * board.grid.width() {
        if is_apart(board, cell_on(axis, index, pos), &line[pos as usize]) {
            return Some(pos);
        }
    }
    None
}

/// A sample of a known cell, with the share that is known first of it.
fn message_known(
    board: &mut Board,
    room: &mut AxisRoom,
    across: &mut [Share],
    header: &Header,
    cell: Cell,
) -> Proved
    requires readable { IsReadable header.now board.old }
    requires room { room.old.k ≡ header.now.k }
    requires across { length across.old ≡ 2 * header.now.k }
    requires cell { is_in_square header.now.k cell ≡ true }
    requires known { is_found (given_of board.old) (decided_of board.old) cell ≡ true }
    ensures message { IsMessageAt header.now cell
        (found_share (given_of board.old) (decided_of board.old) (shared_of board.old) cell) result }
    ensures readable { IsReadable header.now board.new }
    ensures others { IsTakenAt board.old board.new cell }
    ensures room { room.new.k ≡ header.now.k }
    ensures across { length across.new ≡ 2 * header.now.k }
{
    match decided_through(&board.marks, cell) {
        Some(axis) => make(&board.grid, room, across, header, axis, cell),
        None => take_first(&mut board.pool, cell),
    }
}

/// A sample of a cell that shows another share than this one.
fn message_other(
    board: &mut Board,
    room: &mut AxisRoom,
    across: &mut [Share],
    header: &Header,
    cell: Cell,
    share: &Share,
) -> Proved
    requires readable { IsReadable header.now board.old }
    requires room { room.old.k ≡ header.now.k }
    requires across { length across.old ≡ 2 * header.now.k }
    requires cell { is_in_square header.now.k cell ≡ true }
    requires apart { IsApartAt (given_of board.old) (decided_of board.old) (shared_of board.old)
        cell share.now }
    ensures message { IsOtherMessage header.now board.old cell share.now result }
    ensures room { room.new.k ≡ header.now.k }
{
    match decided_through(&board.marks, cell) {
        Some(axis) => make(&board.grid, room, across, header, axis, cell),
        None => take_other(&mut board.pool, cell, share),
    }
}

/// Samples of known cells of a row or a column at these positions, each with the share that is
/// known first.
fn messages_known(
    board: &mut Board,
    room: &mut AxisRoom,
    across: &mut [Share],
    header: &Header,
    axis: Axis,
    index: u16,
    known: &[u16],
    cells: Vec<Proved>,
) -> Vec<Proved>
    requires readable { IsReadable header.now board.old }
    requires room { room.old.k ≡ header.now.k }
    requires across { length across.old ≡ 2 * header.now.k }
    requires index { index < 2 * header.now.k }
    requires chosen { AreChosen header.now.k known.now }
    requires found { AreFoundAt (given_of board.old) (decided_of board.old) axis index known.now }
    requires spare { IsSpare header.now.k cells }
    ensures cells { (line : List Block) →
        AreShownBy (given_of board.old) (decided_of board.old) (shared_of board.old) axis index
        known.now line →
        AreOfLine header.now axis index line known.now result.items }
    ensures room { room.new.k ≡ header.now.k }
{
    let mut cells = cells;
    for i in 0..known.len() {
        let cell = cell_on(axis, index, known[i]);
        cells
            .push(message_known(board, room, across, header, cell))
            .unwrap();
    }
    cells
}

/// The fraud proof of a row or a column by the k known cells that were gathered.
fn accuse(board: &mut Board, tools: &mut Tools, header: &Header, axis: Axis, index: u16) -> Ending
    requires readable { IsReadable header.now board.old }
    requires tools { AreTools header.now.k tools.old }
    requires index { index < 2 * header.now.k }
    requires chosen { AreChosen header.now.k tools.old.known.items }
    requires gathered { AreGathered (given_of board.old) (decided_of board.old)
        (shared_of board.old) axis index
        tools.old.known.items tools.old.given.items }
    requires line { IsCodeword header.now.k tools.old.line.items }
    requires entries { HasEntries tools.old.known.items tools.old.given.items
        tools.old.line.items }
    requires root { line_strict_root header.now.k axis index tools.old.line.items
        ≡ Some (root_of header.now axis index) → ⊥ }
    ensures { (ms : List Message) → HoldsFor header.now ms board.old → IsEnd header.now ms result }
{
    let cells = tools.spare.take().unwrap();
    let cells = messages_known(
        board,
        &mut tools.room,
        &mut tools.across,
        header,
        axis,
        index,
        &tools.known,
        cells,
    );
    Ending::Fraud(FraudProof {
        k: width(header),
        axis,
        index,
        root: header.root_of(axis, index),
        cells,
    })
}

/// What is wrong where another share is known at a position than that of the line, which has the
/// header's root.
fn contradict(
    board: &mut Board,
    tools: &mut Tools,
    header: &Header,
    axis: Axis,
    index: u16,
    pos: u16,
) -> Ending
    requires readable { IsReadable header.now board.old }
    requires tools { AreTools header.now.k tools.old }
    requires index { index < 2 * header.now.k }
    requires pos { pos < 2 * header.now.k }
    requires line { IsLineOf header.now axis index tools.old.line.items }
    requires apart { IsApartAt (given_of board.old) (decided_of board.old) (shared_of board.old)
        (cell_on axis index pos) (entry tools.old.line.items pos) }
    ensures { (ms : List Message) → AreFacts header.now ms axis index tools.old.line.items →
        HoldsFor header.now ms board.old → IsEnd header.now ms result }
{
    let cell = cell_on(axis, index, pos);
    let share = tools.line[pos as usize];
    let other = message_other(
        board,
        &mut tools.room,
        &mut tools.across,
        header,
        cell,
        &share,
    );
    conflict(tools, header, axis, index, other)
}

/// Keeps the line of a row or a column, which has the header's root, or names what is wrong where
/// another share is known at a position.
fn settle(
    board: &mut Board,
    tools: &mut Tools,
    header: &Header,
    axis: Axis,
    index: u16,
    apart: Option<u16>,
) -> Option<Ending>
    requires good { IsGood header.now board.old }
    requires tools { AreTools header.now.k tools.old }
    requires index { index < 2 * header.now.k }
    requires off { decided_of board.old axis index ≡ false }
    requires line { IsLineOf header.now axis index tools.old.line.items }
    requires digests { tools.old.digests.items
        ≡ line_leaves header.now.k axis index tools.old.line.items }
    requires apart { IsApartOrAlike header.now.k board.old axis index tools.old.line.items
        apart }
    ensures settles { SettlesLine header.now board.old board.new tools.new axis index
        tools.old.line.items result }
    ensures next { IsNone result → board.new.counts.next ≡ board.old.counts.next }
    ensures capacity { IsNone result → KeepsCapacity board.old.pool board.new.pool }
    ensures flagged { IsNone result →
        IsFlagged (decided_of board.old) (decided_of board.new) axis index }
{
    match apart {
        Some(pos) => Some(contradict(board, tools, header, axis, index, pos)),
        None => {
            keep_line(board, header, axis, index, &tools.line, &tools.digests);
            None
        }
    }
}

/// Fills the tools with the line of a row or a column through k of its known cells.
fn rebuild_line(board: &Board, tools: &mut Tools, header: &Header, axis: Axis, index: u16)
    requires good { IsGood header.now board.now }
    requires tools { AreTools header.now.k tools.old }
    requires index { index < 2 * header.now.k }
    requires half { header.now.k ≤ found_count (given_of board.now) (decided_of board.now) axis
        index (2 * header.now.k) }
    ensures tools { AreTools header.now.k tools.new }
    ensures chosen { AreChosen header.now.k tools.new.known.items }
    ensures gathered { AreGathered (given_of board.now) (decided_of board.now) (shared_of board.now)
        axis index tools.new.known.items tools.new.given.items }
    ensures line { IsCodeword header.now.k tools.new.line.items }
    ensures entries { HasEntries tools.new.known.items tools.new.given.items
        tools.new.line.items }
{
    gather(
        board,
        header,
        axis,
        index,
        &mut tools.known,
        &mut tools.given,
    );
    complete(
        &mut tools.code,
        header.k,
        &tools.known,
        &tools.given,
        &mut tools.line,
    );
}

/// Whether the line has the header's root of the row or column.
fn has_root(
    board: &Board,
    tools: &mut Tools,
    header: &Header,
    axis: Axis,
    index: u16,
    are_kept: bool,
) -> bool
    requires good { IsGood header.now board.now }
    requires tools { AreTools header.now.k tools.old }
    requires index { index < 2 * header.now.k }
    requires kept { are_kept ≡ true →
        AreAlikeLined header.now.k (decided_of board.now) (shared_of board.now) axis index
        tools.old.line.items }
    ensures root { IsTrue result
        ↔ (line_strict_root header.now.k axis index tools.old.line.items
        ≡ Some (root_of header.now axis index)) }
    ensures digests { tools.new.digests.items
        ≡ line_leaves header.now.k axis index tools.old.line.items }
    ensures tools { AreTools header.now.k tools.new }
    ensures line { tools.new.line ≡ tools.old.line }
    ensures known { tools.new.known ≡ tools.old.known }
    ensures given { tools.new.given ≡ tools.old.given }
{
    let found = root_of_line(
        board,
        header,
        axis,
        index,
        &tools.line,
        are_kept,
        &mut tools.names,
        &mut tools.digests,
        &mut tools.folded,
    );
    let root = header.root_of(axis, index);
    is_root(found, &root)
}

/// Decides a row or a column of which k cells are known.
fn decide(
    board: &mut Board,
    tools: &mut Tools,
    header: &Header,
    axis: Axis,
    index: u16,
) -> Option<Ending>
    requires good { IsGood header.now board.old }
    requires tools { AreTools header.now.k tools.old }
    requires index { index < 2 * header.now.k }
    requires off { decided_of board.old axis index ≡ false }
    requires half { header.now.k ≤ found_count (given_of board.old) (decided_of board.old) axis
        index (2 * header.now.k) }
    ensures decides { DecidesLine header.now board.old board.new tools.new result }
    ensures next { IsNone result → board.new.counts.next ≡ board.old.counts.next }
    ensures capacity { IsNone result → KeepsCapacity board.old.pool board.new.pool }
    ensures flagged { IsNone result →
        IsFlagged (decided_of board.old) (decided_of board.new) axis index }
{
    rebuild_line(board, tools, header, axis, index);
    let apart = first_apart(board, axis, index, &tools.line);
    if has_root(board, tools, header, axis, index, apart.is_none()) {
        settle(board, tools, header, axis, index, apart)
    } else {
        Some(accuse(board, tools, header, axis, index))
    }
}

/// Whether a row or a column isn't decided and k of its cells are known.
fn is_due(board: &Board, header: &Header, axis: Axis, index: u16) -> bool
    requires good { IsGood header.now board.now }
    ensures due { result ≡ true → (index < 2 * header.now.k)
        × (decided_of board.now axis index ≡ false)
        × (header.now.k ≤ found_count (given_of board.now) (decided_of board.now) axis index
        (2 * header.now.k)) }
    ensures past { result ≡ false → index < 2 * header.now.k → decided_of board.now axis index
        ≡ false →
        header.now.k ≤ count_of board.now.counts axis index → ⊥ }
{
    index < 2 * header.k
        && !board.marks.is_set(axis, index)
        && board.counts.count(axis, index) >= header.k
}

/// Decides rows and columns until none is left that can be decided, or one ends the session.
pub(crate) fn drain(board: &mut Board, tools: &mut Tools, header: &Header) -> Option<Ending>
    requires good { IsGood header.now board.old }
    requires tools { AreTools header.now.k tools.old }
    ensures drains { Drains header.now board.old board.new tools.new result }
    ensures capacity { IsNone result → KeepsCapacity board.old.pool board.new.pool }
{
    while let Some((axis, index)) = board.counts.first_queued() {
        if is_due(board, header, axis, index) {
            let ended = decide(board, tools, header, axis, index);
            if ended.is_some() {
                return ended;
            }
        } else {
            board.counts.pass_queued();
        }
    }
    None
}
