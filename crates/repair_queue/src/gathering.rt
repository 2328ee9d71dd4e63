//! The line of a row or a column by k of its known cells.

ghost use Rattle.std.specs.Prelude.{◌≡◌, ℕ, ◌*◌, ◌<◌, ◌≤◌, length, vec_capacity};
ghost use Rattle.leopard_code.specs.Codewords.{IsCodeword, HasEntries};
ghost use Rattle.repair_queue.specs.Closures.{AreChosen};
ghost use Rattle.repair_queue.specs.Boards.{given_of, decided_of, shared_of, found_count, IsGood};
ghost use Rattle.repair_queue.specs.Tools.{AreGathered};

use crate::boards::{Board, known_share};
use axis_roots::cell_on;
use data_header::Header;
use leopard_code::{Room, extend, rebuild};
use namespace_id::{Axis, Share};

/// The first k known positions of a row or a column, and the shares that are known there.
pub(crate) fn gather(
    board: &Board,
    header: &Header,
    axis: Axis,
    index: u16,
    known: &mut Vec<u16>,
    given: &mut Vec<Share>,
)
    requires good { IsGood header.now board.now }
    requires index { index < 2 * header.now.k }
    requires half { header.now.k ≤ found_count (given_of board.now) (decided_of board.now) axis
        index (2 * header.now.k) }
    requires known { header.now.k ≤ vec_capacity known.old }
    requires given { header.now.k ≤ vec_capacity given.old }
    ensures chosen { AreChosen header.now.k known.new.items }
    ensures gathered { AreGathered (given_of board.now) (decided_of board.now) (shared_of board.now)
        axis index known.new.items given.new.items }
    ensures known { header.now.k ≤ vec_capacity known.new }
    ensures given { header.now.k ≤ vec_capacity given.new }
{
    known.clear();
    given.clear();
    for pos in 0..2 * header.k {
        if let Some(share) = known_share(board, cell_on(axis, index, pos)) {
            known.push(pos).unwrap();
            given.push(*share).unwrap();
            if known.len() == header.k as usize {
                return;
            }
        }
    }
    unreachable!()
}

/// The codeword with these shares at k positions. Where these are the originals the recovery shares
/// are made of them.
pub(crate) fn complete(code: &mut Room, k: u16, known: &[u16], given: &[Share], line: &mut [Share])
    requires width { code.old ≡ k }
    requires positive { 0 < k }
    requires known { AreChosen k known.now }
    requires given { length given.now ≡ k }
    requires line { length line.old ≡ 2 * k }
    ensures codeword { IsCodeword k line.new }
    ensures entries { HasEntries known.now given.now line.new }
    ensures width { code.new ≡ code.old }
{
    if known[k as usize - 1] < k {
        let (originals, recovery) = line.split_at_mut(k as usize);
        originals.copy_from_slice(given);
        extend(code, originals, recovery);
    } else {
        rebuild(code, known, given, line);
    }
}
