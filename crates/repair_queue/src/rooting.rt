//! The strict root of a line, by leaves that were hashed before.

ghost use Rattle.std.specs.Prelude.{◌≡◌, ◌*◌, ◌<◌, ◌≤◌, length, true};
ghost use Rattle.nmt_tree.specs.Levels.{leaf_digests};
ghost use Rattle.axis_roots.specs.Lines.{cell_on, line_names, line_strict_root};
ghost use Rattle.axis_roots.specs.Trees.{line_leaves};
ghost use Rattle.repair_queue.specs.Boards.{is_lined, decided_of, shared_of, IsGood, AreAlikeLined, AreLeavesTo};

use crate::boards::{Board, is_on_decided};
use crate::placing::number;
use axis_roots::{cell_on, name_leaves};
use data_header::Header;
use namespace_id::{Axis, Digest, Namespace, Share};
use nmt_tree::{are_ordered, fold_root, put_leaves};

/// The next place of a line, from a place on, whose leaf was hashed before; the line's end where there is none.
fn next_hashed(
    board: &Board,
    header: &Header,
    axis: Axis,
    index: u16,
    from: u16,
    are_kept: bool,
) -> u16
    requires good { IsGood header.now board.now }
    requires index { index < 2 * header.now.k }
    requires from { from ≤ 2 * header.now.k }
    ensures from { from ≤ result }
    ensures end { result ≤ 2 * header.now.k }
    ensures hashed { result < 2 * header.now.k → (are_kept ≡ true)
        × (is_lined (decided_of board.now) (cell_on axis index result) ≡ true) }
{
    if !are_kept {
        return 2 * header.k;
    }
    for pos in from..2 * header.k {
        if is_on_decided(&board.marks, cell_on(axis, index, pos)) {
            return pos;
        }
    }
    2 * header.k
}

/// Hashes the leaves from a place of a line up to another one, eight at a time.
fn put_run(names: &[Namespace], line: &[Share], digests: &mut [Digest], from: u16, end: u16)
    requires names { length names.now ≡ length digests.old }
    requires line { length line.now ≡ length digests.old }
    requires from { from ≤ end }
    requires end { end ≤ length digests.old }
    ensures leaves { AreLeavesTo (leaf_digests names.now line.now) from digests.old →
        AreLeavesTo (leaf_digests names.now line.now) end digests.new }
    ensures count { length digests.new ≡ length digests.old }
{
    let (first, last) = (from as usize, end as usize);
    put_leaves(
        &names[first..last],
        &line[first..last],
        &mut digests[first..last],
    );
}

/// The digests of the leaves over a line of 2k shares, taken as a row or a column. Leaves beside each other that weren't
/// hashed before are hashed together.
pub(crate) fn digest_leaves(
    board: &Board,
    header: &Header,
    axis: Axis,
    index: u16,
    line: &[Share],
    are_kept: bool,
    names: &[Namespace],
    digests: &mut [Digest],
)
    requires good { IsGood header.now board.now }
    requires index { index < 2 * header.now.k }
    requires line { length line.now ≡ 2 * header.now.k }
    requires kept { are_kept ≡ true →
        AreAlikeLined header.now.k (decided_of board.now) (shared_of board.now) axis index line.now }
    requires names { names.now ≡ line_names header.now.k axis index line.now }
    requires digests { length digests.old ≡ 2 * header.now.k }
    ensures { digests.new ≡ line_leaves header.now.k axis index line.now }
{
    let mut pos = 0;
    while pos < 2 * header.k {
        let next = next_hashed(board, header, axis, index, pos, are_kept);
        if pos < next {
            put_run(names, line, digests, pos, next);
            pos = next;
        } else {
            digests[pos as usize] = board.leaves[number(header.k, cell_on(axis, index, pos))];
            pos += 1;
        }
    }
}

/// The strict root of a line of 2k shares, taken as a row or a column.
pub(crate) fn root_of_line(
    board: &Board,
    header: &Header,
    axis: Axis,
    index: u16,
    line: &[Share],
    are_kept: bool,
    names: &mut [Namespace],
    digests: &mut [Digest],
    folded: &mut [Digest],
) -> Option<Digest>
    requires good { IsGood header.now board.now }
    requires index { index < 2 * header.now.k }
    requires line { length line.now ≡ 2 * header.now.k }
    requires kept { are_kept ≡ true →
        AreAlikeLined header.now.k (decided_of board.now) (shared_of board.now) axis index line.now }
    requires names { length names.old ≡ 2 * header.now.k }
    requires digests { length digests.old ≡ 2 * header.now.k }
    requires folded { length folded.old ≡ 2 * header.now.k }
    ensures root { result ≡ line_strict_root header.now.k axis index line.now }
    ensures leaves { digests.new ≡ line_leaves header.now.k axis index line.now }
    ensures names { length names.new ≡ 2 * header.now.k }
    ensures folded { length folded.new ≡ 2 * header.now.k }
{
    name_leaves(header.k, axis, index, line, names);
    digest_leaves(board, header, axis, index, line, are_kept, names, digests);
    if !are_ordered(names) {
        return None;
    }
    folded.copy_from_slice(digests);
    Some(fold_root(folded))
}
