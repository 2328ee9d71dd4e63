//! The 2k shares of a row, and the tree over them.

ghost use Rattle.std.specs.Prelude.{◌≡◌, ◌<◌, ◌≤◌, ◌*◌, length, vec_len, true, IfOk, Some, None, if◌then◌else◌};
ghost use Rattle.namespace_id.specs.declared.cells.Axis.TheVariants.{Row};
ghost use Rattle.namespace_id.specs.Cells.{is_width};
ghost use Rattle.namespace_id.specs.Lists.{ascending};
ghost use Rattle.leopard_code.specs.Codewords.{IsCodeword, HasEntries};
ghost use Rattle.axis_roots.specs.Trees.{line_stored};
ghost use Rattle.half_rows.specs.Rows.{width_of, IsRowOf, is_ordered_row};

use axis_roots::name_leaves;
use celestia_pb::{HalfRow, Side};
use leopard_code::{Room, extend, rebuild};
use namespace_id::{Axis, NoMemory, PARITY, SHARE_SIZE, Share};
use nmt_tree::Tree;
use std::alloc::Global;

/// The width of the square that a half is of.
pub(crate) fn width_of(half: &HalfRow) -> u16
    ensures value { result ≡ width_of half.now }
    ensures width { is_width result ≡ true }
    ensures few { result ≤ 512 }
{
    half.shares.len() as u16
}

/// So many numbers from the first on.
fn ascending(alloc: Global, first: u16, count: u16) -> Result<Vec<u16>, NoMemory>
    requires first { first ≤ 512 }
    requires count { count ≤ 512 }
    ensures { IfOk result (λ numbers. numbers.items ≡ ascending first count) }
{
    let mut numbers = Vec::with_capacity(alloc, count as usize)?;
    for number in first..first + count {
        let Ok(()) = numbers.push(number) else {
            return Err(NoMemory);
        };
    }
    Ok(numbers)
}

/// Makes a row of its k original shares.
fn extend_half(room: &mut Room, originals: &[Share], line: &mut [Share])
    requires originals { length originals.now ≡ room.old }
    requires line { length line.old ≡ 2 * room.old }
    ensures codeword { IsCodeword room.old line.new }
    ensures originals { HasEntries (ascending 0 room.old) originals.now line.new }
    ensures kept { room.new ≡ room.old }
{
    let (front, recovery) = line.split_at_mut(originals.len());
    front.copy_from_slice(originals);
    extend(room, originals, recovery);
}

/// Makes a row of its k recovery shares. The one refusal is that it is out of memory.
fn rebuild_half(
    alloc: Global,
    room: &mut Room,
    recovery: &[Share],
    line: &mut [Share],
) -> Result<(), NoMemory>
    requires few { room.old ≤ 512 }
    requires recovery { length recovery.now ≡ room.old }
    requires line { length line.old ≡ 2 * room.old }
    ensures codeword { IfOk result (λ done. IsCodeword room.old line.new) }
    ensures recovery { IfOk result (λ done. HasEntries (ascending room.old room.old) recovery.now line.new) }
    ensures kept { room.new ≡ room.old }
{
    let k = recovery.len() as u16;
    let known = ascending(alloc, k, k)?;
    rebuild(room, &known, recovery, line);
    Ok(())
}

/// Makes the row that has a half. The one refusal is that it is out of memory.
fn fill_line(
    alloc: Global,
    room: &mut Room,
    half: &HalfRow,
    line: &mut [Share],
) -> Result<(), NoMemory>
    requires few { room.old ≤ 512 }
    requires room { room.old ≡ width_of half.now }
    requires line { length line.old ≡ 2 * width_of half.now }
    ensures { IfOk result (λ done. IsRowOf half.now line.new) }
{
    match half.side {
        Side::Left => {
            extend_half(room, &half.shares, line);
            Ok(())
        }
        Side::Right => rebuild_half(alloc, room, &half.shares, line),
    }
}

/// The shares of the row that has a half. The one refusal is that it is out of memory.
pub(crate) fn line_of(alloc: Global, half: &HalfRow) -> Result<Vec<Share>, NoMemory>
    ensures row { IfOk result (λ line. IsRowOf half.now line.items) }
    ensures len { IfOk result (λ line. vec_len line ≡ 2 * width_of half.now) }
{
    let k = width_of(half);
    let mut room = Room::new(alloc, k)?;
    let Ok(mut line) = vec![in alloc; Share([0; SHARE_SIZE]); 2 * k as usize] else {
        return Err(NoMemory);
    };
    fill_line(alloc, &mut room, half, &mut line)?;
    Ok(line)
}

/// The tree over a row of 2k shares; none where its leaf namespaces fall.
pub(crate) fn tree_over(
    alloc: Global,
    k: u16,
    row: u16,
    line: &[Share],
) -> Result<Option<Tree>, NoMemory>
    requires width { is_width k ≡ true }
    requires row { row < 2 * k }
    requires line { length line.now ≡ 2 * k }
    ensures { IfOk result (λ tree. tree ≡
        (if is_ordered_row k row line.now then Some (line_stored k Row row line.now) else None)) }
{
    let mut tree = Tree::new(alloc, 2 * k)?;
    let Ok(mut names) = vec![in alloc; PARITY; 2 * k as usize] else {
        return Err(NoMemory);
    };
    name_leaves(k, Axis::Row, row, line, &mut names);
    if !tree.fill(&names, line) {
        return Ok(None);
    }
    Ok(Some(tree))
}
