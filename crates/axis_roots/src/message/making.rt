//! Samples that are made from a grid: from the stored tree of an axis, or by a tree that is filled
//! for the one sample.

ghost use Rattle.std.specs.Prelude.{◌≡◌, ◌*◌, ◌<◌, ◌↔◌, ℕ, List, IsTrue, IfSome, IsNone, length, Some, true, false};
ghost use Rattle.namespace_id.specs.Cells.{is_width, is_in_square};
ghost use Rattle.nmt_tree.specs.Levels.{leaf_digests};
ghost use Rattle.axis_roots.specs.Messages.{index as index_of};
ghost use Rattle.axis_roots.specs.Openings.{OpensAt};
ghost use Rattle.namespace_id.specs.declared.cells.Axis.{Axis as Along};
ghost use Rattle.namespace_id.specs.declared.shares.Share.{Share};
ghost use Rattle.namespace_id.specs.Shares.{AreShares};
ghost use Rattle.axis_roots.specs.Lines.{is_ordered_line, line_root};
ghost use Rattle.axis_roots.specs.Trees.{axis_stored, message_at, line_message};
ghost use Rattle.axis_roots.specs.Grids.{share_at, axis_names, axis_shares, axis_root, is_ordered_axis};
ghost use Rattle.axis_roots.specs.Laws.{MadeOpens};

use super::messages::{Message, index, message_law, position};
use crate::square::{Grid, fill_axis};
use namespace_id::{Axis, Cell};
use nmt_proofs::make_leaf;
use nmt_tree::Tree;

/// Makes the sample of a cell from the stored tree over its axis, as `message_of` does. Row and
/// column of the cell are below 2k. It hashes nothing, and takes no memory.
///
/// Celestia specifications, "Data Structures", namespaced Merkle tree inclusion proofs;
/// docs/RULES.md, "Proved samples".
pub fn message_from(grid: &Grid, cell: Cell, axis: Axis, tree: &Tree) -> Message
    requires cell { IsTrue (is_in_square grid.now.k cell) }
    requires tree { tree.now ≡ axis_stored grid.now.k grid.now.shares axis (index_of axis cell) }
    ensures value { result ≡ message_at grid.now.k grid.now.shares cell axis }
    ensures opens { OpensAt grid.now.k result
        (axis_root grid.now.k grid.now.shares axis (index_of axis cell)) }
{
    grid.law();
    let message = Message {
        cell,
        axis,
        share: *grid.cell(cell),
        path: make_leaf(tree, position(axis, cell)),
    };
    message_law(&message);
    message
}

/// Makes the sample of a cell: its share with the inclusion proof along an axis. There is none
/// exactly where the namespaces of that axis fall. Row and column of the cell are below 2k.
///
/// The tree is one for 2k leaves. Where there is a sample it is filled with those along the axis,
/// whatever it held; otherwise it stays as it was. The call takes no memory besides.
///
/// Celestia specifications, "Data Structures", namespaced Merkle tree inclusion proofs;
/// docs/RULES.md, "Proved samples".
pub fn message_of(grid: &Grid, cell: Cell, axis: Axis, tree: &mut Tree) -> Option<Message>
    requires cell { IsTrue (is_in_square grid.now.k cell) }
    requires tree { tree.old.count ≡ 2 * grid.now.k }
    ensures none { IsNone result ↔
        (is_ordered_axis grid.now.k grid.now.shares axis (index_of axis cell) ≡ false) }

    // The sample shows the grid's share, and opens it under the root of the axis.
    ensures cell { IfSome result (λ message. message.cell ≡ cell) }
    ensures axis { IfSome result (λ message. message.axis ≡ axis) }
    ensures share { IfSome result (λ message.
        message.share ≡ share_at (2 * grid.now.k) grid.now.shares cell) }
    ensures value { IfSome result (λ message.
        message ≡ message_at grid.now.k grid.now.shares cell axis) }
    ensures opens { IfSome result (λ message. OpensAt grid.now.k message
        (axis_root grid.now.k grid.now.shares axis (index_of axis cell))) }

    // The tree is that of the axis then; where the namespaces fall, it is as it was.
    ensures count { tree.new.count ≡ tree.old.count }
    ensures leaves { IfSome result (λ message. tree.new.leaves ≡
        Some (leaf_digests (axis_names grid.now.k grid.now.shares axis (index_of axis cell))
        (axis_shares grid.now.k grid.now.shares axis (index_of axis cell)))) }
    ensures kept { IsNone result → tree.new ≡ tree.old }
{
    if fill_axis(grid, axis, index(axis, cell), tree) {
        Some(message_from(grid, cell, axis, tree))
    } else {
        None
    }
}

/// Along an axis whose namespaces never fall, the sample of each cell opens under the root.
pub fn made_laws()
    // Of a grid, and of a line of 2k shares that stands in none.
    ensures opens { MadeOpens }
    ensures line { (k : ℕ) (axis : Along) (index pos : ℕ) (line : List Share) →
        is_width k ≡ true → index < 2 * k → pos < 2 * k → length line ≡ 2 * k →
        AreShares line → is_ordered_line k axis index line ≡ true →
        OpensAt k (line_message k axis index line pos) (line_root k axis index line) }
{}
