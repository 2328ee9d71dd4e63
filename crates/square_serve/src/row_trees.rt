//! The trees over the rows of a square in its extension, each made when it is first asked for.
//!
//! The other half of a row is made in one line of 2k shares, and its leaves are hashed from there: the
//! extension is never whole in memory, and of its lower half nothing is made.

ghost use Rattle.std.specs.Prelude.{◌≡◌, ◌*◌, ◌<◌, List, IfOk, length, get_or};
ghost use Rattle.namespace_id.specs.declared.cells.Axis.TheVariants.{Row};
ghost use Rattle.namespace_id.specs.declared.shares.Share.{Share as ShareOf};
ghost use Rattle.axis_roots.specs.Grids.{Extends, axis_shares};
ghost use Rattle.axis_roots.specs.Trees.{axis_stored, no_tree};
ghost use Rattle.square_serve.specs.Rows.{HasHeader, AreNeededRows, AreRowTrees};

use crate::needed::empty_trees;
use crate::rows::row_of;
use axis_roots::name_leaves;
use leopard_code::{Room, extend};
use namespace_id::{Axis, Namespace, NoMemory, PARITY, SHARE_SIZE, Share};
use nmt_tree::Tree;
use square_layout::Square;
use std::alloc::Global;

/// Makes a row of the extension of a square in a line of 2k shares.
fn extend_row(room: &mut Room, square: &Square, row: u16, line: &mut [Share])
    requires room { room.old ≡ square.now.k }
    requires row { row < square.now.k }
    requires line { length line.old ≡ 2 * square.now.k }
    ensures room { room.new ≡ room.old }
    ensures line { (grid : List ShareOf) → Extends square.now.k square.now.shares grid →
        line.new ≡ axis_shares square.now.k grid Row row }
{
    let (originals, recovery) = line.split_at_mut(square.k as usize);
    originals.copy_from_slice(row_of(square, row));
    extend(room, originals, recovery);
}

/// Makes the tree over a row of a square among all, if it is empty, by way of lines for 2k shares and 2k
/// namespaces.
fn make_tree(
    room: &mut Room,
    square: &Square,
    row: u16,
    line: &mut [Share],
    names: &mut [Namespace],
    trees: &mut [Tree],
)
    requires room { room.old ≡ square.now.k }
    requires row { row < square.now.k }
    requires line { length line.old ≡ 2 * square.now.k }
    requires names { length names.old ≡ 2 * square.now.k }
    requires trees { AreNeededRows square.now trees.old }
    ensures room { room.new ≡ room.old }
    ensures trees { AreNeededRows square.now trees.new }
    ensures made { (grid : List ShareOf) → Extends square.now.k square.now.shares grid →
        get_or trees.new row no_tree ≡ axis_stored square.now.k grid Row row }
{
    let tree = &mut trees[row as usize];
    if tree.root().is_none() {
        extend_row(room, square, row, line);
        name_leaves(square.k, Axis::Row, row, line, names);
        tree.fill(names, line);
    }
}

/// The trees over the rows of a square, empty where they weren't asked for yet.
#[derive(Drop)]
pub(crate) struct RowTrees {
    // one for each row of the square
    trees: Vec<Tree>,
    room: Room,
    // 2k shares and 2k namespaces to work in
    line: Vec<Share>,
    names: Vec<Namespace>,
}

impl RowTrees {
    /// Empty trees for the rows of a square that has a header.
    ///
    /// It takes memory for k trees of 4k - 1 digests each, for 2k shares and 2k namespaces besides, and
    /// what a room for the code needs. The one refusal is that it is out of memory.
    pub(crate) fn of(alloc: Global, square: &Square) -> Result<RowTrees, NoMemory>
        requires { HasHeader square.now }
        ensures { IfOk result (AreRowTrees square.now) }
    {
        let side = 2 * square.k;
        let trees = empty_trees(alloc, square.k, side)?;
        let room = Room::new(alloc, square.k)?;
        let Ok(line) = vec![in alloc; Share([0; SHARE_SIZE]); side as usize] else {
            return Err(NoMemory);
        };
        let Ok(names) = vec![in alloc; PARITY; side as usize] else {
            return Err(NoMemory);
        };
        Ok(RowTrees {
            trees,
            room,
            line,
            names,
        })
    }

    /// Makes the tree over a row of the square, if it is empty. It takes no memory.
    pub(crate) fn make(&mut self, square: &Square, row: u16)
        requires trees { AreRowTrees square.now self.old }
        requires row { row < square.now.k }
        ensures trees { AreRowTrees square.now self.new }
        ensures made { (grid : List ShareOf) → Extends square.now.k square.now.shares grid →
            get_or self.new.trees.items row no_tree ≡ axis_stored square.now.k grid Row row }
    {
        make_tree(
            &mut self.room,
            square,
            row,
            &mut self.line,
            &mut self.names,
            &mut self.trees,
        );
    }

    /// The tree over a row of the square.
    pub(crate) fn tree(&self, row: u16) -> &Tree
        requires { row < length self.now.trees.items }
        ensures { result.now ≡ get_or self.now.trees.items row no_tree }
    {
        &self.trees[row as usize]
    }
}
