//! A square with the left half of its extension: its header, and the samples of some cells.
//!
//! The lower left quarter is what `header_of_square` makes, and the leaves are hashed once, for the header.
//! A sample then needs one share, for which the other half of its row is made, and the nodes over the
//! leaves of its axis.

ghost use Rattle.std.specs.Prelude.{◌≡◌, ◌*◌, ◌<◌, List, IsTrue, IfOk, IfSome, IsNone, Some};
ghost use Rattle.namespace_id.specs.declared.cells.Axis.{Axis as Along};
ghost use Rattle.namespace_id.specs.declared.cells.Cell.{Cell as Place};
ghost use Rattle.namespace_id.specs.declared.shares.Share.{Share as ShareOf};
ghost use Rattle.namespace_id.specs.Cells.{is_width, is_in_square};
ghost use Rattle.axis_roots.specs.Openings.{IsProved};
ghost use Rattle.axis_roots.specs.Grids.{share_at, Extends, AreLeafDigests, IsHeaderOf, HasNoHeader};
ghost use Rattle.axis_roots.specs.Trees.{axis_leaves, message_at};
ghost use Rattle.axis_roots.specs.Halves.{AreOrderedLeaves, AreHalfParts};

use crate::message::{Message, index, position};
use crate::square::{header_over, quarter_and_leaves, read_leaves, share_of};
use data_header::Header;
use leopard_code::Room;
use namespace_id::{Axis, BLANK_DIGEST, Cell, Digest, MOST_LEAVES, NoMemory, Share, shares_law};
use nmt_proofs::make_leaf;
use nmt_tree::Tree;
use square_layout::Square;
use std::alloc::Global;
use std::marker::Model;

/// What is kept beside a square, and what an answer works in.
#[derive(Drop)]
pub(crate) struct HalfParts {
    // the lower left quarter of the extension
    quarter: Vec<Share>,
    // the digests of the leaves over all cells of the extension, row-major
    leaves: Vec<Digest>,
    room: Room,
    // for the leaves along one axis
    tree: Tree,
}

/// A square with its data availability header (DAH) and the left half of its extension: the square and
/// the recovery shares of its columns. It is for a square of which few samples are wanted; for many,
/// stored trees over the whole extension cost less.
///
/// Celestia specifications, "Data Structures".
#[derive(Drop)]
pub struct LeftHalf {
    square: Square,
    header: Header,
    parts: HalfParts,
}

impl Model for LeftHalf {
    ghost use Rattle.axis_roots.specs.Halves.{HeadedSquare, IsLeftHalf};

    ghost Value = { HeadedSquare };

    ghost view = { λ h. record { square = h.square; header = h.header } };

    ghost invariant = { λ h. IsLeftHalf (record { square = h.square; header = h.header }) h.parts };
}

/// Puts the leaves along an axis into a tree, by the digests of the leaves over all cells.
fn put_axis(k: u16, leaves: &[Digest], axis: Axis, index: u16, tree: &mut Tree)
    requires width { IsTrue (is_width k) }
    requires leaves { AreOrderedLeaves k leaves.now }
    requires index { index < 2 * k }
    requires tree { tree.old.count ≡ 2 * k }
    ensures count { tree.new.count ≡ tree.old.count }
    ensures leaves { (grid : List ShareOf) → AreLeafDigests k grid leaves.now →
        tree.new.leaves ≡ Some (axis_leaves k grid axis index) }
{
    let mut line = [BLANK_DIGEST; MOST_LEAVES];
    let line = &mut line[..2 * k as usize];
    read_leaves(k, leaves, axis, index, line);
    tree.put(line);
}

impl HalfParts {
    /// The share of a cell of the extension of a square.
    fn share(&mut self, square: &Square, cell: Cell) -> Share
        requires parts { AreHalfParts square.now self.old }
        requires cell { IsTrue (is_in_square square.now.k cell) }
        ensures parts { AreHalfParts square.now self.new }
        ensures leaves { self.new.leaves ≡ self.old.leaves }
        ensures share { (grid : List ShareOf) → Extends square.now.k square.now.shares grid →
            result ≡ share_at (2 * square.now.k) grid cell }
    {
        share_of(&mut self.room, square, &self.quarter, cell)
    }

    /// Puts the leaves along an axis into the tree.
    fn fill(&mut self, square: &Square, axis: Axis, index: u16)
        requires parts { AreHalfParts square.now self.old }
        requires leaves { AreOrderedLeaves square.now.k self.old.leaves.items }
        requires index { index < 2 * square.now.k }
        ensures parts { AreHalfParts square.now self.new }
        ensures leaves { self.new.leaves ≡ self.old.leaves }
        ensures tree { (grid : List ShareOf) →
            AreLeafDigests square.now.k grid self.old.leaves.items →
            self.new.tree.leaves ≡ Some (axis_leaves square.now.k grid axis index) }
    {
        put_axis(square.k, &self.leaves, axis, index, &mut self.tree);
    }
}

impl LeftHalf {
    /// Makes the left half of the extension of a square, and the square's header; none exactly where the
    /// square has no header. Each leaf is hashed once, for its row and its column.
    ///
    /// It takes memory for k * k shares and for 4 * k * k digests of leaves, besides 2k shares and k
    /// namespaces to work in, a tree of 4k - 1 digests, a header, 2k digests, and what a room for the code
    /// needs. The one refusal is that it is out of memory, which drops the square.
    ///
    /// Celestia specifications, "Data Structures", available data header.
    pub fn of(alloc: Global, square: Square) -> Result<Option<LeftHalf>, NoMemory>
        ensures square { IfOk result (λ found. IfSome found (λ half. half.square ≡ square)) }
        ensures header { IfOk result (λ found. IfSome found (λ half. IsHeaderOf half.header square)) }
        ensures none { IfOk result (λ found. IsNone found → HasNoHeader square) }
    {
        shares_law(&square.shares);
        let room = Room::new(alloc, square.k)?;
        let tree = Tree::new(alloc, 2 * square.k)?;
        let (quarter, leaves) = quarter_and_leaves(alloc, &square)?;
        let Some(header) = header_over(alloc, square.k, &leaves)? else {
            return Ok(None);
        };
        let parts = HalfParts {
            quarter,
            leaves,
            room,
            tree,
        };
        Ok(Some(LeftHalf {
            square,
            header,
            parts,
        }))
    }

    /// Says what is true of every left half. It changes nothing.
    pub fn law(&self)
        ensures header { IsHeaderOf self.now.header self.now.square }

        // The sample of each cell of the extension is proved under the header.
        ensures proved { (grid : List ShareOf) (cell : Place) (axis : Along) →
            Extends self.now.square.k self.now.square.shares grid →
            IsTrue (is_in_square self.now.square.k cell) →
            IsProved self.now.header (message_at self.now.square.k grid cell axis) }
    {
        let _k = self.square.k;
    }

    /// The data availability header (DAH) of the square.
    ///
    /// Celestia specifications, "Data Structures", available data header.
    pub fn header(&self) -> &Header
        ensures { result.now ≡ self.now.header }
    {
        &self.header
    }

    /// The sample of a cell of the extension: its share with the inclusion proof along an axis. Row and
    /// column of the cell are below 2k. It takes no memory, hashes 2k - 1 nodes and no leaf, and extends a
    /// row where the cell is in the right half.
    ///
    /// Celestia specifications, "Data Structures", namespaced Merkle tree inclusion proofs;
    /// docs/RULES.md, "Proved samples".
    pub fn sample(&mut self, cell: Cell, axis: Axis) -> Message
        requires cell { IsTrue (is_in_square self.old.square.k cell) }

        // The sample is that of the cell and the axis, shows the extension's share, and is proved under
        // the header.
        ensures value { (grid : List ShareOf) →
            Extends self.old.square.k self.old.square.shares grid →
            result ≡ message_at self.old.square.k grid cell axis }
        ensures cell { result.cell ≡ cell }
        ensures axis { result.axis ≡ axis }
        ensures share { (grid : List ShareOf) →
            Extends self.old.square.k self.old.square.shares grid →
            result.share ≡ share_at (2 * self.old.square.k) grid cell }
        ensures proved { IsProved self.old.header result }
        ensures kept { self.new ≡ self.old }
    {
        let share = self.parts.share(&self.square, cell);
        self.parts.fill(&self.square, axis, index(axis, cell));
        let path = make_leaf(&self.parts.tree, position(axis, cell));
        Message {
            cell,
            axis,
            share,
            path,
        }
    }
}
