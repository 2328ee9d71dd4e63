//! Samples, and whether one is proved under a header.

ghost use Rattle.std.specs.Prelude.{◌≡◌, ◌↔◌, IsOk, IsErrOf, IsErrAnd, true, false, map, nat_lt};
ghost use Rattle.namespace_id.specs.Answers.{refusal_in};
ghost use Rattle.namespace_id.specs.Lists.{holds_along};
ghost use Rattle.axis_roots.specs.Messages.{position, index, is_inside, has_node_count, has_ordered_joins, is_under_root, message_refusal, IsMessage};
ghost use Rattle.axis_roots.specs.Openings.{IsProved};
ghost use Rattle.axis_roots.specs.Own.{IsOwn};

use data_header::Header;
use namespace_id::{Axis, Cell, Share, digests_law, is_in_square, leaf_namespace, share_law};
use nmt_proofs::{OpenRefusal, Path, open_leaf};
use thiserror::Error;

/// A sample: a share of a cell with its inclusion proof under the root of its row or its column, as
/// one node sends it to another.
///
/// The cell may be any, and so may the nodes: whether a square has the cell and whether the nodes
/// open the share is for `opens`.
///
/// docs/RULES.md, "Proved samples".
#[derive(Debug, Drop)]
pub struct Message {
    pub cell: Cell,
    pub axis: Axis,
    pub share: Share,
    pub path: Path,
}

/// Why a sample is not proved. The variants stand in the order in which they are tested.
#[derive(Clone, Copy, Debug, PartialEq, Eq, Error)]
pub enum CheckRefusal {
    #[error("the cell is outside the square")]
    OutOfSquare,
    #[error("the number of nodes is not that of the subtrees left out")]
    NodeCount,
    #[error("a join of two digests is not ordered")]
    Unordered,
    #[error("the nodes lead to another root")]
    OtherRoot,
}

/// The place of a cell on its row or its column.
pub fn position(axis: Axis, cell: Cell) -> u16
    ensures { result ≡ position axis cell }
{
    match axis {
        Axis::Row => cell.col,
        Axis::Col => cell.row,
    }
}

/// Whether the position of each sample's cell on the axis is below that of the next one.
pub fn are_ascending(axis: Axis, cells: &[Message]) -> bool
    ensures { result ≡ holds_along nat_lt (map (λ m. position axis m.cell) cells.now) }
{
    for i in 1..cells.len() {
        if position(axis, cells[i - 1].cell) >= position(axis, cells[i].cell) {
            return false;
        }
    }
    true
}

/// Which row or column runs through a cell: the row's number, or the column's.
///
/// docs/RULES.md, "Proved samples".
pub fn index(axis: Axis, cell: Cell) -> u16
    ensures { result ≡ index axis cell }
{
    match axis {
        Axis::Row => cell.row,
        Axis::Col => cell.col,
    }
}

/// A sample has numbers of two bytes, a share, and up to `MOST_DEPTH` digests. It changes nothing.
pub fn message_law(message: &Message)
    ensures { IsMessage message.now }
{
    // Reading the numbers of the cell tells that they have two bytes.
    let _row = message.cell.row;
    let _col = message.cell.col;
    share_law(&message.share);
    digests_law(message.path.nodes());
}

/// Verifies a sample under a data availability header: whether its nodes open its share, with the
/// leaf namespace of its cell, under the header's root of its axis. Under the header of a square it
/// then shows the share that the square's extension has at its cell, or it and the square name two
/// strings with one SHA-256 digest.
///
/// Refuses a cell outside the square, then another number of nodes than 2k has halvings, then a
/// join that is not ordered, then another root. It takes no memory. `check` judges alike, and keeps
/// what it accepts as a certificate.
///
/// Celestia specifications, "Data Structures", namespaced Merkle tree inclusion proofs;
/// docs/RULES.md, "Proved samples".
pub fn opens(header: &Header, message: &Message) -> Result<(), CheckRefusal>
    ensures accepts { IsOk result ↔ IsProved header.now message.now }
    ensures out_of_square { IsErrOf result CheckRefusal.OutOfSquare ↔
        (is_inside header.now message.now ≡ false) }
    ensures node_count { IsErrOf result CheckRefusal.NodeCount ↔
        (is_inside header.now message.now ≡ true)
        × (has_node_count header.now message.now ≡ false) }
    ensures unordered { IsErrOf result CheckRefusal.Unordered ↔
        (is_inside header.now message.now ≡ true)
        × (has_node_count header.now message.now ≡ true)
        × (has_ordered_joins header.now message.now ≡ false) }
    ensures other_root { IsErrOf result CheckRefusal.OtherRoot ↔
        (is_inside header.now message.now ≡ true)
        × (has_node_count header.now message.now ≡ true)
        × (has_ordered_joins header.now message.now ≡ true)
        × (is_under_root header.now message.now ≡ false) }

    // All of these at once.
    ensures first { refusal_in result ≡ message_refusal header.now message.now }

    // Under the header of a square, what is accepted is the square's own share, or the sample and the
    // square name a collision.
    ensures own { IsOk result → IsOwn header.now message.now }
{
    message_law(message);
    if !is_in_square(header.k, message.cell) {
        return Err(CheckRefusal::OutOfSquare);
    }
    let name = leaf_namespace(header.k, message.cell, &message.share);
    let root = header.root_of(message.axis, index(message.axis, message.cell));
    let pos = position(message.axis, message.cell);
    match open_leaf(
        2 * header.k,
        pos,
        &name,
        &message.share,
        message.path.nodes(),
        &root,
    ) {
        Ok(()) => Ok(()),
        Err(OpenRefusal::NodeCount) => Err(CheckRefusal::NodeCount),
        Err(OpenRefusal::Unordered) => Err(CheckRefusal::Unordered),
        Err(_) => Err(CheckRefusal::OtherRoot),
    }
}
