//! The samples of a row.

ghost use Rattle.std.specs.Prelude.{◌≡◌, ◌↔◌, ◌<◌, ◌*◌, ℕ, List, length, nat_lt, false, IfOk, IsErrOf};
ghost use Rattle.namespace_id.specs.declared.shares.Share.{Share as ShareOf};
ghost use Rattle.half_rows.specs.Rows.{width_of, IsRowOf, is_ordered_row, sample_in, IsOrderedRowOf};
ghost use Rattle.half_rows.specs.Laws.{RowIsThere, RowIsOne, SamplesAreOfSquare};

use crate::lines::{line_of, tree_over, width_of};
use axis_roots::Message;
use celestia_pb::HalfRow;
use namespace_id::{Axis, Cell, NoMemory, Share};
use nmt_proofs::make_leaf;
use nmt_tree::Tree;
use std::alloc::Global;
use std::marker::Model;
use thiserror::Error;

/// Why there are no samples. The variants stand in the order in which they are tested, and memory is taken in between.
#[derive(Clone, Copy, Debug, PartialEq, Eq, Error)]
pub enum RowError {
    #[error("the square has no such row")]
    NoRow,
    #[error("the namespaces of the row fall")]
    Unordered,
    #[error("out of memory")]
    NoMemory,
}

impl From<NoMemory> for RowError {
    ghost use Rattle.half_rows.specs.declared.samples.RowError.TheVariants.{NoMemory as Full};

    ghost from_gives = { λ _ e. e ≡ Full };

    fn from(_none: NoMemory) -> RowError {
        RowError::NoMemory
    }
}

/// A row of an extended square with its tree, from which its samples are read. Contracts see the width of the square, the
/// number of the row, and its 2k shares.
#[derive(Drop)]
pub struct RowSamples {
    k: u16,
    row: u16,
    line: Vec<Share>,
    tree: Tree,
}

impl Model for RowSamples {
    ghost use Rattle.half_rows.specs.Rows.{WholeRow, IsStoredRow};

    ghost Value = { WholeRow };

    ghost view = { λ s. record { k = s.k; row = s.row; line = s.line.items } };

    ghost invariant = { λ s. IsStoredRow (record { k = s.k; row = s.row; line = s.line.items }) s.tree };
}

impl RowSamples {
    /// How many samples there are: 2k, those of columns 0 up.
    pub fn count(&self) -> u16
        ensures { result ≡ 2 * self.now.k }
    {
        2 * self.k
    }

    /// The sample of the cell in a column: its share with the inclusion proof along the row. It hashes nothing, and takes no
    /// memory.
    ///
    /// Celestia specifications, "Data Structures", namespaced Merkle tree inclusion proofs; docs/RULES.md, "Proved samples".
    pub fn sample(&self, col: u16) -> Message
        requires { col < 2 * self.now.k }
        ensures { result ≡ sample_in self.now col }
    {
        Message {
            cell: Cell { row: self.row, col },
            axis: Axis::Row,
            share: self.line[col as usize],
            path: make_leaf(&self.tree, col),
        }
    }
}

/// The samples of the row of this number that has a half: k original shares, or k recovery shares. The other half is made by the
/// erasure code, and each leaf and each node of the row's tree is hashed once.
///
/// Refuses a row that the square doesn't have, 2k or more; then a row whose leaf namespaces fall, which no header has. It takes
/// memory for 2k shares, a tree of 4k - 1 digests and 2k namespaces, and for the code; `NoMemory` may also stand in place of
/// `Unordered`.
///
/// Celestia specifications, "Data Structures"; CIP-19, "Row".
pub fn row_samples(alloc: Global, row: u16, half: HalfRow) -> Result<RowSamples, RowError>
    ensures samples { IfOk result (IsOrderedRowOf half row) }
    ensures no_row { IsErrOf result RowError.NoRow ↔ (nat_lt row (2 * width_of half) ≡ false) }
    ensures unordered { IsErrOf result RowError.Unordered → (line : List ShareOf) → IsRowOf half line →
        is_ordered_row (width_of half) row line ≡ false }
{
    let k = width_of(&half);
    if row >= 2 * k {
        return Err(RowError::NoRow);
    }
    let line = line_of(alloc, &half)?;
    let Some(tree) = tree_over(alloc, k, row, &line)? else {
        return Err(RowError::Unordered);
    };
    Ok(RowSamples { k, row, line, tree })
}

/// The laws of half rows and of the samples of their rows. It changes nothing. `made_laws` of `axis_roots` says that each sample
/// opens under the row's root.
pub fn row_laws()
    ensures there { RowIsThere }
    ensures one { RowIsOne }
    ensures of_square { SamplesAreOfSquare }
{}
