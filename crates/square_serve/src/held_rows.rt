//! A square that is held without its extension, and its answers to namespace requests.

ghost use Rattle.std.specs.Prelude.{◌≡◌, ◌↔◌, List, IsOk, IsErrOf, IfOk, map, true, false};
ghost use Rattle.namespace_id.specs.declared.shares.Share.{Share as ShareOf};
ghost use Rattle.namespace_id.specs.Names.{is_parity};
ghost use Rattle.data_header.specs.Headers.{Roots};
ghost use Rattle.axis_roots.specs.Grids.{Extends, IsHeaderOf, HasNoHeader, grid_roots};
ghost use Rattle.square_serve.specs.Shares.{namespace_shares};
ghost use Rattle.square_serve.specs.Answers.{shown, wanted_rows, IsComplete};
ghost use Rattle.square_serve.specs.Rows.{HasHeader, AreHeldRows};
ghost use Rattle.square_serve.specs.Serving.{HeldParts, Holds, row_entry, answer_for};

use crate::finding::found_in;
use crate::ordering::has_header;
use crate::row_trees::RowTrees;
use crate::rows::{RowNames, row_names, row_of};
use crate::{HeldError, ServeError, serve_laws};
use axis_roots::{NsAnswer, NsEntry};
use namespace_id::{Namespace, namespace_law};
use square_layout::Square;
use std::alloc::{AllocError, Global};
use std::marker::Model;

/// A square that a node holds and answers namespace requests from, without its extension. The namespaced
/// Merkle tree (NMT) of a row is made when an answer first needs it: the row is extended, and its leaves are
/// hashed. Columns, and the rows below the square, are never made.
///
/// Celestia specifications, "Data Structures".
pub struct HeldRows {
    square: Square,
    // one for each row of the square
    names: Vec<RowNames>,
    trees: RowTrees,
}

impl Model for HeldRows {
    ghost use Rattle.square_layout.specs.Blocks.{SquareShares};
    ghost use Rattle.square_serve.specs.Rows.{AreHeldRows};

    ghost Value = { SquareShares };

    ghost view = { λ h. h.square };

    ghost invariant = { λ h. AreHeldRows h.square h.names.items h.trees };
}

impl Drop for HeldRows {
    fn drop(self) {
        let HeldRows {
            square: _,
            names: _,
            trees: _,
        } = self;
    }
}

/// The entries of the rows of a square that may hold a namespace. The trees over these rows are made, those
/// of other rows aren't.
fn entries_of(
    alloc: Global,
    square: &Square,
    names: &[RowNames],
    trees: &mut RowTrees,
    namespace: &Namespace,
) -> Result<Vec<NsEntry>, AllocError>
    requires held { AreHeldRows square.now names.now trees.old }
    requires other { is_parity namespace.now ≡ false }
    ensures held { AreHeldRows square.now names.now trees.new }
    ensures entries { IfOk result (λ entries. (grid : List ShareOf) →
        Extends square.now.k square.now.shares grid → entries.items ≡
        map (row_entry square.now.k grid namespace.now)
        (wanted_rows (grid_roots square.now.k grid) namespace.now)) }
{
    let mut entries = Vec::new(alloc);
    for row in 0..square.k {
        if names[row as usize].may_hold(namespace) {
            trees.make(square, row);
            let found = found_in(alloc, row_of(square, row), trees.tree(row), namespace)?;
            entries.push(NsEntry { row, found })?;
        }
    }
    Ok(entries)
}

impl HeldRows {
    /// Sees that a square has a header. Nothing is extended or hashed yet.
    ///
    /// Refuses a square without a header, which drops it. It takes all memory but that of answers: for k
    /// trees of 4k - 1 digests each, 2k namespaces, and for what it works with besides.
    ///
    /// Celestia specifications, "Data Structures", available data header.
    pub fn of(alloc: Global, square: Square) -> Result<HeldRows, HeldError>
        ensures no_header { IsErrOf result HeldError.NoHeader → HasNoHeader square }
        ensures header { IsOk result → HasHeader square }
        ensures held { IfOk result (λ held. held ≡ square) }
    {
        if !has_header(&square) {
            return Err(HeldError::NoHeader);
        }
        let names = row_names(alloc, &square)?;
        let trees = RowTrees::of(alloc, &square)?;
        Ok(HeldRows {
            square,
            names,
            trees,
        })
    }

    /// Says what is true of every square that is held. It changes nothing.
    pub fn held_law(&self)
        ensures header { HasHeader self.now }
    {
        let _square = &self.square;
    }

    /// The answer to a namespace request: that of `Held`, for each row of the square that may hold the
    /// namespace, from the first down, its shares there with the range proof, or an absence proof. It
    /// hashes nothing where the trees of these rows were needed before.
    ///
    /// Refuses exactly `PARITY`. It takes memory for the entries and for the shares that they show.
    ///
    /// Celestia specifications, "Data Structures", namespace proofs; docs/RULES.md, "Namespace answers".
    pub fn namespace(
        &mut self,
        alloc: Global,
        namespace: &Namespace,
    ) -> Result<NsAnswer, ServeError>
        ensures parity { IsErrOf result ServeError.Parity ↔ (is_parity namespace.now ≡ true) }
        ensures value { IfOk result (λ answer. (held : HeldParts) → Holds held self.old →
            answer ≡ answer_for held namespace.now) }

        // The answer is complete under the header, and shows exactly the shares of the square that is held.
        ensures complete { IfOk result (λ answer. (header : Roots) → IsHeaderOf header self.old →
            IsComplete header namespace.now answer) }
        ensures shares { IfOk result (λ answer. shown answer ≡ namespace_shares self.old namespace.now) }
        ensures kept { self.new ≡ self.old }
    {
        if namespace.is_parity() {
            return Err(ServeError::Parity);
        }
        self.held_law();
        let entries = entries_of(alloc, &self.square, &self.names, &mut self.trees, namespace)?;
        // These tell that the answer is complete, and what it shows.
        namespace_law(namespace);
        serve_laws();
        Ok(NsAnswer { entries })
    }
}
