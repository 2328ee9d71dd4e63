//! Whether a namespace answer is complete under a header.

ghost use Rattle.std.specs.Prelude.{◌≡◌, ◌↔◌, ◌<◌, ℕ, IsTrue, IsOk, IsErrOf, Some, None, true, false, drop};
ghost use Rattle.std.specs.List.{AllByRecursion};
ghost use Rattle.namespace_id.specs.Answers.{refusal_in};
ghost use Rattle.namespace_id.specs.Names.{is_parity};
ghost use Rattle.namespace_id.specs.Cells.{is_width};
ghost use Rattle.nmt_proofs.specs.declared.opening.OpenRefusal.{OpenRefusal as Refusal};
ghost use Rattle.square_serve.specs.Answers.{IsComplete, is_placed, found_refusal, first_misplaced, first_refused, answer_refusal};
ghost use Rattle.square_serve.specs.Placed.{stands_at, IsPlacedEntry};
ghost use Rattle.square_serve.specs.Own.{IsOwnAnswer};

use crate::answer_laws;
use crate::rows::is_wanted;
use axis_roots::{Found, NsAnswer, NsEntry, answer_law};
use data_header::Header;
use namespace_id::{Axis, Digest, Namespace, namespace_law};
use nmt_proofs::{OpenRefusal, open_absent, open_range};
use thiserror::Error;

/// Why a namespace answer isn't complete. The variants stand in the order in which they are tested.
#[derive(Clone, Copy, Debug, PartialEq, Eq, Error)]
pub enum NsRefusal {
    /// The shares of PARITY are asked for, which no answer can be complete for.
    #[error("the namespace of parity shares")]
    Parity,
    /// The first place at which the rows of the entries aren't the rows that may hold the namespace, or
    /// at which an entry has no share or a column that the original square doesn't have.
    #[error("entry {0} is not that of the next row that may hold the namespace")]
    Rows(u64),
    /// The first entry that doesn't open under its row's root, or isn't complete, and why.
    #[error("entry {0} does not hold: {1}")]
    Proof(u64, OpenRefusal),
}

/// Whether what is found stands in the columns of the original square.
fn is_placed(k: u16, found: &Found) -> bool
    ensures { result ≡ is_placed k found.now }
{
    match found {
        Found::Range { start, shares, .. } => {
            let count = shares.list.len();
            count > 0 && *start as usize + count <= k as usize
        }
        Found::Absence { pos, .. } => *pos < k,
    }
}

/// Whether there is an entry of this number, and it is that of the row, in the columns of the original
/// square.
fn stands_at(k: u16, row: u16, entries: &[NsEntry], number: usize) -> bool
    ensures { result ≡ stands_at k row (drop number entries.now) }
{
    if number >= entries.len() {
        return false;
    }
    let entry = &entries[number];
    entry.row == row && is_placed(k, &entry.found)
}

/// The first entry that isn't that of the next wanted row, or isn't placed. The wanted rows are not
/// gathered: a number of the next entry walks along.
fn first_misplaced(header: &Header, name: &Namespace, entries: &[NsEntry]) -> Option<u64>
    ensures { result ≡ first_misplaced header.now name.now entries.now }
{
    let mut next = 0;
    for row in 0..header.k {
        if is_wanted(header, name, row) {
            if !stands_at(header.k, row, entries, next) {
                return Some(next as u64);
            }
            next += 1;
        }
    }
    if next < entries.len() {
        Some(next as u64)
    } else {
        None
    }
}

/// Whether what is found in a row opens under the row's root, and leaves no other place for the
/// namespace.
fn opens_found(k: u16, root: &Digest, name: &Namespace, found: &Found) -> Result<(), OpenRefusal>
    requires width { IsTrue (is_width k) }
    requires placed { is_placed k found.now ≡ true }
    ensures { refusal_in result ≡ found_refusal k root.now name.now found.now }
{
    match found {
        Found::Range {
            start,
            shares,
            nodes,
        } => open_range(2 * k, *start, name, &shares.list, nodes.nodes(), root),
        Found::Absence { pos, leaf, nodes } => {
            open_absent(2 * k, *pos, name, leaf, nodes.nodes(), root)
        }
    }
}

/// The first entry that doesn't open, and why. Each is placed in a row of the original square.
fn first_refused(
    header: &Header,
    name: &Namespace,
    entries: &[NsEntry],
) -> Option<(u64, OpenRefusal)>
    requires { AllByRecursion (IsPlacedEntry header.now.k) entries.now }
    ensures { result ≡ first_refused header.now name.now entries.now }
{
    for i in 0..entries.len() {
        let entry = &entries[i];
        let root = header.root_of(Axis::Row, entry.row);
        if let Err(why) = opens_found(header.k, &root, name, &entry.found) {
            return Some((i as u64, why));
        }
    }
    None
}

/// The three checks in their order.
fn judge(header: &Header, name: &Namespace, entries: &[NsEntry]) -> Result<(), NsRefusal>
    ensures { refusal_in result ≡ answer_refusal header.now name.now entries.now }
{
    if name.is_parity() {
        return Err(NsRefusal::Parity);
    }
    if let Some(i) = first_misplaced(header, name, entries) {
        return Err(NsRefusal::Rows(i));
    }
    match first_refused(header, name, entries) {
        Some((i, why)) => Err(NsRefusal::Proof(i, why)),
        None => Ok(()),
    }
}

/// Verifies a namespace answer under a data availability header: whether there is an entry for each row
/// of the original square that may hold the namespace, from the first down, and each opens under the
/// root of its row and leaves no other place in it for the namespace. Under the header of a square it
/// then shows exactly the square's shares of the namespace, or an entry and the square name two strings
/// with one SHA-256 digest.
///
/// Refuses `PARITY`, then the first entry that stands at a wrong place, then the first that doesn't
/// open, with the reason of `open_range` or `open_absent`. It takes no memory.
///
/// Celestia specifications, "Data Structures", namespace proofs; docs/RULES.md, "Namespace answers".
pub fn check_namespace(
    header: &Header,
    namespace: &Namespace,
    answer: &NsAnswer,
) -> Result<(), NsRefusal>
    ensures accepts { IsOk result ↔ IsComplete header.now namespace.now answer.now }

    // Each refusal comes exactly where its test is the first that fails.
    ensures parity { IsErrOf result NsRefusal.Parity ↔ (is_parity namespace.now ≡ true) }
    ensures rows { (i : ℕ) → IsErrOf result (NsRefusal.Rows i) ↔
        (is_parity namespace.now ≡ false)
        × (first_misplaced header.now namespace.now answer.now ≡ Some i) }
    ensures proof { (i : ℕ) (why : Refusal) → IsErrOf result (NsRefusal.Proof i why) ↔
        (is_parity namespace.now ≡ false)
        × (first_misplaced header.now namespace.now answer.now ≡ None)
        × (first_refused header.now namespace.now answer.now ≡ Some (i, why)) }

    // All of these at once.
    ensures first { refusal_in result ≡ answer_refusal header.now namespace.now answer.now }

    // Under the header of a square, what is accepted is exactly the square's shares of the namespace, or
    // an entry and the square name a collision.
    ensures own { IsOk result → IsOwnAnswer header.now namespace.now answer.now }
{
    namespace_law(namespace);
    answer_law(answer);
    answer_laws();
    judge(header, namespace, &answer.entries)
}
