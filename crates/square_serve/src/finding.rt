//! What is found of a namespace in a row of a square, from the row's shares and the tree over its leaves.

ghost use Rattle.std.specs.Prelude.{◌≡◌, ◌+◌, ◌*◌, ◌≤◌, ◌<◌, ℕ, List, length, map, IsSome, IfOk, true, false};
ghost use Rattle.namespace_id.specs.declared.shares.Share.{Share as ShareOf};
ghost use Rattle.namespace_id.specs.Sizes.{greatest_width};
ghost use Rattle.namespace_id.specs.Cells.{is_width};
ghost use Rattle.namespace_id.specs.Names.{is_parity};
ghost use Rattle.namespace_id.specs.Shares.{name_in};
ghost use Rattle.square_serve.specs.Serving.{count_below, count_same, found_at, found_in};
ghost use Rattle.square_serve.specs.Finding.{found_among, found_on, HasColumns};
ghost use Rattle.square_serve.specs.Rows.{IsRowTree};

use axis_roots::{Found, ShareList};
use namespace_id::{Digest, Namespace, Share, namespace_law};
use nmt_proofs::{Nodes, make_absent, make_range};
use nmt_tree::Tree;
use std::alloc::{AllocError, Global};

/// The columns of a namespace in a row whose namespaces never fall: the first one, before which all are
/// below the namespace, and how many there are.
#[derive(Clone, Copy)]
struct Columns {
    start: u16,
    count: u16,
}

/// Counts the shares of a row of a square whose namespaces are below a namespace, and those whose
/// namespaces are this one. Behind them leaves have the namespace `PARITY`, which counts for neither.
fn columns_of(shares: &[Share], namespace: &Namespace) -> Columns
    requires { length shares.now ≤ greatest_width }
    ensures start { result.start ≡ count_below namespace.now (map name_in shares.now) }
    ensures count { result.count ≡ count_same namespace.now (map name_in shares.now) }
    ensures within { result.start + result.count ≤ length shares.now }
{
    let mut columns = Columns { start: 0, count: 0 };
    for col in 0..shares.len() {
        let name = shares[col].namespace();
        if !namespace.is_at_most(&name) {
            columns.start += 1;
        } else if name == *namespace {
            columns.count += 1;
        }
    }
    columns
}

/// What is found of a namespace in a row, whose shares stand where they are: the columns of a range and the
/// nodes that open it, or an absence proof.
///
/// Celestia specifications, "Data Structures", namespace proofs.
#[derive(Debug, Drop)]
pub enum RowFound {
    /// The columns of the namespace, `count` of them from column `start` on, and the nodes that open them.
    Range {
        start: u16,
        count: u16,
        nodes: Nodes,
    },
    /// The digest of the leaf at column `pos`, which is the first above the namespace, and the nodes that
    /// open it.
    Absence {
        pos: u16,
        leaf: Digest,
        nodes: Nodes,
    },
}

/// What is found in these columns of a row: the range, or the absence proof at the first of them where there
/// are none.
fn placed_at(tree: &Tree, columns: Columns) -> RowFound
    requires some { 0 < tree.now.count }
    requires within { 2 * (columns.start + columns.count) ≤ tree.now.count }
    requires filled { IsSome tree.now.leaves }
    ensures found { (k row : ℕ) (grid front : List ShareOf) → IsRowTree k grid row front tree.now →
        found_on k grid row result ≡ found_at k grid row columns.start columns.count }
    ensures columns { HasColumns (columns.start + columns.count) result }
{
    let (start, count) = (columns.start, columns.count);
    if count == 0 {
        let absent = make_absent(tree, start);
        return RowFound::Absence {
            pos: start,
            leaf: absent.leaf,
            nodes: absent.nodes,
        };
    }
    let nodes = make_range(tree, start, count);
    RowFound::Range {
        start,
        count,
        nodes,
    }
}

/// What is found of a namespace in a row of a square, with the tree over the leaves of that row of the
/// extension. It takes no memory.
pub(crate) fn place_in(shares: &[Share], tree: &Tree, namespace: &Namespace) -> RowFound
    requires width { is_width (length shares.now) ≡ true }
    requires filled { IsSome tree.now.leaves }
    requires count { tree.now.count ≡ 2 * length shares.now }
    requires other { is_parity namespace.now ≡ false }
    ensures found { (k row : ℕ) (grid : List ShareOf) → IsRowTree k grid row shares.now tree.now →
        found_on k grid row result ≡ found_in k grid namespace.now row }
    ensures columns { HasColumns (length shares.now) result }
{
    namespace_law(namespace);
    placed_at(tree, columns_of(shares, namespace))
}

/// What is found, with memory for the shares of a range.
fn with_shares(alloc: Global, shares: &[Share], found: RowFound) -> Result<Found, AllocError>
    requires columns { HasColumns (length shares.now) found }
    ensures { IfOk result (λ kept. kept ≡ found_among shares.now found) }
{
    match found {
        RowFound::Range {
            start,
            count,
            nodes,
        } => {
            let first = start as usize;
            let list = Vec::from_slice(alloc, &shares[first..first + count as usize])?;
            let shares = ShareList { list };
            Ok(Found::Range {
                start,
                shares,
                nodes,
            })
        }
        RowFound::Absence { pos, leaf, nodes } => Ok(Found::Absence { pos, leaf, nodes }),
    }
}

/// What is found of a namespace in a row of a square, with the tree over the leaves of that row of the
/// extension. It takes memory for the shares of a range.
pub(crate) fn found_in(
    alloc: Global,
    shares: &[Share],
    tree: &Tree,
    namespace: &Namespace,
) -> Result<Found, AllocError>
    requires width { is_width (length shares.now) ≡ true }
    requires filled { IsSome tree.now.leaves }
    requires count { tree.now.count ≡ 2 * length shares.now }
    requires other { is_parity namespace.now ≡ false }
    ensures { (k row : ℕ) (grid : List ShareOf) → IsRowTree k grid row shares.now tree.now →
        IfOk result (λ found. found ≡ found_in k grid namespace.now row) }
{
    with_shares(alloc, shares, place_in(shares, tree, namespace))
}
