//! Openings of a leaf, of a range of leaves and of an absence, which are inclusion proofs, range proofs
//! and absence proofs, and why they are refused.

ghost use Rattle.std.specs.Prelude.{◌≡◌, ◌<◌, ◌≤◌, ◌+◌, ℕ, length, take, IsTrue, IsOk, IsErrOf, ◌↔◌, None, Some, true, false};
ghost use Rattle.namespace_id.specs.Answers.{refusal_in};
ghost use Rattle.namespace_id.specs.Sizes.{most_leaves};
ghost use Rattle.nmt_tree.specs.Roots.{is_leaf_count, halvings};
ghost use Rattle.nmt_proofs.specs.Openings.{outside, has_count, has_order, has_root, Opens, one_leaf, one_digest, leaves_from, leaves_at, intervals_from, shadow};
ghost use Rattle.nmt_proofs.specs.Places.{AreAscending, AreAligned};
ghost use Rattle.nmt_proofs.specs.Complete.{first_break, range_break, absence_break};
ghost use Rattle.nmt_proofs.specs.Causes.{HasCause, OpensRange, OpensAbsence, range_refusal, absence_refusal, set_refusal};
ghost use Rattle.nmt_proofs.specs.Pieces.{shown_pieces};

use crate::completing::{excludes, first_break};
use crate::joining::{Piece, blank_pieces, count_outside, joined};
use namespace_id::{Digest, Namespace, Share};
use nmt_tree::{halvings, leaf};
use thiserror::Error;

/// Why nodes do not open what is shown. The variants stand in the order in which they are tested.
#[derive(Clone, Copy, Debug, PartialEq, Eq, Error)]
pub enum OpenRefusal {
    /// The number of nodes isn't the number of greatest subtrees that hold nothing shown.
    #[error("the number of nodes is not that of the subtrees left out")]
    NodeCount,
    /// A join is not ordered.
    #[error("a join of two digests is not ordered")]
    Unordered,
    /// The joined value isn't the root.
    #[error("the nodes lead to another root")]
    OtherRoot,
    /// Of an opening that has to be complete, the number of the first node that leaves a place; the number
    /// of nodes stands for the digest of an absence.
    #[error("node {0} leaves room for the namespace")]
    Incomplete(u64),
}

/// Whether the nodes open the pieces under the root.
fn open(n: u16, pieces: &[Piece], nodes: &[Digest], root: &Digest) -> Result<(), OpenRefusal>
    requires { IsTrue (is_leaf_count n) }
    ensures { HasCause result (has_count (halvings n) (shown_pieces pieces.now) nodes.now)
        (has_order (halvings n) (shown_pieces pieces.now) nodes.now)
        (has_root (halvings n) (shown_pieces pieces.now) nodes.now root.now) None }
{
    let depth = halvings(n as usize);
    if nodes.len() != count_outside(depth, 0, pieces) {
        return Err(OpenRefusal::NodeCount);
    }
    let Some(value) = joined(depth, 0, pieces, nodes) else {
        return Err(OpenRefusal::Unordered);
    };
    if value == *root {
        Ok(())
    } else {
        Err(OpenRefusal::OtherRoot)
    }
}

/// Whether the nodes open the pieces under the root, and none leaves a place for the namespace; the
/// pieces begin at `from`.
fn open_complete(
    n: u16,
    pieces: &[Piece],
    nodes: &[Digest],
    root: &Digest,
    name: &Namespace,
    from: u16,
) -> Result<(), OpenRefusal>
    requires { IsTrue (is_leaf_count n) }
    ensures { HasCause result (has_count (halvings n) (shown_pieces pieces.now) nodes.now)
        (has_order (halvings n) (shown_pieces pieces.now) nodes.now)
        (has_root (halvings n) (shown_pieces pieces.now) nodes.now root.now)
        (first_break name.now from 0 (outside (halvings n) 0 (shown_pieces pieces.now)) nodes.now) }
{
    open(n, pieces, nodes, root)?;
    let depth = halvings(n as usize);
    match first_break(depth, 0, pieces, nodes, name, from, 0) {
        Some(i) => Err(OpenRefusal::Incomplete(i)),
        None => Ok(()),
    }
}

/// Writes the leaves of one namespace as pieces, from one place on.
fn put_leaves(from: u16, name: &Namespace, shares: &[Share], pieces: &mut [Piece])
    requires places { from + length shares.now ≤ most_leaves }
    requires room { length shares.now ≤ length pieces.old }
    ensures { shown_pieces (take (length shares.now) pieces.new) ≡
        shadow (leaves_from from name.now shares.now) }
{
    for i in 0..shares.len() {
        pieces[i] = Piece {
            from: from + i as u16,
            size: 1,
            digest: leaf(name, &shares[i]),
        };
    }
}

/// Writes leaves at places as pieces.
fn put_set(places: &[u16], names: &[Namespace], shares: &[Share], pieces: &mut [Piece])
    requires names { length names.now ≡ length places.now }
    requires shares { length shares.now ≡ length places.now }
    requires room { length places.now ≤ length pieces.old }
    ensures { shown_pieces (take (length places.now) pieces.new) ≡
        shadow (leaves_at places.now names.now shares.now) }
{
    for i in 0..places.len() {
        pieces[i] = Piece {
            from: places[i],
            size: 1,
            digest: leaf(&names[i], &shares[i]),
        };
    }
}

/// Writes neighboring intervals as pieces, from one place on.
fn put_intervals(from: u16, sizes: &[u16], digests: &[Digest], pieces: &mut [Piece])
    requires digests { length digests.now ≡ length sizes.now }
    requires places { AreAligned from most_leaves sizes.now }
    requires room { length sizes.now ≤ length pieces.old }
    ensures { shown_pieces (take (length sizes.now) pieces.new) ≡
        intervals_from from sizes.now digests.now }
{
    let mut at = from;
    for i in 0..sizes.len() {
        pieces[i] = Piece {
            from: at,
            size: sizes[i],
            digest: digests[i],
        };
        at += sizes[i];
    }
}

/// Verifies an NMT inclusion proof of one leaf: whether the nodes open the leaf over `share`, with
/// namespace `name`, at place `pos` of `n` leaves under the root. `n` is a power of two, at most
/// `MOST_LEAVES`, and `pos` is below it; the nodes are the digests of the greatest subtrees that
/// don't hold the place, left to right, as many as `n` has halvings.
///
/// Refuses another number of nodes, then a join that is not ordered, then another root. It takes no
/// memory.
///
/// Celestia specifications, "Data Structures", namespaced Merkle tree inclusion proofs.
pub fn open_leaf(
    n: u16,
    pos: u16,
    name: &Namespace,
    share: &Share,
    nodes: &[Digest],
    root: &Digest,
) -> Result<(), OpenRefusal>
    requires leaves { IsTrue (is_leaf_count n) }
    requires place { pos < n }
    ensures accepts { IsOk result ↔
        Opens (halvings n) (one_leaf pos name.now share.now) nodes.now root.now }

    // Each refusal comes exactly where its test is the first that fails.
    ensures node_count { IsErrOf result OpenRefusal.NodeCount ↔
        (has_count (halvings n) (one_leaf pos name.now share.now) nodes.now ≡ false) }
    ensures unordered { IsErrOf result OpenRefusal.Unordered ↔
        (has_count (halvings n) (one_leaf pos name.now share.now) nodes.now ≡ true)
        × (has_order (halvings n) (one_leaf pos name.now share.now) nodes.now ≡ false) }
    ensures other_root { IsErrOf result OpenRefusal.OtherRoot ↔
        (has_count (halvings n) (one_leaf pos name.now share.now) nodes.now ≡ true)
        × (has_order (halvings n) (one_leaf pos name.now share.now) nodes.now ≡ true)
        × (has_root (halvings n) (one_leaf pos name.now share.now) nodes.now root.now ≡ false) }

    // One leaf has nothing to be complete for.
    ensures never { (i : ℕ) → IsErrOf result (OpenRefusal.Incomplete i) → ⊥ }
{
    let pieces = [Piece {
        from: pos,
        size: 1,
        digest: leaf(name, share),
    }];
    open(n, &pieces, nodes, root)
}

/// Verifies an NMT range proof: whether the nodes open the neighboring leaves over `shares`, all with
/// namespace `name`, from place `from` on of `n` leaves under the root, and leave no other place for
/// that namespace. `n` is a power of two, at most `MOST_LEAVES`; there is a share, and their places
/// are below `n`. The nodes are the digests of the greatest subtrees that hold no place of the range,
/// left to right.
///
/// Refuses another number of nodes, then a join that is not ordered, then another root, then the
/// first node that leaves a place: left of the range its greatest namespace is not below `name`, or
/// right of it its least is not above. It takes no memory.
///
/// Celestia specifications, "Data Structures", namespace proofs; docs/RULES.md, "Namespace proofs".
pub fn open_range(
    n: u16,
    from: u16,
    name: &Namespace,
    shares: &[Share],
    nodes: &[Digest],
    root: &Digest,
) -> Result<(), OpenRefusal>
    requires leaves { IsTrue (is_leaf_count n) }
    requires some { 0 < length shares.now }
    requires places { from + length shares.now ≤ n }
    ensures accepts { IsOk result ↔
        OpensRange (halvings n) from name.now shares.now nodes.now root.now }

    // Each refusal comes exactly where its test is the first that fails.
    ensures node_count { IsErrOf result OpenRefusal.NodeCount ↔
        (has_count (halvings n) (leaves_from from name.now shares.now) nodes.now ≡ false) }
    ensures unordered { IsErrOf result OpenRefusal.Unordered ↔
        (has_count (halvings n) (leaves_from from name.now shares.now) nodes.now ≡ true)
        × (has_order (halvings n) (leaves_from from name.now shares.now) nodes.now ≡ false) }
    ensures other_root { IsErrOf result OpenRefusal.OtherRoot ↔
        (has_count (halvings n) (leaves_from from name.now shares.now) nodes.now ≡ true)
        × (has_order (halvings n) (leaves_from from name.now shares.now) nodes.now ≡ true)
        × (has_root (halvings n) (leaves_from from name.now shares.now) nodes.now root.now ≡ false) }
    ensures incomplete { (i : ℕ) → IsErrOf result (OpenRefusal.Incomplete i) ↔
        Opens (halvings n) (leaves_from from name.now shares.now) nodes.now root.now
        × (range_break (halvings n) from name.now shares.now nodes.now ≡ Some i) }

    // All of these at once.
    ensures first { refusal_in result ≡
        range_refusal (halvings n) from name.now shares.now nodes.now root.now }
{
    let mut pieces = blank_pieces();
    put_leaves(from, name, shares, &mut pieces);
    open_complete(n, &pieces[..shares.len()], nodes, root, name, from)
}

/// Verifies an NMT absence proof: whether the nodes open a digest at place `pos` of `n`
/// leaves under the root, and leave no place for the namespace `name`. `n` is a power of two, at most
/// `MOST_LEAVES`, and `pos` is below it; the nodes are as for `open_leaf`.
///
/// Refuses another number of nodes, then a join that is not ordered, then another root, then the
/// first node that leaves a place: left of the place its greatest namespace is not below `name`, or
/// right of it its least is not above. The digest of the leaf is looked at like a node on the right,
/// and its number is the number of nodes. It takes no memory.
///
/// Celestia specifications, "Data Structures", namespace proofs; docs/RULES.md, "Namespace proofs".
pub fn open_absent(
    n: u16,
    pos: u16,
    name: &Namespace,
    leaf: &Digest,
    nodes: &[Digest],
    root: &Digest,
) -> Result<(), OpenRefusal>
    requires leaves { IsTrue (is_leaf_count n) }
    requires place { pos < n }
    ensures accepts { IsOk result ↔
        OpensAbsence (halvings n) pos name.now leaf.now nodes.now root.now }

    // Each refusal comes exactly where its test is the first that fails.
    ensures node_count { IsErrOf result OpenRefusal.NodeCount ↔
        (has_count (halvings n) (one_digest pos leaf.now) nodes.now ≡ false) }
    ensures unordered { IsErrOf result OpenRefusal.Unordered ↔
        (has_count (halvings n) (one_digest pos leaf.now) nodes.now ≡ true)
        × (has_order (halvings n) (one_digest pos leaf.now) nodes.now ≡ false) }
    ensures other_root { IsErrOf result OpenRefusal.OtherRoot ↔
        (has_count (halvings n) (one_digest pos leaf.now) nodes.now ≡ true)
        × (has_order (halvings n) (one_digest pos leaf.now) nodes.now ≡ true)
        × (has_root (halvings n) (one_digest pos leaf.now) nodes.now root.now ≡ false) }
    ensures incomplete { (i : ℕ) → IsErrOf result (OpenRefusal.Incomplete i) ↔
        Opens (halvings n) (one_digest pos leaf.now) nodes.now root.now
        × (absence_break (halvings n) pos name.now leaf.now nodes.now ≡ Some i) }

    // All of these at once.
    ensures first { refusal_in result ≡
        absence_refusal (halvings n) pos name.now leaf.now nodes.now root.now }
{
    let from = pos;
    let pieces = [Piece {
        from,
        size: 1,
        digest: *leaf,
    }];
    open_complete(n, &pieces, nodes, root, name, from)?;
    if excludes(name, false, leaf) {
        Ok(())
    } else {
        Err(OpenRefusal::Incomplete(nodes.len() as u64))
    }
}

/// Verifies one NMT inclusion proof of several leaves: whether the nodes open the leaves over `shares`,
/// each with its namespace of `names`, at their places of `n` leaves under the root. `n` is a power of
/// two, at most `MOST_LEAVES`. The places ascend, there is one at least, and each is below `n`. The
/// nodes are the digests of the greatest subtrees that hold none of the places, left to right.
///
/// Refuses another number of nodes, then a join that is not ordered, then another root. It takes no
/// memory.
///
/// Celestia specifications, "Data Structures", namespaced Merkle trees; docs/RULES.md, "Openings of
/// several places".
pub fn open_set(
    n: u16,
    places: &[u16],
    names: &[Namespace],
    shares: &[Share],
    nodes: &[Digest],
    root: &Digest,
) -> Result<(), OpenRefusal>
    requires leaves { IsTrue (is_leaf_count n) }
    requires some { 0 < length places.now }
    requires places { AreAscending 0 n places.now }
    requires names { length names.now ≡ length places.now }
    requires shares { length shares.now ≡ length places.now }
    ensures accepts { IsOk result ↔
        Opens (halvings n) (leaves_at places.now names.now shares.now) nodes.now root.now }

    // Each refusal comes exactly where its test is the first that fails.
    ensures node_count { IsErrOf result OpenRefusal.NodeCount ↔
        (has_count (halvings n) (leaves_at places.now names.now shares.now) nodes.now ≡ false) }
    ensures unordered { IsErrOf result OpenRefusal.Unordered ↔
        (has_count (halvings n) (leaves_at places.now names.now shares.now) nodes.now ≡ true)
        × (has_order (halvings n) (leaves_at places.now names.now shares.now) nodes.now ≡ false) }
    ensures other_root { IsErrOf result OpenRefusal.OtherRoot ↔
        (has_count (halvings n) (leaves_at places.now names.now shares.now) nodes.now ≡ true)
        × (has_order (halvings n) (leaves_at places.now names.now shares.now) nodes.now ≡ true)
        × (has_root (halvings n) (leaves_at places.now names.now shares.now) nodes.now root.now ≡ false) }

    // All of these at once; a set has nothing to be complete for.
    ensures first { refusal_in result ≡
        set_refusal (halvings n) (leaves_at places.now names.now shares.now) nodes.now root.now }
    ensures never { (i : ℕ) → IsErrOf result (OpenRefusal.Incomplete i) → ⊥ }
{
    let mut pieces = blank_pieces();
    put_set(places, names, shares, &mut pieces);
    open(n, &pieces[..places.len()], nodes, root)
}

/// Verifies an NMT proof of neighboring subtrees: whether the nodes open their digests, from place `from`
/// on of `n` leaves, under the root. `n` is a power of two, at most `MOST_LEAVES`. Each subtree has a
/// power of two of places, and begins at a multiple of that; there is one at least, and they end at or
/// before `n`. The nodes are the digests of the greatest subtrees that hold no place of theirs, left to
/// right.
///
/// Refuses another number of nodes, then a join that is not ordered, then another root. It takes no
/// memory.
///
/// Celestia specifications, "Data Structures", namespaced Merkle trees; docs/RULES.md, "Openings of
/// subtrees".
pub fn open_nodes(
    n: u16,
    from: u16,
    sizes: &[u16],
    digests: &[Digest],
    nodes: &[Digest],
    root: &Digest,
) -> Result<(), OpenRefusal>
    requires leaves { IsTrue (is_leaf_count n) }
    requires some { 0 < length sizes.now }
    requires places { AreAligned from n sizes.now }
    requires digests { length digests.now ≡ length sizes.now }
    ensures accepts { IsOk result ↔
        Opens (halvings n) (intervals_from from sizes.now digests.now) nodes.now root.now }

    // Each refusal comes exactly where its test is the first that fails.
    ensures node_count { IsErrOf result OpenRefusal.NodeCount ↔
        (has_count (halvings n) (intervals_from from sizes.now digests.now) nodes.now ≡ false) }
    ensures unordered { IsErrOf result OpenRefusal.Unordered ↔
        (has_count (halvings n) (intervals_from from sizes.now digests.now) nodes.now ≡ true)
        × (has_order (halvings n) (intervals_from from sizes.now digests.now) nodes.now ≡ false) }
    ensures other_root { IsErrOf result OpenRefusal.OtherRoot ↔
        (has_count (halvings n) (intervals_from from sizes.now digests.now) nodes.now ≡ true)
        × (has_order (halvings n) (intervals_from from sizes.now digests.now) nodes.now ≡ true)
        × (has_root (halvings n) (intervals_from from sizes.now digests.now) nodes.now root.now ≡ false) }

    // All of these at once; subtrees have nothing to be complete for.
    ensures first { refusal_in result ≡
        set_refusal (halvings n) (intervals_from from sizes.now digests.now) nodes.now root.now }
    ensures never { (i : ℕ) → IsErrOf result (OpenRefusal.Incomplete i) → ⊥ }
{
    let mut pieces = blank_pieces();
    put_intervals(from, sizes, digests, &mut pieces);
    open(n, &pieces[..sizes.len()], nodes, root)
}
