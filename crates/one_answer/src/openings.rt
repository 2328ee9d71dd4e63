//! Of joins, and of openings under the root of a tree.

ghost use Rattle.std.specs.Prelude.{◌≡◌, ◌<◌, ◌≤◌, ◌+◌, Result, IsTrue, length};
ghost use Rattle.nmt_tree.specs.Digests.{leaf_digest};
ghost use Rattle.nmt_tree.specs.Roots.{is_leaf_count};
ghost use Rattle.nmt_proofs.specs.Places.{AreAscending, AreAligned};

use namespace_id::{Digest, Namespace, Share};
use nmt_proofs::{
    OpenRefusal, PartialTree, open_absent, open_leaf, open_nodes, open_range, open_set,
};
use nmt_tree::{HashedNodes, Unordered, join};

/// Two digests have one join, or none.
pub fn join_twice(
    left: &Digest,
    right: &Digest,
) -> (Result<Digest, Unordered>, Result<Digest, Unordered>)
    ensures { result.0 ≡ result.1 }
{
    let first = join(left, right);
    let second = join(left, right);
    (first, second)
}

/// So have they beside nodes that are hashed ahead, whichever these are.
pub fn hashed_join_twice(
    one: &HashedNodes,
    other: &HashedNodes,
    place: usize,
    left: &Digest,
    right: &Digest,
) -> (Result<Digest, Unordered>, Result<Digest, Unordered>)
    ensures { result.0 ≡ result.1 }
{
    let first = one.join(place, left, right);
    let second = other.join(place, left, right);
    (first, second)
}

/// An opening of a leaf has one judgement.
pub fn open_leaf_twice(
    n: u16,
    pos: u16,
    name: &Namespace,
    share: &Share,
    nodes: &[Digest],
    root: &Digest,
) -> (Result<(), OpenRefusal>, Result<(), OpenRefusal>)
    requires leaves { IsTrue (is_leaf_count n) }
    requires place { pos < n }
    ensures { result.0 ≡ result.1 }
{
    let first = open_leaf(n, pos, name, share, nodes, root);
    let second = open_leaf(n, pos, name, share, nodes, root);
    (first, second)
}

/// So has one by a partial tree, whatever the tree keeps.
pub fn partial_leaf_twice(
    one: &mut PartialTree,
    other: &mut PartialTree,
    pos: u16,
    name: &Namespace,
    share: &Share,
    nodes: &[Digest],
) -> (Result<(), OpenRefusal>, Result<(), OpenRefusal>)
    requires place { pos < one.old.count }
    requires same { one.old ≡ other.old }
    ensures answer { result.0 ≡ result.1 }
    ensures state { one.new ≡ other.new }
{
    let first = one.open_leaf(pos, name, share, nodes);
    let second = other.open_leaf(pos, name, share, nodes);
    (first, second)
}

/// So has one whose leaf is hashed already.
pub fn open_hashed_twice(
    one: &mut PartialTree,
    other: &mut PartialTree,
    pos: u16,
    name: &Namespace,
    share: &Share,
    leaf: &Digest,
    nodes: &[Digest],
) -> (Result<(), OpenRefusal>, Result<(), OpenRefusal>)
    requires place { pos < one.old.count }
    requires leaf { leaf.now ≡ leaf_digest name.now share.now }
    requires same { one.old ≡ other.old }
    ensures answer { result.0 ≡ result.1 }
    ensures state { one.new ≡ other.new }
{
    let first = one.open_hashed(pos, name, share, leaf, nodes);
    let second = other.open_hashed(pos, name, share, leaf, nodes);
    (first, second)
}

/// So has one beside nodes that are hashed ahead, whichever these are.
pub fn open_ahead_twice(
    one: &mut PartialTree,
    other: &mut PartialTree,
    pos: u16,
    name: &Namespace,
    share: &Share,
    leaf: &Digest,
    nodes: &[Digest],
    ahead: Option<&HashedNodes>,
) -> (Result<(), OpenRefusal>, Result<(), OpenRefusal>)
    requires place { pos < one.old.count }
    requires leaf { leaf.now ≡ leaf_digest name.now share.now }
    requires same { one.old ≡ other.old }
    ensures answer { result.0 ≡ result.1 }
    ensures state { one.new ≡ other.new }
{
    let first = one.open_ahead(pos, name, share, leaf, nodes, ahead);
    let second = other.open_ahead(pos, name, share, leaf, nodes, None);
    (first, second)
}

/// So has one of a range.
pub fn open_range_twice(
    n: u16,
    from: u16,
    name: &Namespace,
    shares: &[Share],
    nodes: &[Digest],
    root: &Digest,
) -> (Result<(), OpenRefusal>, Result<(), OpenRefusal>)
    requires leaves { IsTrue (is_leaf_count n) }
    requires some { 0 < length shares.now }
    requires places { from + length shares.now ≤ n }
    ensures { result.0 ≡ result.1 }
{
    let first = open_range(n, from, name, shares, nodes, root);
    let second = open_range(n, from, name, shares, nodes, root);
    (first, second)
}

/// So has one of an absence.
pub fn open_absent_twice(
    n: u16,
    pos: u16,
    name: &Namespace,
    leaf: &Digest,
    nodes: &[Digest],
    root: &Digest,
) -> (Result<(), OpenRefusal>, Result<(), OpenRefusal>)
    requires leaves { IsTrue (is_leaf_count n) }
    requires place { pos < n }
    ensures { result.0 ≡ result.1 }
{
    let first = open_absent(n, pos, name, leaf, nodes, root);
    let second = open_absent(n, pos, name, leaf, nodes, root);
    (first, second)
}

/// So has one of a set.
pub fn open_set_twice(
    n: u16,
    places: &[u16],
    names: &[Namespace],
    shares: &[Share],
    nodes: &[Digest],
    root: &Digest,
) -> (Result<(), OpenRefusal>, Result<(), OpenRefusal>)
    requires leaves { IsTrue (is_leaf_count n) }
    requires some { 0 < length places.now }
    requires places { AreAscending 0 n places.now }
    requires names { length names.now ≡ length places.now }
    requires shares { length shares.now ≡ length places.now }
    ensures { result.0 ≡ result.1 }
{
    let first = open_set(n, places, names, shares, nodes, root);
    let second = open_set(n, places, names, shares, nodes, root);
    (first, second)
}

/// So has one of neighboring subtrees.
pub fn open_nodes_twice(
    n: u16,
    from: u16,
    sizes: &[u16],
    digests: &[Digest],
    nodes: &[Digest],
    root: &Digest,
) -> (Result<(), OpenRefusal>, Result<(), OpenRefusal>)
    requires leaves { IsTrue (is_leaf_count n) }
    requires some { 0 < length sizes.now }
    requires places { AreAligned from n sizes.now }
    requires digests { length digests.now ≡ length sizes.now }
    ensures { result.0 ≡ result.1 }
{
    let first = open_nodes(n, from, sizes, digests, nodes, root);
    let second = open_nodes(n, from, sizes, digests, nodes, root);
    (first, second)
}
