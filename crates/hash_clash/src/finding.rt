//! The collision that two openings or lists with one root name.
//!
//! Both trees are walked down together, from the root and into the left half first, to the first
//! interval for which both have a string and these differ: above it all strings are equal, so these
//! two have one digest. The digests of both halves are made anew at each interval, so that nothing
//! is kept: for lists of n leaves that is about n log n hashes, and no memory.

ghost use Rattle.std.specs.Prelude.{◌≡◌, ◌+◌, ◌^◌, ◌≤◌, ◌<◌, length, IsTrue, true, false, Some, None};
ghost use Rattle.namespace_id.specs.Sizes.{most_depth, most_leaves};
ghost use Rattle.nmt_tree.specs.Roots.{is_leaf_count, halvings, root};
ghost use Rattle.nmt_proofs.specs.Parts.{digest_of};
ghost use Rattle.nmt_proofs.specs.Clashes.{join_text, apart_or, clash_at, whole};
ghost use Rattle.hash_clash.specs.Openings.{opened_at, is_counted, is_one_opening, is_leaf_at, is_one_list};
ghost use Rattle.hash_clash.specs.Sides.{part_of, IsSide};
ghost use Rattle.hash_clash.specs.Collisions.{strings_in};

use crate::openings::shape_law;
use crate::sides::{Seen, Side, digest, look};
use crate::{Clash, Opening, Preimage};
use namespace_id::{Namespace, Share, namespaces_law, shares_law};
use nmt_tree::{halvings, leaf_count};

/// Two strings, where they differ.
fn differing(left: Preimage, right: Preimage) -> Option<(Preimage, Preimage)>
    ensures { result ≡ apart_or left right None }
{
    if left.bytes() == right.bytes() {
        None
    } else {
        Some((left, right))
    }
}

/// What is hashed for a node over two intervals.
fn node_text(depth: u8, start: u16, middle: u16, left: Side, right: Side) -> Preimage
    requires depth { depth ≤ most_depth }
    requires left_interval { start + 2 ^ depth ≤ most_leaves }
    requires right_interval { middle + 2 ^ depth ≤ most_leaves }
    requires left { IsSide depth left }
    requires right { IsSide depth right }
    ensures { result ≡ join_text (digest_of (part_of depth start left.entry))
        (digest_of (part_of depth middle right.entry)) }
{
    Preimage::of_node(&digest(depth, start, left), &digest(depth, middle, right))
}

/// The strings at the first interval at which two sides of 2 ^ depth places both have one and these
/// differ: the root first, then the left half.
fn find(depth: u8, start: u16, a: Side, b: Side) -> Option<(Preimage, Preimage)>
    requires depth { depth ≤ most_depth }
    requires interval { start + 2 ^ depth ≤ most_leaves }
    requires a { IsSide depth a }
    requires b { IsSide depth b }
    ensures { result ≡ clash_at (part_of depth start a.entry) (part_of depth start b.entry) }
{
    match (look(depth, start, a), look(depth, start, b)) {
        (Seen::Leaf(name, share), Seen::Leaf(other_name, other_share)) => differing(
            Preimage::of_leaf(name, share),
            Preimage::of_leaf(other_name, other_share),
        ),
        (Seen::Join(left, right), Seen::Join(other_left, other_right)) => {
            let below = depth - 1;
            let middle = start + leaf_count(below);
            let text = node_text(below, start, middle, left, right);
            let other_text = node_text(below, start, middle, other_left, other_right);
            let found = differing(text, other_text);
            if found.is_some() {
                return found;
            }
            let found = find(below, start, left, other_left);
            if found.is_some() {
                return found;
            }
            find(below, middle, right, other_right)
        }
        _ => None,
    }
}

/// The SHA-256 collision that two inclusion proofs of one place name, where they have one root and
/// differ in namespace, share or nodes. `n` is a number of leaves, a power of two up to
/// `MOST_LEAVES`, and `pos` is below it; each proof has as many nodes as there are subtrees that
/// don't hold the place. The order of joins plays no part.
///
/// The strings are those at the first interval, root first and left half before right half, for
/// which both openings have a string and these differ. It takes no memory.
///
/// docs/RULES.md, "Collisions".
pub fn clash_paths(n: u16, pos: u16, a: &Opening, b: &Opening) -> Clash
    requires leaves { IsTrue (is_leaf_count n) }
    requires place { pos < n }
    requires a_count { is_counted n pos a.now ≡ true }
    requires b_count { is_counted n pos b.now ≡ true }
    requires root { digest_of (opened_at n pos a.now) ≡ digest_of (opened_at n pos b.now) }
    requires apart { is_one_opening a.now b.now ≡ false }
    ensures { clash_at (opened_at n pos a.now) (opened_at n pos b.now)
        ≡ Some (result.left, result.right) }
{
    shape_law(a);
    shape_law(b);
    let a_side = Side::Opened(pos, a, a.path.nodes());
    let b_side = Side::Opened(pos, b, b.path.nodes());
    Clash::found(find(halvings(n as usize), 0, a_side, b_side))
}

/// The SHA-256 collision that two inclusion proofs name, of one place or of two, where they have one
/// root; none exactly where they have no string that differs at an interval for which both have one.
/// `n` is a number of leaves, a power of two up to `MOST_LEAVES`, and both places are below it; each
/// proof has as many nodes as there are subtrees that don't hold its place. The strings are chosen as
/// by `clash_paths`. It takes no memory.
///
/// docs/RULES.md, "Collisions".
pub fn clash_between(n: u16, pos_a: u16, a: &Opening, pos_b: u16, b: &Opening) -> Option<Clash>
    requires leaves { IsTrue (is_leaf_count n) }
    requires a_place { pos_a < n }
    requires b_place { pos_b < n }
    requires a_count { is_counted n pos_a a.now ≡ true }
    requires b_count { is_counted n pos_b b.now ≡ true }
    requires root { digest_of (opened_at n pos_a a.now) ≡ digest_of (opened_at n pos_b b.now) }
    ensures { strings_in result ≡ clash_at (opened_at n pos_a a.now) (opened_at n pos_b b.now) }
{
    shape_law(a);
    shape_law(b);
    let a_side = Side::Opened(pos_a, a, a.path.nodes());
    let b_side = Side::Opened(pos_b, b, b.path.nodes());
    Clash::found_in(find(halvings(n as usize), 0, a_side, b_side))
}

/// The SHA-256 collision that an inclusion proof and a list of leaves name, where they have one
/// root and the list has another namespace or another share at the place. The list has `n` leaves,
/// a power of two up to `MOST_LEAVES`; `pos` is below it, and the proof has as many nodes as there
/// are subtrees that don't hold the place. The strings are chosen as by `clash_paths`. It takes no
/// memory.
///
/// docs/RULES.md, "Collisions".
pub fn clash_path_leaves(
    n: u16,
    pos: u16,
    a: &Opening,
    names: &[Namespace],
    shares: &[Share],
) -> Clash
    requires leaves { IsTrue (is_leaf_count n) }
    requires place { pos < n }
    requires names { length names.now ≡ n }
    requires shares { length shares.now ≡ n }
    requires count { is_counted n pos a.now ≡ true }
    requires root { digest_of (opened_at n pos a.now) ≡ root (halvings n) names.now shares.now }
    requires apart { is_leaf_at names.now shares.now pos a.now.name a.now.share ≡ false }
    ensures { clash_at (opened_at n pos a.now) (whole (halvings n) names.now shares.now)
        ≡ Some (result.left, result.right) }
{
    shape_law(a);
    namespaces_law(names);
    shares_law(shares);
    let side = Side::Opened(pos, a, a.path.nodes());
    Clash::found(find(halvings(n as usize), 0, side, Side::Listed(names, shares)))
}

/// The SHA-256 collision that two lists of leaves name, where they have one root and differ. Both
/// have one number of leaves, a power of two up to `MOST_LEAVES`. The strings are chosen as by
/// `clash_paths`. It takes no memory.
///
/// docs/RULES.md, "Collisions".
pub fn clash_leaves(
    names_a: &[Namespace],
    shares_a: &[Share],
    names_b: &[Namespace],
    shares_b: &[Share],
) -> Clash
    requires leaves { IsTrue (is_leaf_count (length names_a.now)) }
    requires a_pairs { length shares_a.now ≡ length names_a.now }
    requires b_names { length names_b.now ≡ length names_a.now }
    requires b_shares { length shares_b.now ≡ length names_a.now }
    requires root { root (halvings (length names_a.now)) names_a.now shares_a.now
        ≡ root (halvings (length names_a.now)) names_b.now shares_b.now }
    requires apart { is_one_list names_a.now shares_a.now names_b.now shares_b.now ≡ false }
    ensures { clash_at (whole (halvings (length names_a.now)) names_a.now shares_a.now)
        (whole (halvings (length names_a.now)) names_b.now shares_b.now)
        ≡ Some (result.left, result.right) }
{
    namespaces_law(names_a);
    shares_law(shares_a);
    namespaces_law(names_b);
    shares_law(shares_b);
    let a_side = Side::Listed(names_a, shares_a);
    let b_side = Side::Listed(names_b, shares_b);
    Clash::found(find(halvings(names_a.len()), 0, a_side, b_side))
}
