//! Of SHA-256 collisions.

ghost use Rattle.std.specs.Prelude.{◌≡◌, ◌<◌, IsTrue, length, true, false};
ghost use Rattle.nmt_tree.specs.Roots.{is_leaf_count, halvings, root};
ghost use Rattle.nmt_proofs.specs.Parts.{digest_of};
ghost use Rattle.hash_clash.specs.Openings.{opened_at, is_counted, is_one_opening, is_leaf_at, is_one_list};

use hash_clash::{
    Clash, Opening, Preimage, clash_between, clash_leaves, clash_path_leaves, clash_paths,
};
use namespace_id::{Namespace, Share};

/// Two strings are one collision, or none.
pub fn clash_of_twice(
    left: Preimage,
    right: Preimage,
    left_copy: Preimage,
    right_copy: Preimage,
) -> (Option<Clash>, Option<Clash>)
    requires left { left_copy ≡ left }
    requires right { right_copy ≡ right }
    ensures { result.0 ≡ result.1 }
{
    let first = Clash::of(left, right);
    let second = Clash::of(left_copy, right_copy);
    (first, second)
}

/// A string is one preimage, or none.
pub fn preimage_of_twice(bytes: &[u8]) -> (Option<Preimage>, Option<Preimage>)
    ensures { result.0 ≡ result.1 }
{
    let first = Preimage::of(bytes);
    let second = Preimage::of(bytes);
    (first, second)
}

/// Two openings of a leaf name one collision.
pub fn clash_paths_twice(n: u16, pos: u16, a: &Opening, b: &Opening) -> (Clash, Clash)
    requires leaves { IsTrue (is_leaf_count n) }
    requires place { pos < n }
    requires a_count { is_counted n pos a.now ≡ true }
    requires b_count { is_counted n pos b.now ≡ true }
    requires root { digest_of (opened_at n pos a.now) ≡ digest_of (opened_at n pos b.now) }
    requires apart { is_one_opening a.now b.now ≡ false }
    ensures { result.0 ≡ result.1 }
{
    let first = clash_paths(n, pos, a, b);
    let second = clash_paths(n, pos, a, b);
    (first, second)
}

/// Two openings at two places name one collision, or none.
pub fn clash_between_twice(
    n: u16,
    pos_a: u16,
    a: &Opening,
    pos_b: u16,
    b: &Opening,
) -> (Option<Clash>, Option<Clash>)
    requires leaves { IsTrue (is_leaf_count n) }
    requires a_place { pos_a < n }
    requires b_place { pos_b < n }
    requires a_count { is_counted n pos_a a.now ≡ true }
    requires b_count { is_counted n pos_b b.now ≡ true }
    requires root { digest_of (opened_at n pos_a a.now) ≡ digest_of (opened_at n pos_b b.now) }
    ensures { result.0 ≡ result.1 }
{
    let first = clash_between(n, pos_a, a, pos_b, b);
    let second = clash_between(n, pos_a, a, pos_b, b);
    (first, second)
}

/// An opening and a list of leaves name one collision.
pub fn clash_path_leaves_twice(
    n: u16,
    pos: u16,
    a: &Opening,
    names: &[Namespace],
    shares: &[Share],
) -> (Clash, Clash)
    requires leaves { IsTrue (is_leaf_count n) }
    requires place { pos < n }
    requires names { length names.now ≡ n }
    requires shares { length shares.now ≡ n }
    requires count { is_counted n pos a.now ≡ true }
    requires root { digest_of (opened_at n pos a.now) ≡ root (halvings n) names.now shares.now }
    requires apart { is_leaf_at names.now shares.now pos a.now.name a.now.share ≡ false }
    ensures { result.0 ≡ result.1 }
{
    let first = clash_path_leaves(n, pos, a, names, shares);
    let second = clash_path_leaves(n, pos, a, names, shares);
    (first, second)
}

/// Two lists of leaves name one collision.
pub fn clash_leaves_twice(
    names_a: &[Namespace],
    shares_a: &[Share],
    names_b: &[Namespace],
    shares_b: &[Share],
) -> (Clash, Clash)
    requires leaves { IsTrue (is_leaf_count (length names_a.now)) }
    requires a_pairs { length shares_a.now ≡ length names_a.now }
    requires b_names { length names_b.now ≡ length names_a.now }
    requires b_shares { length shares_b.now ≡ length names_a.now }
    requires root { root (halvings (length names_a.now)) names_a.now shares_a.now
        ≡ root (halvings (length names_a.now)) names_b.now shares_b.now }
    requires apart { is_one_list names_a.now shares_a.now names_b.now shares_b.now ≡ false }
    ensures { result.0 ≡ result.1 }
{
    let first = clash_leaves(names_a, shares_a, names_b, shares_b);
    let second = clash_leaves(names_a, shares_a, names_b, shares_b);
    (first, second)
}
