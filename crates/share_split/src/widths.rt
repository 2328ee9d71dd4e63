//! How wide the subtrees over a blob's shares are.

ghost use Rattle.std.specs.Prelude.{ℕ, ◌≡◌, ◌≤◌, ◌<◌, ◌^◌, ◌/◌, IsTrue, false};
ghost use Rattle.std.specs.Int.{IsPowerOfTwo};
ghost use Rattle.share_split.specs.Widths.{is_wide_enough, subtree_width_of, IsLeastPower, IsLeastRoot, WidthIsLesser};

/// So many subtrees of one width hold a blob, unless they would have to be wider than the least
/// square that holds it.
///
/// Celestia specifications, "Square Layout".
pub const SUBTREE_ROOT_THRESHOLD: u64 = 64;

/// Whether subtrees of this width are wide enough for so many shares.
fn is_wide_enough(count: u64, width: u64) -> bool
    requires { width < 2 ^ 29 }
    ensures { result ≡ is_wide_enough count width }
{
    count <= SUBTREE_ROOT_THRESHOLD * width || count <= width * width
}

/// The width of the subtrees over a blob of so many shares: the least power of two by which either
/// 64 subtrees or a square of this width hold them.
///
/// Celestia specifications, "Square Layout".
pub fn subtree_width(count: u64) -> u64
    requires some { 1 ≤ count }
    requires bound { count ≤ 2 ^ 56 }
    ensures value { result ≡ subtree_width_of count }
    ensures power { IsPowerOfTwo result }
    ensures enough { IsTrue (is_wide_enough count result) }
    ensures least { 1 < result → is_wide_enough count (result / 2) ≡ false }
{
    let mut width = 1;
    while !is_wide_enough(count, width) {
        width *= 2;
    }
    width
}

/// The width of subtrees is the one of the standard's formula, and the least powers and roots that the
/// formula speaks of are there.
pub fn width_laws()
    ensures formula { WidthIsLesser }
    ensures powers { (n : ℕ) → (least : ℕ) × IsLeastPower n least }
    ensures roots { (n : ℕ) → (least : ℕ) × IsLeastRoot n least }
{}
