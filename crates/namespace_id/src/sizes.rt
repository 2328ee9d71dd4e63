//! How many bytes namespaces, shares, hashes and digests have, and how large squares and trees get.

ghost use Rattle.std.specs.Prelude.{◌≡◌, ◌^◌};
ghost use Rattle.namespace_id.specs.Sizes.{namespace_size, share_size, hash_size, digest_size, greatest_width, most_shares, most_leaves, most_depth};

/// The bytes of a namespace: a version byte and a 28-byte id.
///
/// Celestia specifications, "Namespace".
pub const NAMESPACE_SIZE: usize = 29;

/// The bytes of a share, of which the first are its namespace.
///
/// Celestia specifications, "Shares".
pub const SHARE_SIZE: usize = 512;

/// The bytes of a SHA-256 value.
///
/// FIPS 180-4, section 1.
pub const HASH_SIZE: usize = 32;

/// The bytes of a namespaced hash: its least and its greatest namespace, and a SHA-256 value.
///
/// Celestia specifications, "Data Structures", namespaced Merkle trees.
pub const DIGEST_SIZE: usize = 90;

/// The greatest width of a square.
///
/// docs/RULES.md, "Widths".
pub const GREATEST_WIDTH: u16 = 512;

/// The most shares of an original square.
pub const MOST_SHARES: u32 = 262144;

/// The most leaves of a tree of namespaced hashes: the shares of an extended row or column.
pub const MOST_LEAVES: usize = 1024;

/// The most levels of such a tree below its root.
pub const MOST_DEPTH: usize = 10;

/// The sizes are these numbers. It changes nothing.
pub fn sizes_laws()
    ensures namespace { NAMESPACE_SIZE ≡ namespace_size }
    ensures share { SHARE_SIZE ≡ share_size }
    ensures hash { HASH_SIZE ≡ hash_size }
    ensures digest { DIGEST_SIZE ≡ digest_size }
    ensures width { GREATEST_WIDTH ≡ greatest_width }
    ensures shares { MOST_SHARES ≡ most_shares }
    ensures leaves { MOST_LEAVES ≡ most_leaves }
    ensures depth { MOST_DEPTH ≡ most_depth }
    ensures levels { 2 ^ most_depth ≡ most_leaves }
{}
