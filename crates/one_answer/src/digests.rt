//! Of digests and leaves that are hashed together.

ghost use Rattle.std.specs.Prelude.{◌≡◌, ◌<◌, ◌≤◌, ◌+◌, ◌%◌, ℕ, [], slice_index_or};
ghost use Rattle.nmt_tree.specs.Queues.{queued};

use multi_sha256::digests;
use namespace_id::Digest;
use nmt_tree::LeafQueue;

/// Eight messages have one digest each.
pub fn digests_twice<const N: usize>(
    one: &mut [[u8; N]; 8],
    other: &mut [[u8; N]; 8],
    size: usize,
) -> ([[u8; 32]; 8], [[u8; 32]; 8])
    requires whole { N % 64 ≡ 0 }
    requires room { size + 9 ≤ N }
    requires tight { N < size + 73 }
    requires same { other.old ≡ one.old }
    ensures { (j : ℕ) → j < 8 → slice_index_or result.0 j [] ≡ slice_index_or result.1 j [] }
{
    let first = digests(one, size);
    let second = digests(other, size);
    (first, second)
}

/// A queue has one next leaf, or none, and the same leaves after it.
pub fn next_twice(one: &mut LeafQueue, other: &mut LeafQueue) -> (Option<Digest>, Option<Digest>)
    requires same { queued other.old ≡ queued one.old }
    ensures answer { result.0 ≡ result.1 }
    ensures state { queued one.new ≡ queued other.new }
{
    let first = one.next();
    let second = other.next();
    (first, second)
}
