//! How the shares of a blob are cut into subtrees.

ghost use Rattle.std.specs.Prelude.{◌≡◌, ◌<◌, ◌≤◌, ◌+◌, ◌++◌, length};
ghost use Rattle.square_layout.specs.Refusals.{max_shares};
ghost use Rattle.blob_commit.specs.Bounds.{most_levels, most_subtrees};
ghost use Rattle.blob_commit.specs.Cuts.{cut_by, levels_of};

use crate::buffers::Sizes;
use nmt_tree::{halvings, leaf_count};
use share_split::subtree_width;

/// The powers of two up to the width of the subtrees over so many shares are those below two to
/// this.
pub(crate) fn levels_of(count: u32) -> u8
    requires some { 1 ≤ count }
    requires bound { count ≤ max_shares }
    ensures value { result ≡ levels_of count }
    ensures bound { result ≤ most_levels }
{
    halvings(subtree_width(count as u64) as usize) + 1
}

/// Into how many sizes so many shares are cut by the powers of two below two to `levels`.
pub(crate) fn cut_count(levels: u8, count: u32) -> u32
    requires { levels ≤ most_levels }
    ensures { result ≡ length (cut_by levels count) }
{
    if levels == 0 {
        return 0;
    }
    let lower = levels - 1;
    let width = leaf_count(lower) as u32;
    count / width + cut_count(lower, count % width)
}

/// Adds the sizes into which so many shares are cut by the powers of two below two to `levels`.
fn put_cut(sizes: &mut Sizes, levels: u8, count: u32)
    requires levels { levels ≤ most_levels }
    requires room { length sizes.old + length (cut_by levels count) ≤ most_subtrees }
    ensures { sizes.new ≡ sizes.old ++ cut_by levels count }
{
    if levels == 0 {
        return;
    }
    let lower = levels - 1;
    let width = leaf_count(lower) as u32;
    for _ in 0..count / width {
        sizes.push(width as u16);
    }
    put_cut(sizes, lower, count % width);
}

/// The sizes into which so many shares are cut by the powers of two below two to `levels`.
pub(crate) fn cut_by(levels: u8, count: u32) -> Sizes
    requires levels { levels ≤ most_levels }
    requires room { length (cut_by levels count) ≤ most_subtrees }
    ensures { result ≡ cut_by levels count }
{
    let mut sizes = Sizes::new();
    put_cut(&mut sizes, levels, count);
    sizes
}
