//! Where the content of compact shares stands: in the text of units, and in the shares.

ghost use Rattle.std.specs.Prelude.{◌≡◌, ◌<◌, ◌≤◌, ◌^◌};
ghost use Rattle.share_split.specs.Units.{content_start, content_place, place_in};
ghost use Rattle.share_split.specs.Walks.{share_with};

use crate::{FIRST_COMPACT_CONTENT, LATER_COMPACT_CONTENT};
use namespace_id::SHARE_SIZE;

/// Where the content of a share begins in the text.
pub(crate) fn content_start(share: usize) -> usize
    requires { share ≤ 2 ^ 54 }
    ensures { result ≡ content_start share }
{
    if share == 0 {
        return 0;
    }
    FIRST_COMPACT_CONTENT + LATER_COMPACT_CONTENT * (share - 1)
}

/// The place of the content in a share.
fn content_place(share: usize) -> usize
    ensures { result ≡ content_place share }
{
    if share == 0 {
        return SHARE_SIZE - FIRST_COMPACT_CONTENT;
    }
    SHARE_SIZE - LATER_COMPACT_CONTENT
}

/// The place in a share of a unit that starts here in the text; 0 where that is behind the share's
/// content.
pub(crate) fn place_in(share: usize, start: usize) -> u32
    requires { share < 2 ^ 54 }
    ensures { result ≡ place_in share start }
{
    if start >= content_start(share + 1) {
        return 0;
    }
    (content_place(share) + start.saturating_sub(content_start(share))) as u32
}

/// Which share has the byte at this place of the text.
pub(crate) fn share_with(at: usize) -> u64
    ensures { result ≡ share_with at }
{
    if at < FIRST_COMPACT_CONTENT {
        return 0;
    }
    (1 + (at - FIRST_COMPACT_CONTENT) / LATER_COMPACT_CONTENT) as u64
}
