//! How long frames are.

ghost use Rattle.std.specs.Prelude.{◌≡◌};
ghost use Rattle.da_watching.specs.Sizes.{most_claim, most_said};

use da_talk::most_missing;

/// The bytes of a frame before its payload.
const HEAD_SIZE: usize = 5;

/// The most bytes of the payload of a fraud claim, whatever the width of its square.
///
/// docs/FORMATS.md, "Payloads".
pub const MOST_CLAIM: usize = 770_179;

/// The most bytes of what a watcher says at once under a header of width `k`: a text needs room for so many.
pub fn most_said(k: u16) -> usize
    ensures { result ≡ most_said k }
{
    (HEAD_SIZE + MOST_CLAIM).max(most_missing(k))
}
