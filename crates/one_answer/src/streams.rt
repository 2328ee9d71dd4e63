//! Of streams of frames.

ghost use Rattle.std.specs.Prelude.{◌≡◌, ◌<◌, ◌+◌, ◌^◌, ℕ, List, length};
ghost use Rattle.std.specs.Option.{option_map};
ghost use Rattle.da_wire.specs.Reading.{raw_seen};
ghost use Rattle.da_wire.specs.Streams.{StreamStands};

use da_wire::{FrameError, FrameStream, Pushed, RawFrame};

/// Two streams that stand for the same bytes take one count of a piece, and answer one thing.
pub fn push_twice(
    one: &mut FrameStream,
    other: &mut FrameStream,
    piece: &[u8],
) -> ((usize, Pushed), (usize, Pushed))
    requires one { one.old.taken + length piece.now < 2 ^ 64 }
    requires other { other.old.taken + length piece.now < 2 ^ 64 }
    ensures { (bytes : List ℕ) → StreamStands one.old bytes → StreamStands other.old bytes → result.0 ≡ result.1 }
{
    let first = one.push(piece);
    let second = other.push(piece);
    (first, second)
}

/// They tell one frame that ends there, or none.
pub fn last_twice<'a>(
    one: &'a FrameStream,
    other: &'a FrameStream,
) -> (Option<RawFrame<'a>>, Option<RawFrame<'a>>)
    ensures { (bytes : List ℕ) → StreamStands one.now bytes → StreamStands other.now bytes →
        option_map (λ f. raw_seen f) result.0 ≡ option_map (λ f. raw_seen f) result.1 }
{
    (one.last(), other.last())
}

/// They have one refusal of their end, or none.
pub fn end_twice(one: &FrameStream, other: &FrameStream) -> (Option<FrameError>, Option<FrameError>)
    ensures { (bytes : List ℕ) → StreamStands one.now bytes → StreamStands other.now bytes → result.0 ≡ result.1 }
{
    (one.end(), other.end())
}
