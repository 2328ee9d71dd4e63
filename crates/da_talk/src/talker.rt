//! What replies to the frames of a talk.

ghost use Rattle.std.specs.Prelude.{◌≡◌, ◌≢◌, ◌≤◌, ◌<◌, ◌+◌, ◌^◌, ◌++◌, ◌∷◌, [], ℕ, List, Bool, true, false, length, vec_capacity, IfOk, IsErr};
ghost use Rattle.std.specs.Option.{option_map};
ghost use Rattle.da_wire.specs.Reading.{Raw, raw_seen};
ghost use Rattle.da_talk.specs.Handed.{if_within};
ghost use Rattle.da_talk.specs.declared.talker.Turn.TheVariants as turn;

use da_wire::RawFrame;
use namespace_id::NoMemory;

/// How a talk goes on behind a frame.
#[derive(Clone, Copy, Debug, PartialEq, Eq)]
pub enum Turn {
    /// The frame is replied to, and the talk goes on.
    GoesOn,
    /// The frame ended the talk, and only the last words are due.
    Over,
    /// The frame is none that is replied to: the talk ends where it begins, and nothing is due any more.
    Unfit,
}

/// What replies to the frames of a talk, one after another, and keeps what it needs for that, until it is over: then it waits
/// for no more of them.
pub trait Talker {
    /// It is as it has to be before a talk.
    ghost is_fresh: { Self → Type 0 };

    /// From the first value on, these frames led to the second.
    ghost led: { Self → Self → List Raw → Type 0 };

    /// Whether a frame ended the talk.
    ghost is_over: { Self → Bool };

    /// The most bytes of a payload that it is handed: of a frame with a longer one it is handed nothing.
    ghost longest: { Self → ℕ };

    /// The capacity that a text needs. Nothing longer is written but where a call may run out of memory.
    ghost most: { Self → ℕ };

    /// Its calls may run out of memory.
    ghost takes_memory: { Self → Type 0 };

    /// What is due before the first frame.
    ghost begins: { Self → List ℕ → Type 0 };

    /// What is due to a frame behind others, where the talk goes on.
    ghost replies: { Self → List Raw → Raw → List ℕ → Type 0 };

    /// A frame behind others is none that is replied to.
    ghost refuses: { Self → List Raw → Raw → Type 0 };

    /// What is due at last where the last of these frames ended the talk, and how that leaves the value.
    ghost decides: { Self → Self → List Raw → List ℕ → Type 0 };

    /// What is due at last where the bytes ended behind these frames, and how that leaves the value.
    ghost ends: { Self → Self → List Raw → List ℕ → Type 0 };

    /// Writes what is due before the first frame into an empty text.
    fn begin(&mut self, text: &mut Vec<u8>)
        requires fresh { is_fresh self.old }
        requires empty { text.old.items ≡ [] }
        requires capacity { most self.old ≤ vec_capacity text.old }
        ensures led { led self.old self.new [] }
        ensures due { begins self.old text.new.items }
        ensures over { is_over self.new ≡ false }
        ensures longest { longest self.new ≡ longest self.old }
        ensures most { most self.new ≡ most self.old }
        ensures capacity { vec_capacity text.old ≤ vec_capacity text.new };

    /// Writes what is due to the frame with a number, counted from 0, into an empty text, and answers how the talk goes on. Where the
    /// frame ended it, nothing is written: `close` writes what is due then. Where it is none that is replied to, what is written counts
    /// for nothing.
    fn answer(
        &mut self,
        number: u64,
        frame: Option<RawFrame<'_>>,
        text: &mut Vec<u8>,
    ) -> Result<Turn, NoMemory>
        requires open { is_over self.old ≡ false }
        requires few { number + 1 < 2 ^ 64 }
        requires empty { text.old.items ≡ [] }
        requires capacity { most self.old ≤ vec_capacity text.old }
        ensures led { IfOk result (λ went. went ≢ turn.Unfit → (first : Self) (frames : List Raw) (raw : Raw) →
            led first self.old frames → length frames ≡ number →
            option_map (λ f. raw_seen f) frame.entry ≡ if_within (longest self.old) raw →
            led first self.new (frames ++ raw ∷ [])) }
        ensures due { IfOk result (λ went. went ≡ turn.GoesOn → (first : Self) (frames : List Raw) (raw : Raw) →
            led first self.old frames → length frames ≡ number →
            option_map (λ f. raw_seen f) frame.entry ≡ if_within (longest self.old) raw →
            replies first frames raw text.new.items) }
        ensures refused { IfOk result (λ went. went ≡ turn.Unfit → (first : Self) (frames : List Raw) (raw : Raw) →
            led first self.old frames → length frames ≡ number →
            option_map (λ f. raw_seen f) frame.entry ≡ if_within (longest self.old) raw →
            refuses first frames raw) }
        ensures over { IfOk result (λ went. went ≡ turn.Over → (is_over self.new ≡ true) × (text.new.items ≡ [])) }
        ensures open { IfOk result (λ went. went ≡ turn.GoesOn → is_over self.new ≡ false) }
        ensures memory { IsErr result → takes_memory self.old }
        ensures longest { longest self.new ≡ longest self.old }
        ensures most { most self.new ≡ most self.old }
        ensures capacity { vec_capacity text.old ≤ vec_capacity text.new };

    /// Writes what is due at last into an empty text.
    fn close(&mut self, text: &mut Vec<u8>)
        requires empty { text.old.items ≡ [] }
        requires capacity { most self.old ≤ vec_capacity text.old }
        ensures decided { (first : Self) (frames : List Raw) → led first self.old frames → is_over self.old ≡ true →
            decides first self.new frames text.new.items }
        ensures ended { (first : Self) (frames : List Raw) → led first self.old frames → is_over self.old ≡ false →
            ends first self.new frames text.new.items };

    /// What a frame takes memory for is known of a value as it is before a talk.
    ghost takes_none: { (first now : Self) (frames : List Raw) → led first now frames → takes_memory now → takes_memory first };
}
