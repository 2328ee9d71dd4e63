//! What a frame is of which its bytes are handed, or nothing where it is too long.

ghost use Rattle.std.specs.Prelude.{◌≡◌, ◌≤◌, ℕ};
ghost use Rattle.std.specs.Option.{option_map};
ghost use Rattle.frame_payloads.specs.kinds.Message.{most_message};
ghost use Rattle.da_wire.specs.Reading.{Raw, raw_seen};
ghost use Rattle.da_wire.specs.Frames.{raw_message};
ghost use Rattle.da_talk.specs.Handed.{if_within, asks_state};

use axis_roots::Message;
use da_wire::RawFrame;
use frame_fields::message;
use frame_payloads::state;

/// Whether a frame asks how things stand. One that wasn't handed has a payload, and a state has none.
pub fn asks_state(frame: Option<RawFrame<'_>>) -> bool
    ensures { (longest : ℕ) (raw : Raw) →
        option_map (λ f. raw_seen f) frame.entry ≡ if_within longest raw → result ≡ asks_state raw }
{
    let Some(frame) = frame else {
        return false;
    };
    frame.kind == b'A' && state(frame.payload).is_some()
}

/// The sample of the grammar that a frame is, if it is one, where at least the bytes of the longest sample are handed.
pub fn sample_in(frame: Option<RawFrame<'_>>) -> Option<Message>
    ensures { (longest : ℕ) (raw : Raw) → most_message ≤ longest →
        option_map (λ f. raw_seen f) frame.entry ≡ if_within longest raw → result ≡ raw_message raw }
{
    let Some(frame) = frame else {
        return None;
    };
    if frame.kind != b'M' {
        return None;
    }
    message(frame.payload)
}
