//! What a frame is to a watcher.

ghost use Rattle.std.specs.Prelude.{◌≡◌};
ghost use Rattle.std.specs.Option.{option_map};
ghost use Rattle.frame_fields.specs.Messages.{message_at};
ghost use Rattle.light_node.specs.declared.events.Event.TheVariants.{Sample};
ghost use Rattle.da_wire.specs.Reading.{Raw, raw_seen};
ghost use Rattle.da_judging.specs.Light.{event_in};
ghost use Rattle.da_talk.specs.Handed.{if_within};
ghost use Rattle.da_watching.specs.Events.{handed_event};
ghost use Rattle.da_watching.specs.Sizes.{most_claim};

use axis_roots::Message;
use da_wire::RawFrame;
use frame_fields::message;

/// What a frame is that doesn't ask for the state.
#[derive(Drop)]
pub(crate) enum Handed<'a> {
    /// A sample of the grammar.
    Sample(Message),
    /// A frame of the kind of fraud claims, with its payload, which any bytes may be.
    Claim(&'a [u8]),
    /// Neither.
    Neither,
}

/// The sample that a payload is, if it is one.
fn sample_of(payload: &[u8]) -> Handed<'_>
    ensures { handed_event result ≡ option_map (λ m. Sample m) (message_at payload.now) }
{
    match message(payload) {
        Some(message) => Handed::Sample(message),
        None => Handed::Neither,
    }
}

/// What a frame is, of the kinds of samples and of claims. One that is longer than any claim is neither.
pub(crate) fn handed_in(frame: Option<RawFrame<'_>>) -> Handed<'_>
    ensures { (raw : Raw) → option_map (λ f. raw_seen f) frame.entry ≡ if_within most_claim raw →
        handed_event result ≡ event_in raw }
{
    let Some(frame) = frame else {
        return Handed::Neither;
    };
    match frame.kind {
        b'M' => sample_of(frame.payload),
        b'B' => Handed::Claim(frame.payload),
        _ => Handed::Neither,
    }
}
