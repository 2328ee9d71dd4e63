//! The payload of a state: no byte.

ghost use Rattle.std.specs.Prelude.{◌≡◌};
ghost use Rattle.frame_payloads.specs.kinds.State.{state_at};

/// A state, where the bytes are its payload.
pub fn state(payload: &[u8]) -> Option<()>
    ensures { result ≡ state_at payload.now }
{
    if payload.is_empty() { Some(()) } else { None }
}
