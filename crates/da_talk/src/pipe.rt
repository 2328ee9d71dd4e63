//! A talk over the picked file of inputs, such as standard input, and a sink, such as standard output.

ghost use Rattle.std.specs.Prelude.{◌≡◌, None, IsSome, ◌↔◌, refl};
ghost use Rattle.std.proofs.Common.{◌∙◌};

use crate::Line;
use da_io::{Inputs, ReadFailed, Sink, WriteFailed, write_all};

/// What is heard are the bytes of the picked file, and what is said goes to the sink.
#[derive(Drop)]
pub struct Pipe<'a, I: Inputs, O: Sink> {
    pub inputs: &'a mut I,
    pub out: &'a mut O,
}

impl<'a, I: Inputs, O: Sink> Line for Pipe<'a, I, O> {
    ghost events = { λ p. None };

    ghost rest = { λ p. I.rest p.inputs.now };

    ghost taken = { λ p. O.taken p.out.now };

    ghost given = { λ p. I.given p.inputs.now };

    ghost ended = { λ p. I.ended p.inputs.now };

    ghost read_faults = { λ p. I.faults p.inputs.now };

    ghost write_faults = { λ p. O.faults p.out.now };

    ghost stays = { λ a b. (b.inputs.ghost_name ≡ a.inputs.ghost_name) × (b.out.ghost_name ≡ a.out.ghost_name)
        × (I.picked b.inputs.now ≡ I.picked a.inputs.now) × (I.picks b.inputs.now ≡ I.picks a.inputs.now)
        × (I.files b.inputs.now ≡ I.files a.inputs.now) × (IsSome (O.taken a.out.now) ↔ IsSome (O.taken b.out.now)) };

    ghost counted = { λ p. ((I.counted p.inputs.now).0, (I.counted p.inputs.now).1, O.counted p.out.now) };

    ghost stays_none = { λ p. (refl, refl, refl, refl, refl, (λ h. h, λ h. h)) };

    ghost stays_on = { λ a b c p q. (q.0 ∙ p.0, q.1 ∙ p.1, q.2 ∙ p.2, q.3 ∙ p.3, q.4 ∙ p.4, (λ h. q.5.0 (p.5.0 h), λ h. p.5.1 (q.5.1 h))) };

    fn hear(&mut self, buf: &mut [u8]) -> Result<usize, ReadFailed> {
        self.inputs.read(buf)
    }

    fn say(&mut self, bytes: &[u8]) -> Result<(), WriteFailed> {
        write_all(self.out, bytes)
    }
}
