//! What payloads are put to: a list, as far as it has capacity; or a counter, up to the limit of a payload.

ghost use Rattle.std.specs.Prelude.{◌≡◌, ◌≤◌, ℕ, List, length, replicate, vec_len, vec_capacity};
ghost use Rattle.frame_payloads.specs.Payloads.{max_payload, Puts};

use crate::codec::sizes::MAX_PAYLOAD;
use namespace_id::append;

/// More bytes than can be taken.
#[derive(Clone, Copy, Debug)]
pub(crate) struct Full;

/// What takes bytes.
pub(crate) trait Out {
    /// What is held of a byte.
    ghost byte: { ℕ → ℕ };

    /// What is held of the bytes so far.
    ghost held: { Self → List ℕ };

    /// The number of the bytes so far.
    ghost taken: { Self → ℕ };

    /// The most bytes that it can take.
    ghost limit: { Self → ℕ };

    /// Puts bytes behind those so far.
    fn put(&mut self, bytes: &[u8]) -> Result<(), Full>
        ensures { Puts byte held taken limit self.old self.new bytes.now result };
}

impl Out for Vec<u8> {
    ghost byte = { λ b. b };

    ghost held = { λ v. v.items };

    ghost taken = { λ v. vec_len v };

    ghost limit = { λ v. vec_capacity v };

    fn put(&mut self, bytes: &[u8]) -> Result<(), Full> {
        if bytes.len() > self.capacity() - self.len() {
            return Err(Full);
        }
        append(self, bytes);
        Ok(())
    }
}

/// How many bytes there are so far. It holds a zero for each.
#[derive(Drop)]
pub(crate) struct Counter {
    pub size: u32,
    ghost within: { size ≤ max_payload },
}

impl Out for Counter {
    ghost byte = { λ b. 0 };

    ghost held = { λ c. replicate c.size 0 };

    ghost taken = { λ c. c.size };

    ghost limit = { λ c. max_payload };

    fn put(&mut self, bytes: &[u8]) -> Result<(), Full> {
        if bytes.len() > (MAX_PAYLOAD - self.size) as usize {
            return Err(Full);
        }
        self.size += bytes.len() as u32;
        Ok(())
    }
}
