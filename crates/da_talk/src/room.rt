//! Room for the bytes of the frame under way.

ghost use Rattle.std.specs.Prelude.{◌≡◌, ◌≤◌, ◌++◌, ℕ, List, [], take, vec_len, vec_capacity};

use namespace_id::append;

/// What keeps bytes of the frame under way.
pub(crate) trait Room {
    /// The bytes that it keeps.
    ghost kept: { Self → List ℕ };

    /// It keeps no more than so many bytes, and has room for so many.
    ghost fits: { Self → ℕ → Type 0 };

    /// The bytes that it keeps.
    fn kept_bytes(&self) -> &[u8]
        ensures { result.now ≡ kept self.now };

    /// Keeps bytes behind those that it keeps, `size` in all at most.
    fn keep(&mut self, size: usize, bytes: &[u8])
        requires room { fits self.old size }
        ensures kept { kept self.new ≡ take size (kept self.old ++ bytes.now) }
        ensures room { fits self.new size };

    /// Keeps none any more.
    fn forget(&mut self)
        ensures kept { kept self.new ≡ [] }
        ensures room { (size : ℕ) → fits self.old size → fits self.new size };
}

/// A list takes no memory within its capacity, and is touched only as far as bytes come.
impl Room for Vec<u8> {
    ghost use Rattle.std.specs.Prelude.{◌≤◌, vec_len, vec_capacity};

    ghost kept = { λ room. room.items };

    ghost fits = { λ room size. (vec_len room ≤ size) × (size ≤ vec_capacity room) };

    fn kept_bytes(&self) -> &[u8] {
        self
    }

    fn keep(&mut self, size: usize, bytes: &[u8]) {
        let count = bytes.len().min(size - self.len());
        append(self, &bytes[..count]);
    }

    fn forget(&mut self) {
        self.clear();
    }
}
