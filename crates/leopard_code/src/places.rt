//! Known shares at their positions.

ghost use Rattle.std.specs.Prelude.{◌≡◌, ◌≢◌, ◌*◌, ◌<◌, ℕ, IsTrue, length, slice_get, slice_index};
ghost use Rattle.lch_fft.specs.Transforms.{column};
ghost use Rattle.leopard_code.specs.Codewords.{are_positions, HasEntries};

use lch_fft::Factor;
use namespace_id::{SHARE_SIZE, Share};

/// Makes all bytes of a share 0, and so all labels.
fn clear<M: Factor>(share: &mut Share)
    ensures { (c : ℕ) → c < M.reading.columns → M.reading.label_at share.new.0 c ≡ 0 }
{
    *share = Share([0; SHARE_SIZE]);
}

/// Makes all labels of the shares 0.
pub(crate) fn clear_all<M: Factor>(shares: &mut [Share])
    ensures { (c i : ℕ) → c < M.reading.columns → i < length shares.old →
        slice_index (column M.reading c shares.new) i ≡ 0 }
{
    for i in 0..shares.len() {
        clear::<M>(&mut shares[i]);
    }
}

/// Copies the shares to the known positions, and leaves the others as they are.
pub(crate) fn place(known: &[u16], shares: &[Share], all: &mut [Share])
    requires shares { length shares.now ≡ length known.now }
    requires all { length all.old ≡ 2 * length known.now }
    requires positions { IsTrue (are_positions (length known.now) known.now) }
    ensures known { HasEntries known.now shares.now all.new }
    ensures others { (pos : ℕ) →
        ((i : ℕ) → i < length known.now → slice_index known.now i ≢ pos) →
        slice_get all.new pos ≡ slice_get all.old pos }
{
    for i in 0..known.len() {
        all[known[i] as usize] = shares[i];
    }
}
