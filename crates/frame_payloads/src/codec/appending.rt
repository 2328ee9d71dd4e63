//! Fields of a payload, put one after another.

ghost use Rattle.std.specs.Prelude.{◌≡◌, ◌<◌, ◌∷◌, length};
ghost use Rattle.std.specs.Int.{w16, w32};
ghost use Rattle.std.specs.List.{flat_map};
ghost use Rattle.frame_payloads.specs.codec.Texts.{axis_byte, cell_bytes, text_bytes};
ghost use Rattle.frame_payloads.specs.Payloads.{Puts};

use crate::codec::outs::{Full, Out};
use crate::codec::writing::{Text, count16, count32, put_all};
use namespace_id::{Axis, Cell, Digest, Share};

impl Text for Digest {
    ghost text = { λ d. d.0 };

    fn put<O: Out>(&self, out: &mut O) -> Result<(), Full> {
        out.put(&self.0)
    }
}

impl Text for Share {
    ghost text = { λ s. s.0 };

    fn put<O: Out>(&self, out: &mut O) -> Result<(), Full> {
        out.put(&self.0)
    }
}

impl Text for [u8; 32] {
    ghost text = { λ h. h };

    fn put<O: Out>(&self, out: &mut O) -> Result<(), Full> {
        out.put(self)
    }
}

/// A cell is its row, and then its column.
impl Text for Cell {
    ghost text = { cell_bytes };

    fn put<O: Out>(&self, out: &mut O) -> Result<(), Full> {
        out.put(&self.row.to_be_bytes())?;
        out.put(&self.col.to_be_bytes())
    }
}

/// Puts values behind their count in a byte.
pub(crate) fn put_short<T: Text, O: Out>(out: &mut O, values: &[T]) -> Result<(), Full>
    requires few { length values.now < 256 }
    ensures { Puts O.byte O.held O.taken O.limit out.old out.new
        (length values.now ∷ flat_map T.text values.now) result }
{
    out.put(&[values.len() as u8])?;
    put_all(out, values)
}

/// The byte that an axis is.
pub(crate) fn axis_byte(axis: Axis) -> u8
    ensures { result ≡ axis_byte axis }
{
    match axis {
        Axis::Row => 0,
        Axis::Col => 1,
    }
}

/// Puts a byte string behind its length.
pub(crate) fn put_text<O: Out>(out: &mut O, text: &[u8]) -> Result<(), Full>
    ensures { Puts O.byte O.held O.taken O.limit out.old out.new (text_bytes w32 text.now) result }
{
    out.put(&count32(text.len()))?;
    out.put(text)
}

/// Puts a byte string behind its length in two bytes.
pub(crate) fn put_text16<O: Out>(out: &mut O, text: &[u8]) -> Result<(), Full>
    ensures { Puts O.byte O.held O.taken O.limit out.old out.new (text_bytes w16 text.now) result }
{
    out.put(&count16(text.len()))?;
    out.put(text)
}
