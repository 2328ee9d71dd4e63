//! Frames, appended to a text that has room for them. None takes memory.

ghost use Rattle.std.specs.Prelude.{◌≡◌, ◌≤◌, ◌<◌, ◌+◌, ◌++◌, ◌∷◌, length, vec_len, vec_capacity, true};
ghost use Rattle.std.specs.Int.{w32, to_be_bytes};
ghost use Rattle.std.specs.List.{flat_map};
ghost use Rattle.namespace_id.specs.Answers.{HasCapacity};
ghost use Rattle.namespace_id.specs.Cells.{are_cells};
ghost use Rattle.frame_payloads.specs.codec.Texts.{cell_bytes};
ghost use Rattle.da_wire.specs.declared.frames.Frame.TheVariants as FrameOf;
ghost use Rattle.da_wire.specs.Writing.{AppendsSpelling};
ghost use Rattle.da_talk.specs.Replies.{refusal};
ghost use Rattle.da_talk.specs.Sizes.{refusal_size, most_missing};

use da_wire::{Reason, Refusal, wire_laws};
use frame_payloads::{REFUSAL_SIZE, put_refusal};
use namespace_id::{Cell, append, cells_laws};

/// The bytes of a frame before its payload.
pub(crate) const HEAD_SIZE: usize = 5;

/// The bytes of the frame of a refusal.
pub const REFUSAL_FRAME_SIZE: usize = HEAD_SIZE + REFUSAL_SIZE as usize;

/// The bytes in front of the missing cells of a frame: its head, a width and a count.
const MISSING_FRONT_SIZE: usize = HEAD_SIZE + 6;

/// The most bytes of a frame of missing cells of a square of width `k`.
pub fn most_missing(k: u16) -> usize
    ensures { result ≡ most_missing k }
{
    let in_row = 2 * k as usize;
    MISSING_FRONT_SIZE + 4 * (in_row * in_row)
}

/// Appends the head of a frame: its kind, and the length of its payload.
///
/// docs/FORMATS.md, "Frames".
pub fn put_head(text: &mut Vec<u8>, kind: u8, size: u32)
    requires capacity { HasCapacity text.old 5 }
    ensures appended { text.new.items ≡ text.old.items ++ (kind ∷ to_be_bytes w32 size) }
    ensures len { vec_len text.new ≡ vec_len text.old + 5 }
    ensures capacity { vec_capacity text.old ≤ vec_capacity text.new }
{
    append(text, &[kind]);
    append(text, &size.to_be_bytes());
}

/// Appends the refusal of the frame with a number.
///
/// docs/FORMATS.md, "Payloads".
pub fn put_refusal_frame(text: &mut Vec<u8>, reason: Reason, number: u64)
    requires capacity { HasCapacity text.old refusal_size }
    ensures appended { text.new.items ≡ text.old.items ++ refusal reason number }
    ensures capacity { vec_capacity text.old ≤ vec_capacity text.new }
{
    put_head(text, b'E', REFUSAL_SIZE);
    put_refusal(text, Refusal { reason, number });
}

/// Appends a state.
///
/// docs/FORMATS.md, "Payloads".
pub fn put_state_frame(text: &mut Vec<u8>)
    requires capacity { HasCapacity text.old 5 }
    ensures appended { AppendsSpelling FrameOf.State text.old.items text.new.items }
    ensures capacity { vec_capacity text.old ≤ vec_capacity text.new }
{
    put_head(text, b'A', 0);
}

/// Appends a cell, its row first.
fn put_cell(text: &mut Vec<u8>, cell: Cell)
    requires capacity { HasCapacity text.old (length (cell_bytes cell)) }
    ensures appended { text.new.items ≡ text.old.items ++ cell_bytes cell }
    ensures len { vec_len text.new ≡ vec_len text.old + length (cell_bytes cell) }
    ensures capacity { vec_capacity text.old ≤ vec_capacity text.new }
{
    append(text, &cell.row.to_be_bytes());
    append(text, &cell.col.to_be_bytes());
}

/// Appends cells, one after another.
fn put_cells(text: &mut Vec<u8>, cells: &[Cell])
    requires capacity { HasCapacity text.old (length (flat_map cell_bytes cells.now)) }
    ensures appended { text.new.items ≡ text.old.items ++ flat_map cell_bytes cells.now }
    ensures capacity { vec_capacity text.old ≤ vec_capacity text.new }
{
    for cell in cells {
        put_cell(text, *cell);
    }
}

/// Appends the frame of missing cells of the square of width `k`, at least one, strictly ascending in row-major order.
///
/// docs/FORMATS.md, "Payloads".
pub fn put_missing_frame(text: &mut Vec<u8>, k: u16, cells: &[Cell])
    requires cells { are_cells k cells.now ≡ true }
    requires some { 0 < length cells.now }
    requires capacity { HasCapacity text.old (most_missing k) }
    ensures appended { AppendsSpelling (FrameOf.Missing (record { k = k; list = cells.now })) text.old.items text.new.items }
    ensures capacity { vec_capacity text.old ≤ vec_capacity text.new }
{
    wire_laws();
    cells_laws();
    let count = cells.len() as u32;
    put_head(text, b'K', 6 + 4 * count);
    append(text, &k.to_be_bytes());
    append(text, &count.to_be_bytes());
    put_cells(text, cells);
}
