//! Drawn cells.

ghost use Rattle.std.specs.Prelude.{◌≡◌, ◌↔◌, ◌<◌, ◌≤◌, ◌+◌, ◌*◌, ◌%◌, ◌^◌, ℕ, List, [], ◌∷◌, map, IsTrue, IsErrOf, IfOk, OnOk, length, get_or, true};
ghost use Rattle.std.specs.List.{list_all, remove};
ghost use Rattle.namespace_id.specs.Cells.{is_width, is_in_square, cell_numbered};
ghost use Rattle.sampling.specs.Words.{words_at, key_number};
ghost use Rattle.sampling.specs.Draws.{draw_limit, draw_place, drawn_cells, AreApart};
ghost use Rattle.sampling.specs.Taken.{AscendFrom, cells_left};
ghost use Rattle.sampling.specs.declared.draws.DrawError.TheVariants.{TooMany};

use crate::taken::take_out;
use crate::words::{next_number, words_of};
use namespace_id::{Cell, NoMemory, cell_numbered, cells_laws};
use rand_chacha::ChaCha20Rng;
use std::alloc::Global;
use thiserror::Error;

/// The greatest number of cells that are drawn at once.
const MAX_DRAWN: u32 = 4096;

/// Why no cells are drawn.
#[derive(Clone, Copy, Debug, PartialEq, Eq, Error)]
pub enum DrawError {
    /// More cells are asked for than the square has, or more than 4,096.
    #[error("too many cells")]
    TooMany,
    /// There was no memory.
    #[error("out of memory")]
    NoMemory,
}

/// The place of the next draw in the rest, which has so many cells.
fn next_place(words: &mut ChaCha20Rng, left: u32) -> u32
    requires words { words.old.word_pos + 2 < 2 ^ 68 }
    requires some { 0 < left }
    ensures place { (key : List ℕ) (i : ℕ) → words.old ≡ words_at key (2 * i) →
        result ≡ key_number key (2 * i) % left }
    ensures words { (key : List ℕ) (i : ℕ) → words.old ≡ words_at key (2 * i) →
        words.new ≡ words_at key (2 * (i + 1)) }
    ensures bound { result < left }
{
    (next_number(words) % u64::from(left)) as u32
}

/// Takes the next drawn cell out of the rest, which closes up: so many cells in a row and in a column,
/// without those at the taken places.
fn draw(words: &mut ChaCha20Rng, in_row: u16, taken: &mut Vec<u32>) -> Result<Cell, NoMemory>
    requires words { words.old.word_pos + 2 < 2 ^ 68 }
    requires bound { in_row < 2 ^ 15 }
    requires some { length taken.old.items < in_row * in_row }
    requires ascend { AscendFrom 0 taken.old.items }
    ensures cell { (key : List ℕ) (i : ℕ) → words.old ≡ words_at key (2 * i) →
        IfOk result (λ cell. cell ≡ get_or (cells_left in_row taken.old.items)
        (draw_place key i (cells_left in_row taken.old.items)) (cell_numbered 1 0)) }
    ensures rest { (key : List ℕ) (i : ℕ) → words.old ≡ words_at key (2 * i) →
        OnOk result (cells_left in_row taken.new.items ≡ remove (cells_left in_row taken.old.items)
        (draw_place key i (cells_left in_row taken.old.items))) }
    ensures words { (key : List ℕ) (i : ℕ) → words.old ≡ words_at key (2 * i) →
        OnOk result (words.new ≡ words_at key (2 * (i + 1))) }
    ensures one { OnOk result (length taken.new.items ≡ length taken.old.items + 1) }
    ensures ascend { OnOk result (AscendFrom 0 taken.new.items) }
{
    let left = u32::from(in_row) * u32::from(in_row) - taken.len() as u32;
    let place = next_place(words, left);
    let number = take_out(taken, place)?;
    Ok(cell_numbered(in_row, number as usize))
}

/// The cells that a key draws of the extended square of width `k`, in the order in which they are
/// drawn, and no cell twice. The words of the key are those of ChaCha20 with stream 0, and each draw
/// takes two of them. Equal keys draw equal cells, and fewer draws are the first ones of more.
///
/// Refuses a count above the cells of the square or above 4,096, then out of memory. All memory is
/// taken at once: 4 bytes for the place of each drawn cell, besides the cells.
///
/// RFC 8439, "The ChaCha20 Block Function"; docs/FORMATS.md, "Drawn cells".
pub fn cells(alloc: Global, key: &[u8; 32], k: u16, count: u32) -> Result<Vec<Cell>, DrawError>
    requires width { IsTrue (is_width k) }
    ensures too_many { IsErrOf result TooMany ↔ (draw_limit k < count) }
    ensures drawn { IfOk result (λ cells. cells.items ≡ drawn_cells key.now k count) }

    // No cell is drawn twice, and each is one of the square.
    ensures count { IfOk result (λ cells. length cells.items ≡ count) }
    ensures apart { IfOk result (λ cells. AreApart cells.items) }
    ensures inside { IfOk result (λ cells. list_all (is_in_square k) cells.items ≡ true) }
{
    cells_laws();
    if count > MAX_DRAWN || count > 4 * u32::from(k) * u32::from(k) {
        return Err(DrawError::TooMany);
    }
    let Ok(mut taken) = Vec::with_capacity(alloc, count as usize) else {
        return Err(DrawError::NoMemory);
    };
    let Ok(mut drawn) = Vec::with_capacity(alloc, count as usize) else {
        return Err(DrawError::NoMemory);
    };
    let mut words = words_of(key);
    for _ in 0..count {
        let Ok(cell) = draw(&mut words, 2 * k, &mut taken) else {
            return Err(DrawError::NoMemory);
        };
        let Ok(()) = drawn.push(cell) else {
            return Err(DrawError::NoMemory);
        };
    }
    Ok(drawn)
}

/// How many cells are drawn at most.
pub fn draw_laws()
    // As many as the square has, and no more than 4,096: for the widths from 1 to 512 these.
    ensures limit { (k count : ℕ) → (count ≤ draw_limit k) ↔ (count ≤ 4 * k * k) × (count ≤ 4096) }
    ensures widths { map draw_limit (1 ∷ 2 ∷ 4 ∷ 8 ∷ 16 ∷ 32 ∷ 64 ∷ 128 ∷ 256 ∷ 512 ∷ []) ≡
        4 ∷ 16 ∷ 64 ∷ 256 ∷ 1024 ∷ 4096 ∷ 4096 ∷ 4096 ∷ 4096 ∷ 4096 ∷ [] }
{}
