//! Generated blocks.

ghost use Rattle.std.specs.Prelude.{◌≡◌, ◌+◌, ◌<◌, ◌≤◌, ◌^◌, ℕ, List, IsTrue, IfOk, OnOk, None};
ghost use Rattle.namespace_id.specs.Cells.{is_width};
ghost use Rattle.namespace_id.specs.Sizes.{greatest_width};
ghost use Rattle.square_layout.specs.Layout.{block_square};
ghost use Rattle.square_layout.specs.Refusals.{layout_refusal};
ghost use Rattle.sampling.specs.Words.{words_at, words_after};
ghost use Rattle.sampling.specs.Generated.{number_key, word_count, made_bytes, made_unit, after_unit, units_at, after_units, name_with, made_blob, after_blob, blobs_at, blob_count, drawn_block};

use crate::words::{next_word, words_of};
use namespace_id::{NAMESPACE_SIZE, Namespace, NoMemory, write_at};
use rand_chacha::ChaCha20Rng;
use share_split::{Blob, FIRST_CONTENT, LATER_CONTENT, Unit};
use square_layout::Block;
use std::alloc::Global;

/// The bytes of a word.
const WORD_SIZE: usize = 4;

/// The key of a number: its eight bytes, the lowest first, and 24 zeros.
fn number_key(number: u64) -> [u8; 32]
    ensures { result ≡ number_key number }
{
    let mut key = [0; 32];
    write_at(&mut key, 0, &number.to_le_bytes());
    key
}

/// So many bytes of the next words.
fn bytes(alloc: Global, words: &mut ChaCha20Rng, len: usize) -> Result<Vec<u8>, NoMemory>
    requires len { len < 2 ^ 18 }
    requires words { words.old.word_pos + 2 ^ 16 < 2 ^ 68 }
    ensures value { (key : List ℕ) (place : ℕ) → words.old ≡ words_at key place →
        IfOk result (λ bytes. bytes.items ≡ made_bytes key place len) }
    ensures after { OnOk result (words.new ≡ words_after words.old (word_count len)) }
{
    let count = len.div_ceil(WORD_SIZE);
    let Ok(mut bytes) = Vec::with_capacity(alloc, count * WORD_SIZE) else {
        return Err(NoMemory);
    };
    for _ in 0..count {
        let Ok(()) = bytes.extend_from_slice(&next_word(words).to_le_bytes()) else {
            return Err(NoMemory);
        };
    }
    bytes.truncate(len);
    Ok(bytes)
}

/// The next unit.
fn unit(alloc: Global, words: &mut ChaCha20Rng) -> Result<Unit, NoMemory>
    requires { words.old.word_pos + 2 ^ 17 < 2 ^ 68 }
    ensures value { (key : List ℕ) (place : ℕ) → words.old ≡ words_at key place →
        IfOk result (λ unit. unit ≡ made_unit key place) }
    ensures after { (key : List ℕ) (place : ℕ) → words.old ≡ words_at key place →
        OnOk result (words.new ≡ words_at key (after_unit key place)) }
    ensures near { OnOk result (words.new.word_pos ≤ words.old.word_pos + 2 ^ 16) }
{
    let len = 1 + next_word(words) % 400;
    let bytes = bytes(alloc, words, len as usize)?;
    Ok(Unit { bytes })
}

/// The units of one kind in a block of width `k`: the next unit, but none where the width is 1.
fn units(alloc: Global, words: &mut ChaCha20Rng, k: u16) -> Result<Vec<Unit>, NoMemory>
    requires { words.old.word_pos + 2 ^ 17 < 2 ^ 68 }
    ensures value { (key : List ℕ) (place : ℕ) → words.old ≡ words_at key place →
        IfOk result (λ units. units.items ≡ units_at k key place) }
    ensures after { (key : List ℕ) (place : ℕ) → words.old ≡ words_at key place →
        OnOk result (words.new ≡ words_at key (after_units k key place)) }
    ensures near { OnOk result (words.new.word_pos ≤ words.old.word_pos + 2 ^ 16) }
{
    let mut units = Vec::new(alloc);
    if k < 2 {
        return Ok(units);
    }
    let unit = unit(alloc, words)?;
    let Ok(()) = units.push(unit) else {
        return Err(NoMemory);
    };
    Ok(units)
}

/// The namespace that ends in a byte: version 0, 18 zeros, 1, eight zeros, and the byte.
fn name_with(last: u8) -> Namespace
    ensures { result ≡ name_with last }
{
    let mut name = [0; NAMESPACE_SIZE];
    name[19] = 1;
    name[28] = last;
    Namespace(name)
}

/// The next blob of a block of width `k`.
fn blob(alloc: Global, words: &mut ChaCha20Rng, k: u16) -> Result<Blob, NoMemory>
    requires some { 0 < k }
    requires most { k ≤ greatest_width }
    requires words { words.old.word_pos + 2 ^ 17 < 2 ^ 68 }
    ensures value { (key : List ℕ) (place : ℕ) → words.old ≡ words_at key place →
        IfOk result (λ blob. blob ≡ made_blob k key place) }
    ensures after { (key : List ℕ) (place : ℕ) → words.old ≡ words_at key place →
        OnOk result (words.new ≡ words_at key (after_blob k key place)) }
    ensures near { OnOk result (words.new.word_pos ≤ words.old.word_pos + 2 ^ 16) }
{
    let last = (next_word(words) % 16) as u8;
    let later = (next_word(words) % u32::from(k)) as usize;
    let less = (next_word(words) % 256) as usize;
    let bytes = bytes(alloc, words, FIRST_CONTENT + LATER_CONTENT * later - less)?;
    Ok(Blob {
        namespace: name_with(last),
        bytes,
        signer: None,
    })
}

/// The blobs of a block of width `k`.
fn blobs(alloc: Global, words: &mut ChaCha20Rng, k: u16) -> Result<Vec<Blob>, NoMemory>
    requires some { 0 < k }
    requires most { k ≤ greatest_width }
    requires words { words.old.word_pos + 2 ^ 32 < 2 ^ 68 }
    ensures { (key : List ℕ) (place : ℕ) → words.old ≡ words_at key place →
        IfOk result (λ blobs. blobs.items ≡ blobs_at k key place (blob_count k)) }
{
    let count = (k / 2).max(1);
    let Ok(mut blobs) = Vec::with_capacity(alloc, count as usize) else {
        return Err(NoMemory);
    };
    for _ in 0..count {
        let blob = blob(alloc, words, k)?;
        let Ok(()) = blobs.push(blob) else {
            return Err(NoMemory);
        };
    }
    Ok(blobs)
}

/// The block that a number makes, which asks for width `k` and fits it. From width 2 on it has a
/// unit and a unit of payments, of 1 to 400 bytes each; it has k / 2 blobs, but one where the width
/// is 1, of 1 to k shares each. All is of the words of ChaCha20 under the key of the number.
///
/// Refuses only where there is no memory.
///
/// RFC 8439, "The ChaCha20 Block Function"; docs/FORMATS.md, "Generated blocks".
pub fn block(alloc: Global, number: u64, k: u16) -> Result<Block, NoMemory>
    requires width { IsTrue (is_width k) }
    ensures value { IfOk result (λ block. block ≡ drawn_block number k) }

    // It is laid out, and its square has that width.
    ensures lays { IfOk result (λ block. layout_refusal block ≡ None) }
    ensures k { IfOk result (λ block. (block_square block).k ≡ k) }
{
    let mut words = words_of(&number_key(number));
    Ok(Block {
        units: units(alloc, &mut words, k)?,
        pay_units: units(alloc, &mut words, k)?,
        blobs: blobs(alloc, &mut words, k)?,
        width: Some(k),
    })
}
