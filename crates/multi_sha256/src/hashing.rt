//! The digests of eight messages.

ghost use Rattle.std.specs.Prelude.{◌≡◌, ◌≤◌, ◌<◌, ◌+◌, ◌%◌, ◌/◌, ℕ, [], length, take, slice_index_or};
ghost use Rattle.sha2.specs.Sha256.{digest_bytes, hash_after, initial_hash_256, padded_message, sha256};
ghost use Rattle.multi_sha256.specs.Lanes.{lane};

use crate::constants::INITIAL;
use crate::rounds::compress;
use std::simd::u32x8;

/// How many messages are hashed side by side.
pub const LANES: usize = 8;

/// Writes the padding behind the first `size` bytes, up to the end.
///
/// FIPS 180-4, section 5.1.1.
fn write_padding(bytes: &mut [u8], size: usize)
    requires whole { length bytes.old % 64 ≡ 0 }
    requires room { size + 9 ≤ length bytes.old }
    requires tight { length bytes.old < size + 73 }
    ensures { bytes.new ≡ padded_message (take size bytes.old) }
{
    let end = bytes.len() - 8;
    bytes[size] = 0x80;
    'zeros: for i in size + 1..end {
        bytes[i] = 0;
    }
    let bits = (size as u64).wrapping_mul(8);
    bytes[end..].copy_from_slice(&bits.to_be_bytes());
}

/// Writes the padding behind a message.
fn pad<const N: usize>(message: &mut [u8; N], size: usize)
    requires whole { N % 64 ≡ 0 }
    requires room { size + 9 ≤ N }
    requires tight { N < size + 73 }
    ensures count { length message.old ≡ N }
    ensures padded { message.new ≡ padded_message (take size message.old) }
{
    write_padding(&mut message[..], size);
}

/// Writes the padding behind the first `size` bytes of each message.
fn pad_all<const N: usize>(messages: &mut [[u8; N]; 8], size: usize)
    requires whole { N % 64 ≡ 0 }
    requires room { size + 9 ≤ N }
    requires tight { N < size + 73 }
    ensures count { (j : ℕ) → j < 8 → length (slice_index_or messages.old j []) ≡ N }
    ensures padded { (j : ℕ) → j < 8 → slice_index_or messages.new j []
        ≡ padded_message (take size (slice_index_or messages.old j [])) }
{
    'messages: for j in 0..8 {
        pad(&mut messages[j], size);
    }
}

/// The states before the first blocks.
fn initial_states() -> [u32x8; 8]
    ensures { (j : ℕ) → j < 8 → lane j result ≡ initial_hash_256 }
{
    [
        u32x8::splat(INITIAL[0]),
        u32x8::splat(INITIAL[1]),
        u32x8::splat(INITIAL[2]),
        u32x8::splat(INITIAL[3]),
        u32x8::splat(INITIAL[4]),
        u32x8::splat(INITIAL[5]),
        u32x8::splat(INITIAL[6]),
        u32x8::splat(INITIAL[7]),
    ]
}

/// The states after all blocks of eight padded messages.
fn final_states<const N: usize>(messages: &[[u8; N]; 8]) -> [u32x8; 8]
    ensures { (j : ℕ) → j < 8 → lane j result
        ≡ hash_after initial_hash_256 (slice_index_or messages.now j []) (N / 64) }
{
    let mut states = initial_states();
    'blocks: for block in 0..N / 64 {
        compress(&mut states, messages, 64 * block);
    }
    states
}

/// The digest of one message.
fn digest(states: &[u32x8; 8], j: usize) -> [u8; 32]
    requires { j < 8 }
    ensures { result ≡ digest_bytes (lane j states.now) 8 }
{
    let mut out = [0; 32];
    'words: for i in 0..8 {
        let words = states[i].to_array();
        out[4 * i..4 * i + 4].copy_from_slice(&words[j].to_be_bytes());
    }
    out
}

/// SHA-256 of eight messages of `size` bytes, each at the front of an array with exactly the room
/// that its padding takes up to the end of a block. The padding is written behind the messages.
///
/// FIPS 180-4, section 6.2.
pub fn digests<const N: usize>(messages: &mut [[u8; N]; 8], size: usize) -> [[u8; 32]; 8]
    requires whole { N % 64 ≡ 0 }
    requires room { size + 9 ≤ N }
    requires tight { N < size + 73 }
    ensures { (j : ℕ) → j < 8 →
        slice_index_or result j [] ≡ sha256 (take size (slice_index_or messages.old j [])) }
{
    pad_all(messages, size);
    let states = final_states(messages);
    [
        digest(&states, 0),
        digest(&states, 1),
        digest(&states, 2),
        digest(&states, 3),
        digest(&states, 4),
        digest(&states, 5),
        digest(&states, 6),
        digest(&states, 7),
    ]
}
