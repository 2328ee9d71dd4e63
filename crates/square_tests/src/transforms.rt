//! Transforms and derivatives of four shares. Expected bytes: by tools/values.py.

ghost use Rattle.std.specs.Prelude.{◌≡◌, ◌+◌, ◌%◌, ◌≤◌, IsTrue, length};
ghost use Rattle.lch_fft.specs.Transforms.{is_count};

use crate::inputs::share;
use gf_cantor::ByteFactor;
use lch_fft::{derive, forward, inverse};
use namespace_id::Share;

/// Four shares of one byte throughout.
fn shares(bytes: [u8; 4]) -> [Share; 4] {
    [
        share(bytes[0]),
        share(bytes[1]),
        share(bytes[2]),
        share(bytes[3]),
    ]
}

/// `forward` over bytes.
#[tactic(auto, unfolding(lch_fft::specs::Readings::byte_reading, gf_cantor::specs::Field::byte_field))]
fn forward_bytes(shares: &mut [Share], shift: u16)
    requires count { IsTrue (is_count (length shares.old)) }
    requires block { shift % length shares.old ≡ 0 }
    requires fits { shift + length shares.old ≤ 256 }
{
    forward::<ByteFactor>(shares, shift);
}

/// `inverse` over bytes.
#[tactic(auto, unfolding(lch_fft::specs::Readings::byte_reading, gf_cantor::specs::Field::byte_field))]
fn inverse_bytes(shares: &mut [Share], shift: u16)
    requires count { IsTrue (is_count (length shares.old)) }
    requires block { shift % length shares.old ≡ 0 }
    requires fits { shift + length shares.old ≤ 256 }
{
    inverse::<ByteFactor>(shares, shift);
}

#[test]
fn values_at_blocks_of_four(rt: HostRuntime) {
    let mut first = shares([0, 0, 0, 1]);
    forward_bytes(&mut first, 0);
    assert!(rt; first == shares([0, 0, 2, 3]));
    let mut second = shares([0, 0, 0, 1]);
    forward_bytes(&mut second, 4);
    assert!(rt; second == shares([10, 8, 15, 12]));
}

#[test]
fn coefficients_of_four(rt: HostRuntime) {
    let mut four = shares([0, 0, 0, 1]);
    inverse_bytes(&mut four, 4);
    assert!(rt; four == shares([9, 2, 6, 1]));
    forward_bytes(&mut four, 0);
    assert!(rt; four == shares([9, 11, 14, 13]));
}

#[test]
fn one_place(rt: HostRuntime) {
    let mut one = [share(7)];
    forward_bytes(&mut one, 3);
    assert!(rt; one == [share(7)]);
    inverse_bytes(&mut one, 3);
    assert!(rt; one == [share(7)]);
    derive::<ByteFactor>(&mut one);
    assert!(rt; one == [share(0)]);
}

#[test]
fn derivatives(rt: HostRuntime) {
    let mut four = shares([1, 2, 3, 4]);
    derive::<ByteFactor>(&mut four);
    assert!(rt; four == shares([1, 4, 4, 0]));
}
