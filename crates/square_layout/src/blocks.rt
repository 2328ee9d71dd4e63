//! Blocks and squares.

use namespace_id::Share;
use share_split::{Blob, Unit};
use std::marker::Model;

/// A block, as it is laid out as a square: transactions, payments for blobs (PFB), and blobs.
///
/// `width` is the width that the square is to have, where one is asked for.
///
/// Celestia specifications, "Square Layout".
#[derive(Debug, Drop)]
pub struct Block {
    pub units: Vec<Unit>,
    pub pay_units: Vec<Unit>,
    pub blobs: Vec<Blob>,
    pub width: Option<u16>,
}

impl Model for Block {
    ghost use Rattle.square_layout.specs.Blocks.{BlockParts};

    ghost Value = { BlockParts };

    ghost view = { λ b. record {
      units = b.units.items;
      pay_units = b.pay_units.items;
      blobs = b.blobs.items;
      width = b.width;
    } };
}

/// An original data square (ODS): k * k shares, row-major. Its type keeps that `k` is a width and that there are
/// so many shares.
///
/// Celestia specifications, "Data Structures".
#[derive(Debug, Drop)]
pub struct Square {
    pub k: u16,
    pub shares: Vec<Share>,
}

impl Model for Square {
    ghost use Rattle.square_layout.specs.Blocks.{SquareShares, IsSquare};

    ghost Value = { SquareShares };

    ghost view = { λ s. record { k = s.k; shares = s.shares.items } };

    ghost invariant = { λ s. IsSquare (record { k = s.k; shares = s.shares.items }) };
}
