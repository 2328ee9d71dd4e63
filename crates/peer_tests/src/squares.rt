//! The extended square of width 2 of the tests, of three blobs, and the same with one byte changed, in which row 3 and column 3
//! are no codewords; their headers and samples.

ghost use Rattle.std.specs.Prelude.{◌≡◌};

use axis_roots::{Grid, Message, header_of, message_of};
use data_header::Header;
use namespace_id::{Axis, Cell, Share, is_in_square};
use nmt_tree::Tree;
use square_layout::Square;
use std::alloc::Global;
use std::process::Abort;

/// The data root of the square of three blobs, by tools/values.py.
pub(crate) const DATA_ROOT: [u8; 32] = [
    0x9b, 0x7a, 0x22, 0xfb, 0xa6, 0xa0, 0x9d, 0xc8, 0x0b, 0x53, 0x41, 0xf1, 0x8f, 0x53, 0x86, 0x78,
    0x96, 0x36, 0xb1, 0xf4, 0x84, 0xdc, 0xbf, 0xda, 0xb7, 0xfa, 0x71, 0x6c, 0x01, 0x33, 0x99, 0x3d,
];

/// A share of the namespace that ends in 01 and this byte: these bytes behind its name, and zeros.
fn share(end: u8, front: &[u8]) -> Share {
    let mut bytes = [0; 512];
    bytes[27..29].copy_from_slice(&[1, end]);
    if let Some(place) = bytes[29..].get_mut(..front.len()) {
        place.copy_from_slice(front);
    }
    Share(bytes)
}

/// The first share of a blob of 479 bytes: mostly each is 7 more than the one before it.
fn full_share() -> Share {
    let mut share = share(2, &[1, 0, 0, 1, 0xdf]);
    let mut byte: u8 = 63;
    for (number, place) in share.0[34..].iter_mut().enumerate() {
        *place = byte;
        let step = if byte > 248 || number == 250 { 8 } else { 7 };
        byte = byte.wrapping_add(step);
    }
    share
}

/// The extended square of a blob of one byte, the long one, and another of one byte.
pub(crate) fn grid(rt: &impl Abort, alloc: Global) -> Grid
    ensures { result.k ≡ 2 }
{
    let mut shares = vec![in alloc; full_share(); 4].expect(rt, "there is memory");
    shares[0] = share(1, &[1, 0, 0, 0, 1, 32]);
    shares[2] = share(2, &[0, 95]);
    shares[3] = share(4, &[1, 0, 0, 0, 1, 94]);
    Grid::extend(alloc, &Square { k: 2, shares }).expect(rt, "there is memory")
}

/// The same with another last byte of its last share.
pub(crate) fn bad_grid(rt: &impl Abort, alloc: Global) -> Grid
    ensures { result.k ≡ 2 }
{
    let mut grid = grid(rt, alloc);
    let cell = Cell { row: 3, col: 3 };
    let mut share = *grid.cell(cell);
    share.0[511] ^= 1;
    grid.set(cell, &share);
    grid
}

/// The header of an extended square of width 2.
pub(crate) fn header(rt: &impl Abort, alloc: Global, grid: &Grid) -> Header
    requires { grid.now.k ≡ 2 }
    ensures { result.k ≡ 2 }
{
    let header = header_of(alloc, grid).expect(rt, "there is memory");
    header.expect(rt, "namespaces do not fall")
}

/// The sample of a cell of an extended square of width 2.
pub(crate) fn message(
    rt: &impl Abort,
    alloc: Global,
    grid: &Grid,
    cell: Cell,
    axis: Axis,
) -> Message {
    assert!(rt;
        grid.width() == 2 && is_in_square(2, cell),
        "there is such a cell"
    );
    let mut tree = Tree::new(alloc, 4).expect(rt, "there is memory");
    message_of(grid, cell, axis, &mut tree).expect(rt, "namespaces do not fall")
}
