//! Namespaces, shares and squares that several tests take.

ghost use Rattle.std.specs.Prelude.{◌≡◌};

use namespace_id::{NAMESPACE_SIZE, Namespace, SHARE_SIZE, Share};
use square_layout::Square;
use std::alloc::Global;
use std::process::Abort;

/// Version 0, 18 zero bytes, and `low` as ten big-endian bytes.
pub(crate) fn version_0(low: u16) -> Namespace {
    let mut bytes = [0; NAMESPACE_SIZE];
    bytes[27..].copy_from_slice(&low.to_be_bytes());
    Namespace(bytes)
}

/// A share of one byte throughout.
pub(crate) fn share(byte: u8) -> Share {
    Share([byte; SHARE_SIZE])
}

/// A share of such a namespace, with zeros behind it.
pub(crate) fn named_share(low: u16) -> Share {
    let mut bytes = [0; SHARE_SIZE];
    bytes[27..29].copy_from_slice(&low.to_be_bytes());
    Share(bytes)
}

/// The square of width 2 with shares of these namespaces.
pub(crate) fn square_of(rt: &impl Abort, alloc: Global, names: [u16; 4]) -> Square
    ensures { result.k ≡ 2 }
{
    let shares = vec![in alloc;
        named_share(names[0]),
        named_share(names[1]),
        named_share(names[2]),
        named_share(names[3]),
    ];
    let shares = shares.expect(rt, "there is memory");
    Square { k: 2, shares }
}
