//! Data roots, and proofs that an axis root is under one.

ghost use Rattle.std.specs.Prelude.{◌≡◌, ◌<◌, ◌*◌, ◌^◌, ◌↔◌, IsTrue, true};
ghost use Rattle.data_header.specs.Headers.{root_of};
ghost use Rattle.namespace_id.specs.Cells.{is_width};
ghost use Rattle.data_header.specs.DataRoots.{root_halvings, root_place, data_root_of, OpensRoot};

use crate::hashing::{inner_hash, leaf_hash, led, merkle_root, path_of};
use crate::{Header, RootPath};
use namespace_id::{Axis, Digest, is_width};

/// The data root of a data availability header, 32 bytes: the plain SHA-256 Merkle root over its 2k
/// row roots and then its 2k column roots. It takes no memory, and hashes leaves and nodes eight at a
/// time.
///
/// Celestia specifications, "Data Structures", available data header; RFC 6962, 2.1.
pub fn data_root(header: &Header) -> [u8; 32]
    ensures { result ≡ data_root_of header.now }
{
    inner_hash(&merkle_root(&header.rows), &merkle_root(&header.cols))
}

/// Makes the Merkle proof of an axis root under the header's data root: the hashes from the leaf
/// upwards, as many as 4k has halvings. The index is below 2k. It takes no memory.
///
/// Celestia specifications, "Data Structures", available data header; RFC 6962, 2.1.1.
pub fn make_root_proof(header: &Header, axis: Axis, index: u16) -> RootPath
    requires { index < 2 * header.now.k }
    ensures { OpensRoot (data_root_of header.now) header.now.k axis index (root_of header.now axis index) result }
{
    match axis {
        Axis::Row => {
            let mut path = path_of(&header.rows, index as usize);
            path.push(merkle_root(&header.cols));
            path
        }
        Axis::Col => {
            let mut path = path_of(&header.cols, index as usize);
            path.push(merkle_root(&header.rows));
            path
        }
    }
}

/// How often the 4k axis roots of a header can be halved.
pub(crate) fn root_halvings(k: u16) -> usize
    requires { IsTrue (is_width k) }
    ensures value { result ≡ root_halvings k }
    ensures power { 2 ^ result ≡ 4 * k }
{
    match k {
        1 => 2,
        2 => 3,
        4 => 4,
        8 => 5,
        16 => 6,
        32 => 7,
        64 => 8,
        128 => 9,
        256 => 10,
        _ => 11,
    }
}

/// The place of an axis root among the 4k.
pub(crate) fn root_place(k: u16, axis: Axis, index: u16) -> usize
    ensures { result ≡ root_place k axis index }
{
    match axis {
        Axis::Row => index as usize,
        Axis::Col => 2 * k as usize + index as usize,
    }
}

/// Verifies a Merkle proof of an axis root: whether the path leads from `digest`, as the root of
/// that axis of a header of width `k`, to the data root.
///
/// It answers false for a `k` that is no width, for an index that isn't below 2k, for another
/// number of hashes than 4k has halvings, and where they don't lead to `root`. It takes no memory.
///
/// Celestia specifications, "Data Structures", available data header; RFC 6962, 2.1.1.
pub fn open_root(
    root: &[u8; 32],
    k: u16,
    axis: Axis,
    index: u16,
    digest: &Digest,
    path: &RootPath,
) -> bool
    ensures { IsTrue result ↔ OpensRoot root.now k axis index digest.now path.now }
{
    if !is_width(k) || index >= 2 * k || path.hashes().len() != root_halvings(k) {
        return false;
    }
    led(root_place(k, axis, index), leaf_hash(digest), path.hashes()) == *root
}
