//! Of headers and data roots.

ghost use Rattle.std.specs.Prelude.{◌≡◌, ◌<◌, Result};

use data_header::{Header, HeaderError, RootPath, open_root};
use namespace_id::{Axis, Digest};

/// Roots are one header, or refused for one reason.
pub fn header_of_twice(
    k: u16,
    rows: Vec<Digest>,
    cols: Vec<Digest>,
    rows_copy: Vec<Digest>,
    cols_copy: Vec<Digest>,
) -> (Result<Header, HeaderError>, Result<Header, HeaderError>)
    requires rows { rows_copy.items ≡ rows.items }
    requires cols { cols_copy.items ≡ cols.items }
    ensures { result.0 ≡ result.1 }
{
    let first = Header::of(k, rows, cols);
    let second = Header::of(k, rows_copy, cols_copy);
    (first, second)
}

/// A path to a data root has one judgement.
pub fn open_root_twice(
    root: &[u8; 32],
    k: u16,
    axis: Axis,
    index: u16,
    digest: &Digest,
    path: &RootPath,
) -> (bool, bool)
    ensures { result.0 ≡ result.1 }
{
    let first = open_root(root, k, axis, index, digest, path);
    let second = open_root(root, k, axis, index, digest, path);
    (first, second)
}
