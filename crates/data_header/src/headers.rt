//! Data availability headers.

ghost use Rattle.std.specs.Prelude.{◌≡◌, ◌≢◌, ◌*◌, ◌<◌, ◌↔◌, ◌⊎◌, IsErrOf, IfOk, vec_len, true, false};
ghost use Rattle.namespace_id.specs.Cells.{is_width};
ghost use Rattle.data_header.specs.Headers.{root_of};

use namespace_id::{Axis, Digest, NoMemory, is_width};
use std::alloc::Global;
use std::marker::Model;
use thiserror::Error;

/// Why roots are no header. The variants stand in the order in which they are tested.
#[derive(Clone, Copy, Debug, PartialEq, Eq, Error)]
pub enum HeaderError {
    /// k is no width.
    #[error("the width is not a power of two from 1 to 512")]
    Width,
    /// A list doesn't have 2k roots.
    #[error("a header has 2k row roots and 2k column roots")]
    Count,
}

/// A data availability header (DAH): the roots of all rows and columns of an extended data square
/// of 2k by 2k shares, 2k roots each, from the first row down and from the first column on. Its
/// type keeps that `k` is a width and that there are so many; they may be any digests, and no
/// square needs to stand behind them.
///
/// Celestia specifications, "Data Structures", available data header.
#[derive(Drop)]
pub struct Header {
    pub k: u16,
    pub rows: Vec<Digest>,
    pub cols: Vec<Digest>,
}

impl Model for Header {
    ghost use Rattle.data_header.specs.Headers.{Roots};

    ghost Value = { Roots };

    ghost use Rattle.data_header.specs.Headers.{AreRoots};

    ghost view = { λ h. record { k = h.k; rows = h.rows.items; cols = h.cols.items } };

    ghost invariant = { λ h. AreRoots (record { k = h.k; rows = h.rows.items; cols = h.cols.items }) };
}

impl Header {
    /// Takes the roots as they are, 2k digests each. It takes no memory.
    ///
    /// Refuses a `k` that is no width, then a list that doesn't have 2k roots. A refusal drops both
    /// lists.
    ///
    /// Celestia specifications, "Data Structures", available data header.
    pub fn of(k: u16, rows: Vec<Digest>, cols: Vec<Digest>) -> Result<Header, HeaderError>
        ensures width { IsErrOf result HeaderError.Width ↔ (is_width k ≡ false) }
        ensures count { IsErrOf result HeaderError.Count ↔
            (is_width k ≡ true) × ((vec_len rows ≢ 2 * k) ⊎ (vec_len cols ≢ 2 * k)) }

        // What comes in is what is kept.
        ensures k { IfOk result (λ header. header.k ≡ k) }
        ensures rows { IfOk result (λ header. header.rows ≡ rows.items) }
        ensures cols { IfOk result (λ header. header.cols ≡ cols.items) }
    {
        if !is_width(k) {
            return Err(HeaderError::Width);
        }
        let count = 2 * k as usize;
        if rows.len() != count || cols.len() != count {
            return Err(HeaderError::Count);
        }
        Ok(Header { k, rows, cols })
    }

    /// A copy. The one refusal is that it is out of memory.
    pub fn copy(&self, alloc: Global) -> Result<Header, NoMemory>
        ensures { IfOk result (λ copy. copy ≡ self.now) }
    {
        let rows = Vec::from_slice(alloc, &self.rows)?;
        let cols = Vec::from_slice(alloc, &self.cols)?;
        Ok(Header {
            k: self.k,
            rows,
            cols,
        })
    }

    /// The root of an axis, the row or column of this index, below 2k.
    pub fn root_of(&self, axis: Axis, index: u16) -> Digest
        requires { index < 2 * self.now.k }
        ensures { result ≡ root_of self.now axis index }
    {
        match axis {
            Axis::Row => self.rows[index as usize],
            Axis::Col => self.cols[index as usize],
        }
    }
}
