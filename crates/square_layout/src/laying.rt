//! Laying out a block as a square.

ghost use Rattle.std.specs.Prelude.{◌≡◌, ◌↔◌, ◌≤◌, ◌*◌, ◌-◌, ◌++◌, ℕ, map, length, replicate, true, IsErrOf, IfOk, OnOk, Some};
ghost use Rattle.namespace_id.specs.declared.namespaces.NsError.{NsError as NamespaceRefusal};
ghost use Rattle.namespace_id.specs.Cells.{is_width};
ghost use Rattle.namespace_id.specs.Lists.{holds_along};
ghost use Rattle.namespace_id.specs.Names.{is_at_most, tail_padding};
ghost use Rattle.namespace_id.specs.Shares.{name_in};
ghost use Rattle.share_split.specs.Joined.{padding_share};
ghost use Rattle.square_layout.specs.Blocks.{HaveBytes};
ghost use Rattle.square_layout.specs.Layout.{in_order, compact_part, laid, needed, block_square};
ghost use Rattle.square_layout.specs.Refusals.{max_shares, layout_refusal, AnswersLaying};

use crate::checking::{blob_refusal, size_refusal};
use crate::counting::needed;
use crate::ordering::blobs_in_order;
use crate::putting::{put_blobs, put_padding, put_units};
use crate::widths::{square_size, width_for};
use crate::{Block, Square};
use namespace_id::{
    MOST_SHARES, NoMemory, NsError, PAY_FOR_BLOB, PRIMARY_RESERVED_PADDING, Share, TAIL_PADDING,
    TRANSACTION,
};
use share_split::{Blob, padding_share};
use std::alloc::Global;
use thiserror::Error;

/// The shares of the greatest square.
///
/// docs/RULES.md, "Widths".
pub const MAX_SHARES: u64 = MOST_SHARES as u64;

/// Why a block has no square. The variants stand in the order in which they are tested.
#[derive(Clone, Copy, Debug, PartialEq, Eq, Error)]
pub enum LayError {
    /// The namespace of this blob, counted from 0, isn't one of a blob.
    #[error("the namespace of blob {0} is not one of a blob: {1}")]
    BadBlob(u64, NsError),
    /// This blob has no bytes.
    #[error("blob {0} has no bytes")]
    EmptyBlob(u64),
    /// The layout has so many shares, more than `MAX_SHARES`; 2^64 - 1 stands for any greater number.
    #[error("the layout has {0} shares, more than 262144")]
    TooLarge(u64),
    /// The layout has so many shares, more than a square of the width that is asked for.
    #[error("the layout has {0} shares, more than a square of the width asked for")]
    WidthTooSmall(u64),
    /// The width that is asked for isn't one.
    #[error("the width asked for is not a power of two from 1 to 512")]
    BadWidth,
    /// There was no memory.
    #[error("out of memory")]
    NoMemory,
}

/// Appends the compact shares of a block.
fn put_compact(alloc: Global, block: &Block, out: &mut Vec<Share>) -> Result<(), NoMemory>
    requires { needed block.now ≤ max_shares }
    ensures { OnOk result (out.new.items ≡ out.old.items ++ compact_part block.now) }
{
    put_units(alloc, &TRANSACTION, &block.units, out)?;
    put_units(alloc, &PAY_FOR_BLOB, &block.pay_units, out)
}

/// The shares of the square of the width `k` of a block whose blobs stand in this order.
fn shares_of(alloc: Global, block: &Block, order: &[&Blob], k: u16) -> Result<Vec<Share>, NoMemory>
    requires order { map (λ blob. blob.now) order.now ≡ in_order block.now.blobs }
    requires some { HaveBytes (map (λ blob. blob.now) order.now) }
    requires width { is_width k ≡ true }
    requires fits { needed block.now ≤ k * k }
    ensures { IfOk result (λ shares. shares.items ≡
        laid block.now
        ++ replicate (k * k - length (laid block.now)) (padding_share tail_padding)) }
{
    let Ok(mut shares) = Vec::with_capacity(alloc, square_size(k) as usize) else {
        return Err(NoMemory);
    };
    put_compact(alloc, block, &mut shares)?;
    let reserved = padding_share(&PRIMARY_RESERVED_PADDING);
    put_blobs(false, reserved, order, &mut shares)?;
    let tail = padding_share(&TAIL_PADDING);
    put_padding(tail, square_size(k) as usize, &mut shares)?;
    Ok(shares)
}

/// Square layout: the original data square (ODS) of a block. It has the compact shares of its units,
/// those of its payments for blobs, its blobs by ascending namespace, each where its subtrees begin, and
/// padding between them and behind. Its width is the least that holds these, or the one that the block
/// asks for. The shares of a signed blob have version 1, and all others version 0, padding too.
///
/// Refuses the first blob whose namespace isn't one of a blob (`BadBlob`), then the first that has no
/// bytes (`EmptyBlob`), whatever memory there is; then more shares than the greatest square has
/// (`TooLarge`), more than the square of the width that is asked for has (`WidthTooSmall`), and an
/// asked width that is none (`BadWidth`). Out of memory may stand in place of any of these three and
/// of the square.
///
/// Celestia specifications, "Square Layout".
pub fn lay(alloc: Global, block: &Block) -> Result<Square, LayError>
    // The first check that fails: those of blobs whatever memory there is.
    ensures bad_blob { (i : ℕ) (e : NamespaceRefusal) → IsErrOf result (LayError.BadBlob i e)
        ↔ (layout_refusal block.now ≡ Some (LayError.BadBlob i e)) }
    ensures empty_blob { (i : ℕ) → IsErrOf result (LayError.EmptyBlob i)
        ↔ (layout_refusal block.now ≡ Some (LayError.EmptyBlob i)) }
    ensures first { AnswersLaying result (layout_refusal block.now) }

    // The square.
    ensures square { IfOk result (λ square. square ≡ block_square block.now) }
    ensures names { IfOk result (λ square.
        holds_along is_at_most (map name_in square.shares) ≡ true) }
{
    if let Some(refusal) = blob_refusal(&block.blobs) {
        return Err(refusal);
    }
    let Ok(order) = blobs_in_order(alloc, &block.blobs) else {
        return Err(LayError::NoMemory);
    };
    let count = needed(block, &order);
    if let Some(refusal) = size_refusal(block.width, count) {
        return Err(refusal);
    }
    let k = width_for(block.width, count);
    let Ok(shares) = shares_of(alloc, block, &order, k) else {
        return Err(LayError::NoMemory);
    };
    Ok(Square { k, shares })
}
