//! What proofs under the data root of a square's header say of the square.

ghost use Rattle.std.specs.Prelude.{◌/◌, ◌≡◌, ◌↔◌, ◌<◌, ◌≤◌, ◌*◌, ◌++◌, ◌∷◌, ℕ, List, length, take, drop, true, Some, None};
ghost use Rattle.namespace_id.specs.declared.cells.Axis.{Axis};
ghost use Rattle.namespace_id.specs.Sizes.{greatest_width, most_leaves, most_depth};
ghost use Rattle.share_split.specs.Widths.{subtree_width_of};
ghost use Rattle.nmt_proofs.specs.declared.opening.OpenRefusal.{OpenRefusal as Refusal};
ghost use Rattle.blob_commit.specs.Cuts.{levels_of, cut, IsCut};
ghost use Rattle.blob_commit.specs.Commitments.{root_over, IsPlainRoot};
ghost use Rattle.std.specs.List.{AllByRecursion};
ghost use Rattle.share_split.specs.Blobs.{NamedBytes, blob_shares_of};
ghost use Rattle.square_layout.specs.Blocks.{BlockParts, SquareShares};
ghost use Rattle.square_layout.specs.Refusals.{max_shares, layout_refusal};
ghost use Rattle.square_layout.specs.Layout.{in_order, share_count_of, start_after, end_of, compact_end, block_square};
ghost use Rattle.data_header.specs.Headers.{Roots, AreRoots, root_of};
ghost use Rattle.data_header.specs.DataRoots.{data_root_of, root_halvings};
ghost use Rattle.data_header.specs.Paths.{most_hashes};
ghost use Rattle.blob_commit.specs.DataTrees.{full, plain_text_at};
ghost use Rattle.axis_roots.specs.declared.message.messages.Message.{Message};
ghost use Rattle.axis_roots.specs.Messages.{IsMessage};
ghost use Rattle.axis_roots.specs.Openings.{IsProved};
ghost use Rattle.axis_roots.specs.Grids.{IsHeaderOf};
ghost use Rattle.blob_commit.specs.Refusals.{commit_refusal, rooted_refusal, unled_row, unopened_row, IsFirstUnled, IsFirstUnopened};
ghost use Rattle.blob_commit.specs.Proofs.{CommitParts, CommitHolds, IsCommit, RootedParts, RootedHolds, IsRooted, has_commit_shape, is_range};
ghost use Rattle.blob_commit.specs.Places.{IsOwnCommit, IsOwnRooted, turns_for};

use share_split::blob_laws;
use square_layout::{size_laws, start_laws};

/// What is proved of proofs under the data root of a square's header.
pub fn commit_laws()
    // A commitment proof is of the square's width, and its commitment is that of the square's
    // shares in its range, or they name a collision at some place.
    ensures commit { (header : Roots) (proof : CommitParts) → IsCommit proof →
        CommitHolds (data_root_of header) proof → IsOwnCommit header proof }

    // A root proof shows the share that the square's extension has at its cell, or they name a
    // collision at some place.
    ensures rooted { (header : Roots) (proof : RootedParts) → IsRooted proof →
        RootedHolds (data_root_of header) proof → IsOwnRooted header proof }
{}

/// What is proved of the subtrees of a commitment and of the root over them, in the words of the rules.
pub fn commitment_laws()
    // The subtrees over 1 to `MAX_SHARES` shares are each the greatest, up to the width of their subtrees, that fits into the
    // shares that are left, and there is one such cut.
    ensures cut { (count : ℕ) → 1 ≤ count → count ≤ max_shares →
        IsCut (subtree_width_of count) count (cut count) }
    ensures one_cut { (width count : ℕ) (sizes others : List ℕ) → IsCut width count sizes →
        IsCut width count others → sizes ≡ others }

    // The root over 1 to 1,024 hashes is the plain one: of more than one the left part has the greatest power of two below
    // their number.
    ensures root { (hashes : List (List ℕ)) → 1 ≤ length hashes → length hashes ≤ most_leaves →
        IsPlainRoot hashes (root_over most_depth hashes) }
{}

/// What is proved of the places of strings.
pub fn place_laws()
    // At the end of the turns for an axis the data tree of a header has the leaf over the root of this axis.
    ensures axis { (header : Roots) → AreRoots header → (axis : Axis) (index : ℕ) →
        index < 2 * header.k → plain_text_at (turns_for header.k axis index)
        (full (root_halvings header.k) (header.rows ++ header.cols))
        ≡ Some (0 ∷ (root_of header axis index).0) }
{}

/// What is proved of the range of each blob in the square of a block that isn't refused.
pub fn range_laws()
    // It is one of which a proof is made.
    ensures range { (block : BlockParts) (before after : List NamedBytes) (blob : NamedBytes) →
        layout_refusal block ≡ None → in_order block.blobs ≡ before ++ blob ∷ after →
        is_range (block_square block).k (start_after (end_of (compact_end block) before) blob)
        (share_count_of blob) ≡ true }

    // The square's shares in it are the blob's.
    ensures shares { (block : BlockParts) (before after : List NamedBytes) (blob : NamedBytes) →
        in_order block.blobs ≡ before ++ blob ∷ after →
        take (share_count_of blob)
        (drop (start_after (end_of (compact_end block) before) blob) (block_square block).shares)
        ≡ blob_shares_of blob.namespace blob.signer blob.bytes }
{
    blob_laws();
    size_laws();
    start_laws();
}

/// What is proved of a commitment proof that has its shape: it has at most 512 rows, each with at most
/// 512 subtrees.
pub fn shape_laws()
    ensures rows { (proof : CommitParts) → has_commit_shape proof ≡ true → length proof.rows ≤ greatest_width }
    ensures subtrees { (proof : CommitParts) → has_commit_shape proof ≡ true →
        AllByRecursion (λ row. length row.subtrees ≤ greatest_width) proof.rows }
{}

/// What is proved of the refusals of proofs under any data root.
pub fn refusal_laws()
    // No check fails exactly where the proof holds.
    ensures commit { (root : List ℕ) (proof : CommitParts) →
        (commit_refusal root proof ≡ None) ↔ CommitHolds root proof }
    ensures rooted { (root : List ℕ) (proof : RootedParts) → IsMessage proof.message →
        (rooted_refusal root proof ≡ None) ↔ RootedHolds root proof }

    // The row that a refusal names, counted from 0, is the first whose hashes don't lead to the data root.
    ensures unled { (root : List ℕ) (proof : CommitParts) (i : ℕ) → unled_row root proof ≡ Some i →
        IsFirstUnled root proof.k (proof.start / proof.k) proof.rows i }

    // So is the row whose subtrees don't open, and its opening is refused for the reason that is named.
    ensures unopened { (proof : CommitParts) (i : ℕ) (why : Refusal) → unopened_row proof ≡ Some (i, why) →
        IsFirstUnopened proof.k (levels_of proof.count) proof.start proof.count proof.rows i why }
{}

/// What is proved of samples under the data root of a square's header.
pub fn sample_laws()
    // A sample that is proved under the header has a root proof, which holds under the data root.
    ensures { (header : Roots) (square : SquareShares) (message : Message) →
        IsHeaderOf header square → IsProved header message →
        (proof : RootedParts) × (proof.k ≡ header.k) × (proof.message ≡ message)
        × IsRooted proof × (length proof.up ≤ most_hashes) × RootedHolds (data_root_of header) proof }
{}
