//! What the definition of a layout means.

ghost use Rattle.std.specs.Prelude.{◌≡◌, ◌↔◌, ◌≤◌, ◌<◌, ◌+◌, ◌*◌, ◌%◌, ◌^◌, ◌++◌, ◌∷◌, ℕ, List, length, take, drop, map, max, true, Some, None};
ghost use Rattle.std.specs.List.{filter, slice_get, AllByRecursion};
ghost use Rattle.namespace_id.specs.declared.namespaces.Namespace.{Namespace};
ghost use Rattle.namespace_id.specs.Cells.{is_width};
ghost use Rattle.namespace_id.specs.Lists.{holds_along};
ghost use Rattle.namespace_id.specs.Names.{is_at_most, is_blob_namespace, namespace_refusal, tail_padding};
ghost use Rattle.namespace_id.specs.Shares.{AreShares, name_in};
ghost use Rattle.share_split.specs.Widths.{subtree_width_of};
ghost use Rattle.share_split.specs.Blobs.{NamedBytes, blob_shares_of};
ghost use Rattle.share_split.specs.Joined.{padding_share, IsBlob, AreBlobs};
ghost use Rattle.square_layout.specs.Blocks.{BlockParts, IsBlock, IsSquare};
ghost use Rattle.square_layout.specs.Layout.{has_name, in_order, share_count_of, start_after, end_of, compact_part, compact_end, laid, needed, holding_from, width_for, block_square};
ghost use Rattle.square_layout.specs.Plans.{PlanParts, IsPlan, plan_of, starts_after, ArePlaces, AreAtMost, bound, front, planned, square_of_plan};
ghost use Rattle.square_layout.specs.Refusals.{max_shares, layout_refusal};
ghost use Rattle.square_layout.specs.ShareNames.{BlobSharesAreNamed, UnitSharesAreNamed, PaddingIsNamed};
ghost use Rattle.square_layout.specs.Laws.{GapsArePadding};

use crate::MAX_SHARES;
use share_split::blob_laws;

/// Blobs stand by ascending namespace, and blobs of one namespace as they came.
pub fn order_laws()
    ensures ascending { (blobs : List NamedBytes) →
        holds_along is_at_most (map (λ blob. blob.namespace) (in_order blobs)) ≡ true }
    ensures stable { (name : Namespace) (blobs : List NamedBytes) →
        filter (has_name name) (in_order blobs) ≡ filter (has_name name) blobs }
{}

/// A blob starts at the least multiple of the width of its subtrees that isn't before the end of what
/// precedes it, and its shares stand there in the layout. The padding before it has the namespace of
/// what precedes it.
pub fn start_laws()
    ensures behind { (end : ℕ) (blob : NamedBytes) → end ≤ start_after end blob }
    ensures near { (end : ℕ) (blob : NamedBytes) →
        start_after end blob < end + subtree_width_of (share_count_of blob) }
    ensures aligned { (end : ℕ) (blob : NamedBytes) →
        start_after end blob % subtree_width_of (share_count_of blob) ≡ 0 }
    ensures stands { (block : BlockParts) (before after : List NamedBytes) (blob : NamedBytes) →
        in_order block.blobs ≡ before ++ blob ∷ after →
        take (share_count_of blob)
        (drop (start_after (end_of (compact_end block) before) blob) (laid block))
        ≡ blob_shares_of blob.namespace blob.signer blob.bytes }

    // The compact shares stand in front, and padding everywhere else.
    ensures front { (block : BlockParts) →
        take (compact_end block) (laid block) ≡ compact_part block }
    ensures gap { GapsArePadding }
    ensures tail { (block : BlockParts) (i : ℕ) → length (laid block) ≤ i →
        i < width_for block * width_for block →
        slice_get (block_square block).shares i ≡ Some (padding_share tail_padding) }
{}

/// The layout has as many shares as are needed, but where 1 is needed for none; a square that holds
/// them is full; the least width holds them, and no lesser power of two does. A block that isn't refused
/// has a square, and one of bytes has shares.
pub fn size_laws()
    ensures needed { (block : BlockParts) → needed block ≡ max 1 (length (laid block)) }
    ensures full { (block : BlockParts) → needed block ≤ width_for block * width_for block →
        length (block_square block).shares ≡ width_for block * width_for block }
    ensures holds { (count : ℕ) → count ≤ max_shares →
        count ≤ holding_from 9 1 count * holding_from 9 1 count }
    ensures least { (count j : ℕ) → j ≤ 9 → count ≤ 2 ^ j * 2 ^ j → holding_from 9 1 count ≤ 2 ^ j }
    ensures width { (count : ℕ) → is_width (holding_from 9 1 count) ≡ true }
    ensures limit { MAX_SHARES ≡ max_shares }

    // Squares and shares.
    ensures square { (block : BlockParts) → layout_refusal block ≡ None → IsSquare (block_square block) }
    ensures shares { (block : BlockParts) → IsBlock block → AreShares (block_square block).shares }
{}

/// The checks of a blob's namespace pass what `Namespace::blob` takes; the blobs of a block that isn't
/// refused have such namespaces; and where all have, the namespaces of the square's shares never fall.
pub fn name_laws()
    ensures accepted { (bytes : List ℕ) →
        (namespace_refusal bytes ≡ None) ↔ (is_blob_namespace bytes ≡ true) }
    ensures named { (block : BlockParts) → layout_refusal block ≡ None →
        AllByRecursion (λ blob. is_blob_namespace blob.namespace.0 ≡ true) block.blobs }
    ensures rising { (block : BlockParts) →
        AllByRecursion (λ blob. is_blob_namespace blob.namespace.0 ≡ true) block.blobs →
        holds_along is_at_most (map name_in (block_square block).shares) ≡ true }
{}

/// The shares of a blob, those of units, and padding have their namespace. The blobs of a block of bytes
/// that isn't refused are blobs, as they stand in its square too: each has a byte, and no more than four
/// bytes state.
pub fn share_laws()
    ensures blobs { BlobSharesAreNamed }
    ensures units { UnitSharesAreNamed }
    ensures padding { PaddingIsNamed }
    ensures ordered { (block : BlockParts) → layout_refusal block ≡ None → IsBlock block →
        AllByRecursion IsBlob (in_order block.blobs) }

    // Behind its compact shares the square of a block is exactly its blobs, in their order, with padding
    // before, between and behind them.
    ensures behind { (block : BlockParts) → layout_refusal block ≡ None → IsBlock block →
        AreBlobs (drop (compact_end block) (block_square block).shares) (in_order block.blobs) }
{
    blob_laws();
}

/// The blobs of a plan start at the least places that they may have, and end within the most shares that the width is
/// for. A block without signers is laid out as the plan whose blobs may start behind its compact shares.
pub fn plan_laws()
    ensures least { (end : ℕ) (blobs : List NamedBytes) (places : List ℕ) →
        ArePlaces end blobs places → AreAtMost (starts_after end blobs) places }
    ensures fits { (plan : PlanParts) →
        end_of plan.reserve (in_order plan.blobs) ≤ bound plan }
    ensures held { (plan : PlanParts) →
        length (front plan) ≤ plan.reserve → length (planned plan) ≤ bound plan }
    ensures same { (block : BlockParts) →
        AllByRecursion (λ blob. blob.signer ≡ None) block.blobs →
        planned (plan_of block) ≡ laid block }

    // What stands in its square, where its compact shares end at or before the place from which its blobs start.
    ensures stands { (plan : PlanParts) (before after : List NamedBytes) (blob : NamedBytes) →
        length (front plan) ≤ plan.reserve → in_order plan.blobs ≡ before ++ blob ∷ after →
        take (share_count_of blob)
        (drop (start_after (end_of plan.reserve before) blob) (planned plan))
        ≡ blob_shares_of blob.namespace blob.signer blob.bytes }
    ensures square { (plan : PlanParts) →
        length (front plan) ≤ plan.reserve → bound plan ≤ max_shares → IsSquare (square_of_plan plan) }

    // Its shares: behind the compact ones exactly the blobs, in their order, with padding.
    ensures shares { (plan : PlanParts) → IsPlan plan → AreShares (square_of_plan plan).shares }
    ensures behind { (plan : PlanParts) → AllByRecursion IsBlob plan.blobs →
        AreBlobs (drop (length (front plan)) (square_of_plan plan).shares) (in_order plan.blobs) }

    // The namespaces of its square's shares never fall.
    ensures rising { (plan : PlanParts) →
        AllByRecursion (λ blob. is_blob_namespace blob.namespace.0 ≡ true) plan.blobs →
        holds_along is_at_most (map name_in (square_of_plan plan).shares) ≡ true }
{}
