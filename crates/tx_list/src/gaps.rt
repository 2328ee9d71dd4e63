//! Where the square of a list of transactions is that of a block.

ghost use Rattle.std.specs.Prelude.{◌≡◌, [], None};
ghost use Rattle.std.specs.List.{AllByRecursion};
ghost use Rattle.tx_list.specs.Payments.{ListParts, IsPayment};
ghost use Rattle.tx_list.specs.Refusals.{list_size_refusal};
ghost use Rattle.tx_list.specs.Gaps.{HasNoSignedGap, TakesReserve, IsSquareOfBlock};

/// What holds of the square of a list beside that of the block of its plain transactions, its payments as they are written,
/// its blobs and its width. It changes nothing.
///
/// docs/RULES.md, "A block of the network".
pub fn block_laws()
    // Where the written payments take as many compact shares as are reserved for them, and no padding stands between a
    // signed blob and the blob behind it, both squares are one.
    ensures same { (list : ListParts) → AllByRecursion IsPayment list.payments →
        list_size_refusal list ≡ None → TakesReserve list → HasNoSignedGap list → IsSquareOfBlock list }

    // So it is without payments.
    ensures plain { (list : ListParts) → list.payments ≡ [] → list_size_refusal list ≡ None →
        IsSquareOfBlock list }
{}
