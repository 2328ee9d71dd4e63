//! The places that the payments of a list state.

ghost use Rattle.std.specs.Prelude.{◌≡◌, ◌≤◌, ◌++◌, ◌∷◌, List, length, slice_index, None};
ghost use Rattle.std.specs.List.{AllByRecursion};
ghost use Rattle.share_split.specs.Blobs.{NamedBytes, IsNamed};
ghost use Rattle.share_split.specs.Joined.{IsBlob};
ghost use Rattle.square_layout.specs.Refusals.{max_shares};
ghost use Rattle.tx_list.specs.Payments.{PaymentParts, ListParts, IsPayment, blobs_of};
ghost use Rattle.tx_list.specs.Reserves.{list_bound};
ghost use Rattle.tx_list.specs.Refusals.{list_size_refusal};
ghost use Rattle.tx_list.specs.Lists.{list_places, square_of_list};
ghost use Rattle.tx_list.specs.Ranges.{StatesPlaces, IsStart, IsRangeOf};

/// What holds of the places of a list's blobs, and of the blobs. It changes nothing.
///
/// docs/RULES.md, "A block of the network".
pub fn place_laws()
    // What is read of each payment, as it is written, is its transaction and the places of its blobs.
    ensures stated { (list : ListParts) (earlier later : List PaymentParts) (payment : PaymentParts) →
        list_bound list ≤ max_shares → list.payments ≡ earlier ++ payment ∷ later →
        StatesPlaces list earlier payment }

    // Each place is the start of its blob in order, and from there on the square has the blob's shares.
    ensures start { (list : ListParts) (before after : List NamedBytes) (blob : NamedBytes) →
        blobs_of list.payments ≡ before ++ blob ∷ after →
        IsStart list (slice_index (list_places list) (length before)) blob }
    ensures range { (list : ListParts) (before after : List NamedBytes) (blob : NamedBytes) →
        list_bound list ≤ max_shares → blobs_of list.payments ≡ before ++ blob ∷ after →
        IsRangeOf (square_of_list list) (slice_index (list_places list) (length before)) blob }

    // The blobs of a list that isn't refused for its size are blobs as shares are read.
    ensures blobs { (list : ListParts) → AllByRecursion IsPayment list.payments →
        AllByRecursion IsNamed (blobs_of list.payments) → list_size_refusal list ≡ None →
        AllByRecursion IsBlob (blobs_of list.payments) }
{}
