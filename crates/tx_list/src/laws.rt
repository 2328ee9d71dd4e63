//! Laws of lists of transactions.

ghost use Rattle.std.specs.Prelude.{◌≡◌, ◌≤◌, ◌<◌, ◌+◌, ◌++◌, ◌∷◌, ℕ, List, None, length, take, drop, map, slice_index, true};
ghost use Rattle.std.specs.List.{filter, AllByRecursion};
ghost use Rattle.namespace_id.specs.Lists.{holds_along};
ghost use Rattle.namespace_id.specs.declared.namespaces.Namespace.{Namespace};
ghost use Rattle.namespace_id.specs.Names.{is_at_most, is_blob_namespace};
ghost use Rattle.namespace_id.specs.Shares.{name_in, AreShares};
ghost use Rattle.share_split.specs.Blobs.{NamedBytes, blob_shares_of};
ghost use Rattle.share_split.specs.Units.{unit_share_count};
ghost use Rattle.square_layout.specs.Blocks.{IsSquare};
ghost use Rattle.share_split.specs.Joined.{IsBlob, AreBlobs};
ghost use Rattle.square_layout.specs.Layout.{has_name, in_order, share_count_of, end_of, laid};
ghost use Rattle.square_layout.specs.Plans.{starts_after, planned};
ghost use Rattle.square_layout.specs.Refusals.{max_shares};
ghost use Rattle.tx_list.specs.Payments.{ListParts, IsPayment, blobs_of};
ghost use Rattle.tx_list.specs.Places.{places_from, ordered};
ghost use Rattle.tx_list.specs.Reserves.{wrap_full, list_reserve, list_bound};
ghost use Rattle.tx_list.specs.Refusals.{list_size_refusal};
ghost use Rattle.tx_list.specs.OfBytes.{IsOfBytes};
ghost use Rattle.tx_list.specs.Reads.{list_of};
ghost use Rattle.tx_list.specs.ReadRefusals.{read_refusal};
ghost use Rattle.tx_list.specs.ReadLaws.{SpellingIsPayment, SpellingIsRead, SpelledIsTaken, SpelledListIsRead, SpelledAgain};
ghost use Rattle.square_layout.specs.Blocks.{SquareShares};
ghost use Rattle.tx_list.specs.Backs.{IsBack, HaveNamedBlobs};
ghost use Rattle.tx_list.specs.BackRefusals.{has_namespace, back_refusal};
ghost use Rattle.tx_list.specs.Lists.{list_places, written_list, plan_of_list, block_of_list, square_of_list};

use square_layout::{order_laws, share_laws};

/// What holds of the square of a list that may take no more shares than the greatest square has. It changes nothing.
///
/// docs/RULES.md, "A block of the network".
pub fn list_laws()
    // The reserve holds: each place is in the greatest square, the written payments end before the blobs, and the last blob
    // ends within what the width is for.
    ensures low { (list : ListParts) → list_bound list ≤ max_shares →
        AllByRecursion (λ place. place < max_shares) (list_places list) }
    ensures room { (list : ListParts) → list_bound list ≤ max_shares →
        unit_share_count list.units + unit_share_count (written_list list) ≤ list_reserve list }
    ensures ends { (list : ListParts) →
        end_of (list_reserve list) (in_order (blobs_of list.payments)) ≤ list_bound list }

    // Each blob stands at its place, and the namespaces of the shares never fall.
    ensures stands { (list : ListParts) (before after : List NamedBytes) (blob : NamedBytes) →
        list_bound list ≤ max_shares → blobs_of list.payments ≡ before ++ blob ∷ after →
        take (share_count_of blob)
        (drop (slice_index (list_places list) (length before)) (planned (plan_of_list list)))
        ≡ blob_shares_of blob.namespace blob.signer blob.bytes }
    ensures rising { (list : ListParts) → AllByRecursion IsPayment list.payments →
        holds_along is_at_most (map name_in (square_of_list list).shares) ≡ true }

    // The places in order are the starts of a plan, than which none are less (`square_layout::plan_laws`).
    ensures starts { (end : ℕ) (blobs : List NamedBytes) →
        map (λ place. place.start) (places_from end (ordered blobs)) ≡ starts_after end (in_order blobs) }

    // A list without signers, whose payments take as many shares as are reserved for them, is laid out as a block is.
    ensures same { (list : ListParts) →
        unit_share_count (written_list list) ≡ unit_share_count (wrap_full list.payments) →
        AllByRecursion (λ blob. blob.signer ≡ None) (blobs_of list.payments) →
        planned (plan_of_list list) ≡ laid (block_of_list list) }
{}

/// What holds of the squares of lists. It changes nothing.
///
/// docs/RULES.md, "A block of the network".
pub fn square_laws()
    // A list that isn't refused for its size has a square, and one of bytes has shares. What is read as
    // payments, where no check refuses it, are payments.
    ensures square { (list : ListParts) → list_size_refusal list ≡ None → IsSquare (square_of_list list) }
    ensures shares { (list : ListParts) → IsOfBytes list → AreShares (square_of_list list).shares }
    ensures payments { (transactions : List (List ℕ)) → read_refusal transactions ≡ None →
        AllByRecursion IsPayment (list_of transactions).payments }
{}

/// What holds of the blobs of one namespace in the square of a list. It changes nothing.
///
/// docs/RULES.md, "A block of the network".
pub fn namespace_laws()
    // The shares of a namespace of a blob are exactly the list's blobs that have it, payment after payment, with padding.
    ensures order { (list : ListParts) (name : Namespace) → AllByRecursion IsBlob (blobs_of list.payments) →
        is_blob_namespace name.0 ≡ true →
        AreBlobs (filter (has_namespace name) (square_of_list list).shares)
        (filter (has_name name) (blobs_of list.payments)) }
{
    order_laws();
    share_laws();
}

/// What holds of reading lists in their one spelling. It changes nothing.
///
/// docs/RULES.md, "A block of the network".
pub fn read_laws()
    // The one spelling of a payment is read as a payment: of just its transaction and its blobs.
    ensures payment { SpellingIsPayment }
    ensures parts { SpellingIsRead }

    // So a list in its one spelling is read as that list, and no check refuses it.
    ensures taken { SpelledIsTaken }
    ensures list { SpelledListIsRead }
    ensures again { SpelledAgain }
{}

/// What holds of the way back from a square to its list. It changes nothing.
///
/// docs/RULES.md, "A block of the network".
pub fn back_laws()
    // A square is laid out as one list at most, in its one spelling.
    ensures unique { (square : SquareShares) (one other : List (List ℕ)) →
        HaveNamedBlobs one → HaveNamedBlobs other → IsBack square one → IsBack square other → one ≡ other }

    // Where there is one, no check refuses the square.
    ensures there { (square : SquareShares) (transactions : List (List ℕ)) →
        HaveNamedBlobs transactions → IsBack square transactions → back_refusal square ≡ None }
{}
