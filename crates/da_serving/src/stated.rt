//! What the commands answer of the blobs of a list of transactions, at the places that its payments state.

ghost use Rattle.std.specs.Prelude.{◌≡◌, ◌++◌, ◌∷◌, ℕ, List, length, true, Ok};
ghost use Rattle.std.specs.List.{Contains};
ghost use Rattle.share_split.specs.Blobs.{NamedBytes};
ghost use Rattle.share_split.specs.Walks.{blobs_joined};
ghost use Rattle.square_layout.specs.Layout.{in_order, share_count_of};
ghost use Rattle.tx_list.specs.Reads.{list_of};
ghost use Rattle.blob_commit.specs.Proofs.{is_range};
ghost use Rattle.da_status.specs.declared.status.Status.{Status};
ghost use Rattle.da_status.specs.declared.status.Status.TheVariants.{Done};
ghost use Rattle.da_serving.specs.Blobs.{behind_compact};
ghost use Rattle.da_serving.specs.Commit.{commitment_of};
ghost use Rattle.da_serving.specs.Find.{Finds};
ghost use Rattle.da_serving.specs.Prove.{ProvesRange};
ghost use Rattle.da_serving.specs.Stated.{IsBuilt, built_square, built_blobs, stated_place, ProvesBlob, ranges_of, WritesRanges};

use axis_roots::grid_laws;
use blob_commit::commit_laws;
use share_split::join_laws;
use tx_list::{list_laws, place_laws, square_laws};

/// What is proved of the blobs of a list of transactions of bytes that isn't refused, in its square. It changes nothing.
///
/// docs/RULES.md, "A block of the network".
pub fn stated_laws()
    // The place that is stated of a blob and the number of its shares are a range of which a proof is made.
    ensures range { (transactions : List (List ℕ)) (before after : List NamedBytes) (blob : NamedBytes) →
        IsBuilt transactions → built_blobs transactions ≡ before ++ blob ∷ after →
        is_range (built_square transactions).k (stated_place transactions (length before))
        (share_count_of blob) ≡ true }

    // What `prove` answers to it is a proof of the blob's commitment, and no refusal.
    ensures proves { (transactions : List (List ℕ)) (before after : List NamedBytes)
        (blob : NamedBytes) (w : List ℕ) (status : Status) →
        IsBuilt transactions → built_blobs transactions ≡ before ++ blob ∷ after →
        ProvesRange (built_square transactions) (stated_place transactions (length before))
        (share_count_of blob) w status →
        ProvesBlob (built_square transactions) (stated_place transactions (length before)) blob w
        status }

    // Behind the compact shares of the square exactly the blobs are read, with their signers, by ascending namespace.
    ensures blobs { (transactions : List (List ℕ)) → IsBuilt transactions →
        blobs_joined (behind_compact (built_square transactions).shares)
        ≡ Ok (in_order (built_blobs transactions)) }

    // What `find` answers to a commitment are the ranges of the blobs that have it, and no refusal of the square.
    ensures finds { (transactions : List (List ℕ)) (commitment w : List ℕ) (status : Status) →
        IsBuilt transactions → Finds commitment (built_square transactions) w status →
        WritesRanges (ranges_of commitment (list_of transactions)) w status }

    // So that of a blob is found at its stated place.
    ensures found { (transactions : List (List ℕ)) (before after : List NamedBytes) (blob : NamedBytes) →
        built_blobs transactions ≡ before ++ blob ∷ after →
        Contains (ranges_of (commitment_of blob) (list_of transactions))
        (stated_place transactions (length before), share_count_of blob) }
    ensures done { (transactions : List (List ℕ)) (before after : List NamedBytes)
        (blob : NamedBytes) (w : List ℕ) (status : Status) →
        IsBuilt transactions → built_blobs transactions ≡ before ++ blob ∷ after →
        Finds (commitment_of blob) (built_square transactions) w status → status ≡ Done }
{
    grid_laws();
    commit_laws();
    join_laws();
    list_laws();
    place_laws();
    square_laws();
}
