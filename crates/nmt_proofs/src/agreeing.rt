//! What two parts with one digest share.

ghost use Rattle.std.specs.Prelude.{◌≡◌, ℕ, List, Some, None};
ghost use Rattle.namespace_id.specs.declared.namespaces.Namespace.{Namespace};
ghost use Rattle.namespace_id.specs.declared.shares.Share.{Share};
ghost use Rattle.namespace_id.specs.declared.digests.Digest.{Digest};
ghost use Rattle.nmt_tree.specs.Roots.{root};
ghost use Rattle.nmt_proofs.specs.Parts.{Part, digest_of};
ghost use Rattle.nmt_proofs.specs.Openings.{Shown, opened};
ghost use Rattle.nmt_proofs.specs.Clashes.{IsClash, clash_at, IsSized, HasDepth, Agree, whole, AreLeaves, IsOpening};
ghost use Rattle.nmt_proofs.specs.Hashed.{hashed, first_apart};
ghost use Rattle.nmt_proofs.specs.Laws.{OpeningAgrees, PlacesAreListed, LeafIsListed, SetIsListed, SubtreesAreListed, OneOpening, OneList};

/// Where two parts of a tree have one digest, the strings at the first interval at which both have
/// one and these differ are a SHA-256 collision; where there is no such interval, the parts agree.
///
/// Nothing assumes that SHA-256 has no collisions: `ClashOr` names the two strings, or gives the
/// fact.
pub fn clash_laws()
    // By the lists of all strings that are hashed for either part.
    ensures hashed { (depth : ℕ) (p q : Part) → HasDepth depth p → HasDepth depth q →
        clash_at p q ≡ first_apart (hashed depth 0 p) (hashed depth 0 q) }

    // What is found is a collision; where nothing is found, the parts agree.
    ensures found { (p q : Part) (a b : List ℕ) → IsSized p → IsSized q →
        digest_of p ≡ digest_of q → clash_at p q ≡ Some (a, b) → IsClash a b }
    ensures agree { (depth : ℕ) (p q : Part) → HasDepth depth p → HasDepth depth q →
        IsSized p → IsSized q → digest_of p ≡ digest_of q → clash_at p q ≡ None → Agree p q }

    // An opening under the root of a list of leaves.
    ensures opening { OpeningAgrees }

    // One that shows single places shows the list's leaves, and its nodes are the digests over
    // the list's leaves in the intervals that hold nothing shown.
    ensures places { PlacesAreListed }

    // The same for one that shows one leaf.
    ensures leaf { LeafIsListed }

    // The same for one that shows the leaves of a set of places.
    ensures set { SetIsListed }

    // The same for one that shows neighboring subtrees: their digests are those over the list's
    // leaves.
    ensures subtrees { SubtreesAreListed }

    // Two openings of one leaf place under one root are one opening.
    ensures openings { OneOpening }

    // Two lists of leaves with one root are one list.
    ensures lists { OneList }

    // If two parts differ, one of them differs from the list.
    ensures symmetric { (depth : ℕ) (p q : Part) (names : List Namespace) (shares : List Share) →
        HasDepth depth p → HasDepth depth q → AreLeaves depth names shares →
        clash_at p (whole depth names shares) ≡ None →
        clash_at q (whole depth names shares) ≡ None → clash_at p q ≡ None }

    // What is opened stands at its depth, and is sized; so does a whole list, and its digest is the
    // root.
    ensures opened { (depth : ℕ) (shown : List Shown) (nodes : List Digest) →
        IsOpening depth shown nodes →
        HasDepth depth (opened depth 0 shown nodes) × IsSized (opened depth 0 shown nodes) }
    ensures whole { (depth : ℕ) (names : List Namespace) (shares : List Share) →
        AreLeaves depth names shares →
        HasDepth depth (whole depth names shares) × IsSized (whole depth names shares) }
    ensures root { (depth : ℕ) (names : List Namespace) (shares : List Share) →
        digest_of (whole depth names shares) ≡ root depth names shares }
{}
