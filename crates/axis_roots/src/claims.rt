//! Fraud claims: what one node sends to another to say that an axis of a block is encoded badly.

ghost use Rattle.std.specs.Prelude.{◌↔◌, IfSome, None, ◌≡◌, ◌⊎◌, ◌<◌, ◌≤◌, ◌*◌, ℕ, List, length, true, false};
ghost use Rattle.std.specs.List.{AllByRecursion, list_all};
ghost use Rattle.namespace_id.specs.declared.digests.Digest.{Digest};
ghost use Rattle.namespace_id.specs.declared.shares.Share.{Share};
ghost use Rattle.namespace_id.specs.Digests.{AreDigests};
ghost use Rattle.namespace_id.specs.Cells.{is_width, is_in_square};
ghost use Rattle.data_header.specs.Headers.{Roots};
ghost use Rattle.axis_roots.specs.Openings.{IsProved};
ghost use Rattle.axis_roots.specs.Sets.{is_along};
ghost use Rattle.axis_roots.specs.Lines.{is_ordered_line};
ghost use Rattle.axis_roots.specs.Claims.{ClaimParts, IsClaim, has_shape, has_set_shape, IsThrough, AreProved, ShowsBad, FitsRoot, Accepts, IsFalseClaim, claimed_root, ProofParts, IsFraudProof};

use crate::{Message, Proved, message_law};
use namespace_id::{Axis, Digest, digests_law};
use std::marker::Model;

/// The nodes of one inclusion proof of several cells of an axis: the digests of the greatest subtrees
/// that hold none of them, left to right.
///
/// It is a type of its own so that clauses compare lists; it is made from a `Vec` and gives it back
/// without taking memory.
#[derive(Debug, Drop)]
pub struct SetNodes {
    pub nodes: Vec<Digest>,
}

impl Model for SetNodes {
    ghost use Rattle.std.specs.Prelude.{List};
    ghost use Rattle.namespace_id.specs.declared.digests.Digest.{Digest};

    ghost Value = { List Digest };

    ghost view = { λ s. s.nodes.items };
}

/// A bad-encoding fraud proof (BEFP) as it is sent, before it is checked: the axis that it accuses and
/// samples of its cells. Each has its inclusion proof along its row or its column; or else the claim has
/// a set, which is one inclusion proof of all samples along the accused axis, and these have no nodes of
/// their own. Any numbers, samples and nodes may stand in it: whether the claim is accepted is for a
/// verifier.
///
/// Al-Bassam, Sonnino, Buterin and Khoffi, fraud proofs of incorrectly generated extended data;
/// docs/RULES.md, "Fraud claims".
#[derive(Debug, Drop)]
pub struct FraudClaim {
    pub axis: Axis,
    pub index: u16,
    pub cells: Vec<Message>,
    pub set: Option<SetNodes>,
}

impl Model for FraudClaim {
    ghost use Rattle.axis_roots.specs.Openings.{IsProved};
    ghost use Rattle.axis_roots.specs.Claims.{ClaimParts};

    ghost Value = { ClaimParts };

    ghost view = { λ c. record { axis = c.axis; index = c.index; cells = c.cells.items; set = c.set } };
}

/// A bad-encoding fraud proof (BEFP): proved samples of k cells of an axis, and the root of this axis that the codeword
/// through them hasn't. Its type keeps that, so its claim is accepted under each header of width k that has this
/// root of the axis, and under which the samples are proved.
///
/// Al-Bassam, Sonnino, Buterin and Khoffi, fraud proofs of incorrectly generated extended data;
/// docs/RULES.md, "Fraud claims".
#[derive(Drop)]
pub struct FraudProof {
    pub k: u16,
    pub axis: Axis,
    pub index: u16,
    pub root: Digest,
    pub cells: Vec<Proved>,
}

impl Model for FraudProof {
    ghost use Rattle.axis_roots.specs.Claims.{claim_with, ProofParts, IsFraudProof};

    ghost Value = { ProofParts };

    ghost view = { λ p. record { k = p.k; root = p.root; claim = claim_with p.axis p.index p.cells.items } };

    ghost invariant = { λ p. IsFraudProof (record { k = p.k; root = p.root; claim = claim_with p.axis p.index p.cells.items }) };
}

impl FraudProof {
    ghost use Rattle.axis_roots.specs.Claims.{IsFraudProof};

    /// What is true of every fraud proof is said with its width.
    pub fn width(&self) -> u16
        ensures value { result ≡ self.now.k }
        ensures proof { IsFraudProof self.now }
    {
        self.k
    }
}

/// Whether a sample is along an axis: its own axis is that one.
pub fn is_along(axis: Axis, message: &Message) -> bool
    ensures { result ≡ is_along axis message.now }
{
    match (axis, message.axis) {
        (Axis::Row, Axis::Row) => true,
        (Axis::Col, Axis::Col) => true,
        _ => false,
    }
}

/// The nodes of a set are digests. It changes nothing.
fn set_law(set: &Option<SetNodes>)
    ensures { IfSome set.now AreDigests }
{
    if let Some(set) = set {
        digests_law(&set.nodes);
    }
}

/// A claim has an index of two bytes, samples, and digests in its set. It changes nothing.
pub fn claim_law(claim: &FraudClaim)
    ensures { IsClaim claim.now }
{
    // Reading the index tells that it has two bytes.
    let _index = claim.index;
    for message in &claim.cells {
        message_law(message);
    }
    set_law(&claim.set);
}

/// What is proved of fraud claims.
pub fn claim_laws()
    // Of a claim of k cells in the square the codeword through them has the root as its strict root, or
    // another or none, and never both.
    ensures decided { (k : ℕ) (claim : ClaimParts) (root : Digest) → is_width k ≡ true →
        IsClaim claim → has_shape k claim ≡ true →
        list_all (λ m. is_in_square k m.cell) claim.cells ≡ true →
        ShowsBad k claim root ⊎ FitsRoot k claim root }
    ensures apart { (k : ℕ) (claim : ClaimParts) (root : Digest) → is_width k ≡ true →
        list_all (λ m. is_in_square k m.cell) claim.cells ≡ true →
        ShowsBad k claim root → FitsRoot k claim root → ⊥ }

    // Where the leaf namespaces along the codeword fall, every root is bad: there is no strict one.
    ensures falls { (k : ℕ) (claim : ClaimParts) (root : Digest) (word : List Share) →
        has_shape k claim ≡ true → IsThrough k claim word →
        is_ordered_line k claim.axis claim.index word ≡ false → ShowsBad k claim root }

    // A claim that has no set is accepted exactly where its samples are proved and it shows its axis to be
    // bad.
    ensures plain { (header : Roots) (claim : ClaimParts) → claim.set ≡ None →
        (AllByRecursion (IsProved header) claim.cells
        × ShowsBad header.k claim (claimed_root header claim)) ↔ Accepts header claim }

    // All cells of a claim that is accepted are in the square.
    ensures inside { (header : Roots) (claim : ClaimParts) → has_set_shape header.k claim ≡ true →
        AreProved header claim claim.cells →
        list_all (λ m. is_in_square header.k m.cell) claim.cells ≡ true }

    // The set of a claim that is accepted has at most k nodes.
    ensures few { (header : Roots) (claim : ClaimParts) → Accepts header claim →
        IfSome claim.set (λ nodes. length nodes ≤ header.k) }

    // A claim that is accepted under a square's own header has a sample, or a set, that names a
    // collision with the square.
    ensures own { (header : Roots) (claim : ClaimParts) → Accepts header claim →
        IsFalseClaim header claim }

    // The claim of a fraud proof is accepted under each header of its width that has its root of the
    // axis, and under which its samples are proved.
    ensures proof { (header : Roots) (proof : ProofParts) → IsFraudProof proof →
        header.k ≡ proof.k → claimed_root header proof.claim ≡ proof.root →
        AllByRecursion (IsProved header) proof.claim.cells → Accepts header proof.claim }
{}
