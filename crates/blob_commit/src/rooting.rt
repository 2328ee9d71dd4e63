//! Whether a sample is proved under a data root.

ghost use Rattle.std.specs.Prelude.{◌≡◌, ◌↔◌, IsOk, IsErrOf, IsTrue, true, false, Some};
ghost use Rattle.namespace_id.specs.Answers.{refusal_in};
ghost use Rattle.nmt_proofs.specs.declared.opening.OpenRefusal.{OpenRefusal as Refusal};
ghost use Rattle.data_header.specs.Headers.{Roots};
ghost use Rattle.data_header.specs.DataRoots.{data_root_of};
ghost use Rattle.blob_commit.specs.Proofs.{RootedHolds};
ghost use Rattle.blob_commit.specs.Places.{IsOwnRooted};
ghost use Rattle.blob_commit.specs.Refusals.{has_rooted_shape, is_rooted_led, sample_refusal, rooted_refusal};

use crate::commit_laws;
use crate::proofs::RootedMessage;
use crate::sizes::rooted_law;
use axis_roots::{index, message_law, position};
use data_header::open_root;
use namespace_id::{is_in_square, is_width, leaf_namespace};
use nmt_proofs::{OpenRefusal, open_leaf};
use thiserror::Error;

/// Why a root proof is refused. The variants stand in the order in which they are tested.
#[derive(Clone, Copy, Debug, PartialEq, Eq, Error)]
pub enum RootedRefusal {
    /// k isn't a width, or the cell is outside the square.
    #[error("the width or the cell is none")]
    Shape,
    /// The hashes don't lead from the root of the axis to the data root.
    #[error("the root of the axis does not lead to the data root")]
    Root,
    /// The sample doesn't open under the root of the axis.
    #[error("the sample does not open: {0}")]
    Path(OpenRefusal),
}

/// The three checks in their order.
fn judge(root: &[u8; 32], proof: &RootedMessage) -> Result<(), RootedRefusal>
    ensures accepts { IsOk result ↔ RootedHolds root.now proof.now }
    ensures first { refusal_in result ≡ rooted_refusal root.now proof.now }
{
    let k = proof.k;
    let message = &proof.message;
    message_law(message);
    if !is_width(k) || !is_in_square(k, message.cell) {
        return Err(RootedRefusal::Shape);
    }
    let axis = message.axis;
    if !open_root(
        root,
        k,
        axis,
        index(axis, message.cell),
        &proof.root,
        &proof.up,
    ) {
        return Err(RootedRefusal::Root);
    }
    let name = leaf_namespace(k, message.cell, &message.share);
    let opened = open_leaf(
        2 * k,
        position(axis, message.cell),
        &name,
        &message.share,
        message.path.nodes(),
        &proof.root,
    );
    match opened {
        Ok(()) => Ok(()),
        Err(why) => Err(RootedRefusal::Path(why)),
    }
}

/// Verifies a sample under a data root: whether the root of its axis leads to the data root, and
/// its nodes open its share under that. Under the data root of a square it then shows the share
/// that the square's extension has at its cell, or it and the square name two strings with one
/// SHA-256 digest.
///
/// Refuses a `k` that is no width or a cell outside the square, then hashes that don't lead to the
/// data root, then nodes that don't open the share, with the reason of `open_leaf`. It takes no
/// memory.
///
/// docs/RULES.md, "Commitment proofs".
pub fn rooted(root: &[u8; 32], proof: &RootedMessage) -> Result<(), RootedRefusal>
    ensures accepts { IsOk result ↔ RootedHolds root.now proof.now }

    // Each refusal comes exactly where its test is the first that fails.
    ensures shape { IsErrOf result RootedRefusal.Shape ↔ (has_rooted_shape proof.now ≡ false) }
    ensures root { IsErrOf result RootedRefusal.Root ↔
        (has_rooted_shape proof.now ≡ true) × (is_rooted_led root.now proof.now ≡ false) }
    ensures path { (why : Refusal) → IsErrOf result (RootedRefusal.Path why) ↔
        (has_rooted_shape proof.now ≡ true)
        × (is_rooted_led root.now proof.now ≡ true)
        × (sample_refusal proof.now ≡ Some why) }

    // All of these at once.
    ensures first { refusal_in result ≡ rooted_refusal root.now proof.now }

    // Under the data root of a square's header, what is accepted is the extension's share at the
    // cell, or the proof and the square name a collision.
    ensures own { (header : Roots) → root.now ≡ data_root_of header → IsOk result →
        IsOwnRooted header proof.now }
{
    rooted_law(proof);
    commit_laws();
    judge(root, proof)
}
