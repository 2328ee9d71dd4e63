//! Fraud claims that lie elsewhere.

ghost use Rattle.std.specs.Prelude.{◌≡◌, IfSome};
ghost use Rattle.std.specs.Option.{option_map};
ghost use Rattle.namespace_id.specs.Digests.{AreDigests};
ghost use Rattle.axis_roots.specs.Claims.{IsClaim};

use axis_roots::{FraudClaim, Message, SetNodes, message_law};
use namespace_id::{Axis, Digest, digests_law};
use std::marker::Model;

/// A fraud claim whose lists lie elsewhere: in a claim, or in room that holds one after another.
///
/// Any numbers, samples and nodes may stand in it, as in a claim.
#[derive(Drop)]
pub struct ClaimView<'a> {
    pub axis: Axis,
    pub index: u16,
    pub cells: &'a [Message],
    pub set: Option<&'a [Digest]>,
}

impl<'a> Model for ClaimView<'a> {
    ghost use Rattle.std.specs.Option.{option_map};
    ghost use Rattle.axis_roots.specs.Claims.{ClaimParts};

    ghost Value = { ClaimParts };

    ghost view = { λ c. record {
      axis = c.axis;
      index = c.index;
      cells = c.cells.now;
      set = option_map (λ nodes. nodes.now) c.set;
    } };
}

/// The nodes of a set, if there is one.
fn nodes_of(set: &Option<SetNodes>) -> Option<&[Digest]>
    ensures { option_map (λ nodes. nodes.now) result ≡ set.now }
{
    match set {
        Some(set) => Some(&set.nodes),
        None => None,
    }
}

impl<'a> ClaimView<'a> {
    /// The view of a claim.
    pub fn of(claim: &'a FraudClaim) -> ClaimView<'a>
        ensures { result ≡ claim.now }
    {
        ClaimView {
            axis: claim.axis,
            index: claim.index,
            cells: &claim.cells,
            set: nodes_of(&claim.set),
        }
    }
}

/// The nodes of a set are digests. It changes nothing.
fn set_law(set: Option<&[Digest]>)
    ensures { IfSome (option_map (λ nodes. nodes.now) set.entry) AreDigests }
{
    if let Some(nodes) = set {
        digests_law(nodes);
    }
}

/// A claim has an index of two bytes, samples, and digests in its set. It changes nothing.
pub(crate) fn view_law(claim: &ClaimView<'_>)
    ensures { IsClaim claim.now }
{
    // Reading the index tells that it has two bytes.
    let _index = claim.index;
    for message in claim.cells {
        message_law(message);
    }
    set_law(claim.set);
}
