//! Light nodes in a network.

ghost use Rattle.std.specs.Prelude.{◌≡◌, List, [], ◌∷◌, ◌++◌, Some};
ghost use Rattle.data_header.specs.Headers.{Roots};
ghost use Rattle.axis_roots.specs.Claims.{ClaimParts, Accepts};
ghost use Rattle.da_net.specs.declared.items.Item.{Item as Handed};
ghost use Rattle.da_net.specs.declared.items.Item.TheVariants as item;
ghost use Rattle.da_net.specs.Nodes.{HasSpareClaim, IsLightNode, Rejects, IsLightStep};

use crate::copies::{ClaimRoom, copy_claim};
use axis_roots::{FraudClaim, Message};
use data_header::Header;
use light_node::{Event, LightNode, Picker, light_laws};

/// Hands a sample to a light node.
pub(crate) fn hand_sample<F: Picker>(node: &mut LightNode<F>, message: Message)
    ensures { (header : Roots) (items : List Handed) → IsLightNode F.picks header items node.old →
        IsLightStep F.picks header (items ++ item.Message message ∷ []) node.old node.new }
{
    light_laws();
    let _state = node.event(Event::Sample(message));
}

/// Hands an accepted claim to a light node.
pub(crate) fn hand_claim<F: Picker>(
    node: &mut LightNode<F>,
    header: &Header,
    claim: &FraudClaim,
    room: &mut Option<ClaimRoom>,
)
    requires node { (items : List Handed) × IsLightNode F.picks header.now items node.old }
    requires accepts { Accepts header.now claim.now }
    requires room { (Rejects node.old.claim → ⊥) → HasSpareClaim header.now.k room.old }
    ensures step { (items : List Handed) → IsLightNode F.picks header.now items node.old →
        IsLightStep F.picks header.now (items ++ item.Claim claim.now ∷ []) node.old node.new }
    ensures rejects { Rejects node.new.claim }
{
    light_laws();
    if node.claim().is_some() {
        return;
    }
    let copy = copy_claim(claim, room.take().unwrap());
    let _state = node.event(Event::Claim(copy));
}
