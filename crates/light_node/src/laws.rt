//! The laws of light verdicts.

ghost use Rattle.std.specs.Prelude.{◌≡◌, ◌↔◌, ◌++◌, [], ◌∷◌, List, Some};
ghost use Rattle.std.specs.List.{Contains};
ghost use Rattle.namespace_id.specs.declared.cells.Cell.{Cell};
ghost use Rattle.data_header.specs.Headers.{Roots};
ghost use Rattle.axis_roots.specs.Claims.{ClaimParts, Accepts};
ghost use Rattle.light_node.specs.declared.events.Event.{Event};
ghost use Rattle.light_node.specs.declared.events.Event.TheVariants.{Claim};
ghost use Rattle.light_node.specs.declared.events.LightState.{LightState};
ghost use Rattle.light_node.specs.declared.events.LightState.TheVariants as state;
ghost use Rattle.light_node.specs.declared.events.Light.{Light};
ghost use Rattle.light_node.specs.Events.{IsFirstAccepted, IsState, IsLight, state_of_light};
ghost use Rattle.light_node.specs.Nodes.{NodeParts, NodeStands, distinct};

use crate::Picker;

/// The laws of light verdicts. It does nothing.
pub fn light_laws()
    // There is one verdict and one state, and they go together.
    ensures once { (header : Roots) (plan : List Cell) (events : List Event) (one other : Light) →
        IsLight header plan events one → IsLight header plan events other → one ≡ other }
    ensures state_once { (header : Roots) (plan : List Cell) (events : List Event)
        (one other : LightState) →
        IsState header plan events one → IsState header plan events other → one ≡ other }
    ensures state { (header : Roots) (plan : List Cell) (events : List Event) (light : Light) →
        IsLight header plan events light → IsState header plan events (state_of_light light) }

    // The order of events and their repeats change no state.
    ensures order { (header : Roots) (plan : List Cell) (events others : List Event)
        (one other : LightState) →
        ((event : Event) → Contains events event ↔ Contains others event) →
        IsState header plan events one → IsState header plan others other → one ≡ other }

    // Once rejected, it stays rejected.
    ensures rejected { (header : Roots) (plan more : List Cell) (events later : List Event)
        (one : LightState) →
        IsState header plan events state.Rejected →
        IsState header more (events ++ later) one → one ≡ state.Rejected }

    // The first accepted claim stays the first, whatever comes later.
    ensures kept { (header : Roots) (events later : List Event) (claim : ClaimParts) →
        IsFirstAccepted header events (Some claim) →
        IsFirstAccepted header (events ++ later) (Some claim) }

    // The state by a plan is that by its distinct cells.
    ensures distinct { (header : Roots) (plan : List Cell) (events : List Event)
        (one : LightState) →
        IsState header plan events one ↔ IsState header (distinct plan) events one }
{}

/// The laws of a node and the events for which it stands. It does nothing.
pub fn node_laws<F: Picker>()
    // A node that stands for events stands for them with a claim behind that isn't accepted, and,
    // where it keeps a claim, with any other behind.
    ensures refused { (node : NodeParts F) (plan : List Cell) (events : List Event)
        (claim : ClaimParts) → NodeStands F.picks node plan events →
        (Accepts node.header claim → ⊥) →
        NodeStands F.picks node plan (events ++ Claim claim ∷ []) }
    ensures later { (node : NodeParts F) (plan : List Cell) (events : List Event)
        (claim first : ClaimParts) → NodeStands F.picks node plan events →
        node.claim ≡ Some first → NodeStands F.picks node plan (events ++ Claim claim ∷ []) }
{}
