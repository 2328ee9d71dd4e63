//! What a watcher says, written into a text that has room for it.

ghost use Rattle.std.specs.Prelude.{◌≡◌, ◌≤◌, ◌+◌, [], true, false, List, vec_capacity};
ghost use Rattle.namespace_id.specs.declared.cells.Cell.{Cell as Place};
ghost use Rattle.light_node.specs.declared.events.Event.{Event as Happened};
ghost use Rattle.light_node.specs.declared.events.Light.{Light};
ghost use Rattle.light_node.specs.declared.events.Light.TheVariants as verdict;
ghost use Rattle.light_node.specs.Events.{NoneAccepted, IsLight};
ghost use Rattle.light_node.specs.Nodes.{NodeStands};
ghost use Rattle.da_watching.specs.Sizes.{most_claim, most_said};
ghost use Rattle.da_watching.specs.Watched.{TellsVerdict, light_status, said_unasked, claim_reason};

use axis_roots::claim_law;
use befp_verify::{FraudRefusal, Upheld};
use da_status::Status;
use da_talk::{put_missing_frame, put_state_frame};
use da_wire::wire_laws;
use frame_payloads::{Reason, fraud_size, put_fraud};
use light_node::{LightNode, LightState, Picker};
use namespace_id::{CellRoom, append};

/// The reason of a refusal of a claim.
pub(crate) fn claim_reason(why: FraudRefusal) -> Reason
    ensures { result ≡ claim_reason why }
{
    match why {
        FraudRefusal::Shape => Reason::FirstCheck,
        FraudRefusal::Cell(..) => Reason::SecondCheck,
        FraudRefusal::AxisMatches => Reason::ThirdCheck,
        FraudRefusal::Set(..) => Reason::FourthCheck,
    }
}

/// Writes a state where no drawn cell waits any more.
pub(crate) fn put_news(before: LightState, now: LightState, text: &mut Vec<u8>)
    requires empty { text.old.items ≡ [] }
    requires capacity { 5 ≤ vec_capacity text.old }
    ensures written { text.new.items ≡ said_unasked before now }
    ensures capacity { vec_capacity text.old ≤ vec_capacity text.new }
{
    if let (LightState::Waiting, LightState::Available) = (before, now) {
        put_state_frame(text);
    }
}

/// Writes the verdict of a node of width `k` that was handed no claim that is accepted, and answers the status that goes with it.
pub(crate) fn put_verdict<F: Picker>(
    k: u16,
    node: &LightNode<F>,
    cells: &mut CellRoom,
    text: &mut Vec<u8>,
) -> Status
    requires width { k ≡ node.now.header.k }
    requires cells { cells.old.k ≡ node.now.header.k }
    requires empty { text.old.items ≡ [] }
    requires capacity { most_said node.now.header.k ≤ vec_capacity text.old }
    ensures written { (plan : List Place) (events : List Happened) →
        NodeStands F.picks node.now plan events → NoneAccepted node.now.header events →
        (light : Light) × IsLight node.now.header plan events light × TellsVerdict light text.new.items
        × (result ≡ light_status light) }
    ensures cells { cells.new.k ≡ cells.old.k }
    ensures capacity { vec_capacity text.old ≤ vec_capacity text.new }
{
    wire_laws();
    node.waiting(cells);
    // Where no cell waits, the state tells that each is shown.
    let _state = node.state();
    let list = cells.cells();
    if list.is_empty() {
        put_state_frame(text);
        return Status::Done;
    }
    put_missing_frame(text, k, list);
    Status::Waiting(list.len() as u64)
}

/// Writes a claim that was accepted, and answers the status that goes with it.
pub(crate) fn put_claim(upheld: &Upheld, text: &mut Vec<u8>) -> Status
    requires empty { text.old.items ≡ [] }
    requires capacity { 5 + most_claim ≤ vec_capacity text.old }
    ensures written { TellsVerdict (verdict.Rejected upheld.now) text.new.items }
    ensures status { result ≡ light_status (verdict.Rejected upheld.now) }
{
    wire_laws();
    let claim = upheld.claim();
    claim_law(claim);
    let size = fraud_size(claim).unwrap();
    append(text, b"B");
    append(text, &size.to_be_bytes());
    put_fraud(text, claim);
    Status::Fraud(claim.axis, claim.index)
}
