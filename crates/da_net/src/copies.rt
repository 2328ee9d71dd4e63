//! Copies of samples and claims, into rooms that were taken before.

ghost use Rattle.std.specs.Prelude.{◌≡◌, ◌≤◌, [], length, IfSome};
ghost use Rattle.namespace_id.specs.Answers.{HasCapacity};
ghost use Rattle.da_net.specs.Nodes.{IsSpareClaim};

use axis_roots::{FraudClaim, FraudProof, Message, SetNodes};
use namespace_id::Digest;
use nmt_proofs::Path;

/// A room for a claim that is copied: for its samples, and for the nodes of its set.
#[derive(Drop)]
pub(crate) struct ClaimRoom {
    pub(crate) cells: Vec<Message>,
    pub(crate) nodes: Vec<Digest>,
}

/// A copy of a path.
fn copy_path(path: &Path) -> Path
    ensures { result ≡ path.now }
{
    let nodes = path.nodes();
    let mut copy = Path::new();
    for i in 0..nodes.len() {
        copy.push(nodes[i]);
    }
    copy
}

/// A copy of a sample.
pub(crate) fn copy_message(message: &Message) -> Message
    ensures { result ≡ message.now }
{
    Message {
        cell: message.cell,
        axis: message.axis,
        share: message.share,
        path: copy_path(&message.path),
    }
}

/// A copy of digests.
fn copy_nodes(nodes: &[Digest], room: Vec<Digest>) -> Vec<Digest>
    requires empty { room.items ≡ [] }
    requires capacity { HasCapacity room (length nodes.now) }
    ensures { result.items ≡ nodes.now }
{
    let mut copy = room;
    for i in 0..nodes.len() {
        copy.push(nodes[i]).unwrap();
    }
    copy
}

/// A copy of a set, if there is one.
fn copy_set(set: &Option<SetNodes>, room: Vec<Digest>) -> Option<SetNodes>
    requires empty { room.items ≡ [] }
    requires capacity { IfSome set.now (λ nodes. HasCapacity room (length nodes)) }
    ensures { result ≡ set.now }
{
    let Some(set) = set else {
        return None;
    };
    Some(SetNodes {
        nodes: copy_nodes(&set.nodes, room),
    })
}

/// A copy of a claim.
pub(crate) fn copy_claim(claim: &FraudClaim, room: ClaimRoom) -> FraudClaim
    requires spare { IsSpareClaim (length claim.now.cells) room }
    requires few { IfSome claim.now.set (λ nodes. length nodes ≤ length claim.now.cells) }
    ensures { result ≡ claim.now }
{
    let ClaimRoom { cells, nodes } = room;
    let mut cells = cells;
    for i in 0..claim.cells.len() {
        cells.push(copy_message(&claim.cells[i])).unwrap();
    }
    FraudClaim {
        axis: claim.axis,
        index: claim.index,
        cells,
        set: copy_set(&claim.set, nodes),
    }
}

/// The claim of a fraud proof.
pub(crate) fn claim_of(proof: FraudProof, room: ClaimRoom) -> FraudClaim
    requires { IsSpareClaim (length proof.claim.cells) room }
    ensures { result ≡ proof.claim }
{
    let FraudProof {
        k: _,
        axis,
        index,
        root: _,
        cells,
    } = proof;
    let mut messages = room.cells;
    for proved in cells {
        messages.push(proved.into_message()).unwrap();
    }
    FraudClaim {
        axis,
        index,
        cells: messages,
        set: None,
    }
}
