//! What goes about in a network, and what its calls answer.

use axis_roots::{FraudClaim, Message};
use thiserror::Error;

/// What one node hands to another: a sample, or the claim that an axis is encoded badly. Neither has to be right.
#[derive(Debug, Drop)]
pub enum Item {
    Message(Message),
    Claim(FraudClaim),
}

/// What may happen in a network.
#[derive(Debug, Drop)]
pub enum NetEvent {
    /// The adversary puts an item into the pool.
    Put(Item),
    /// An item of the pool, which stays there, is handed to a node.
    Hand { item: u32, node: u16 },
    /// A node that rejects puts its claim into the pool.
    Publish { node: u16 },
}

/// An event that has happened. What was put is in the pool.
#[derive(Clone, Copy, Debug, PartialEq, Eq)]
pub enum Kept {
    Put,
    Hand { item: u32, node: u16 },
    Publish { node: u16 },
}

/// The state of a node.
#[derive(Clone, Copy, Debug, PartialEq, Eq)]
pub enum NodeState {
    /// A full node whose samples fit the header so far.
    Open,
    /// A full node that has a SHA-256 collision.
    Clash,
    /// A light node of which a planned cell has no proved sample.
    Waiting,
    /// A light node of which each planned cell has a proved sample.
    Available,
    /// A node that holds an accepted claim. It stays so whatever comes later.
    Rejected,
}

/// What a step did.
#[derive(Clone, Copy, Debug, PartialEq, Eq)]
pub enum Stepped {
    /// An item has this place in the pool.
    Pooled(u32),
    /// The state of the node that an item was handed to, afterwards.
    Handed(NodeState),
}

/// Why a step is refused. The variants stand in the order in which they are tested.
#[derive(Debug, Drop, Error)]
pub enum StepRefusal {
    /// There is no capacity for a step, or for an item; the event comes back.
    #[error("there is no room for one more step or item")]
    Full(NetEvent),
    #[error("there is no such item in the pool")]
    NoItem,
    #[error("there is no such node")]
    NoNode,
    #[error("the node doesn't reject")]
    NotRejecting,
    #[error("the node has published its claim")]
    Published,
}

/// Why a network is not made. The variants stand in the order in which they are tested.
#[derive(Clone, Copy, Debug, PartialEq, Eq, Error)]
pub enum NetError {
    #[error("a network has at most 8 full nodes, 64 light nodes, 65,536 items and 1,048,576 steps")]
    TooMany,
    #[error("out of memory")]
    NoMemory,
}
