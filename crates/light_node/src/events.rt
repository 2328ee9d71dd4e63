//! What a light node is handed, and what it answers.

use axis_roots::{FraudClaim, Message};
use befp_verify::Upheld;
use namespace_id::Cells;

/// What a peer hands a light node: the sample of a cell, or the claim that an axis is encoded
/// badly. Neither has to be right.
#[derive(Debug, Drop)]
pub enum Event {
    Sample(Message),
    Claim(FraudClaim),
}

/// What a light node knows so far.
#[derive(Clone, Copy, Debug, PartialEq, Eq)]
pub enum LightState {
    /// A planned cell has no proved sample.
    Waiting,
    /// Each planned cell has a proved sample.
    Available,
    /// A claim was accepted. It stays so whatever comes later.
    Rejected,
}

/// The verdict of a light node. It can't be dropped: who holds one has to take it apart.
pub enum Light {
    /// The planned cells without a proved sample, row-major.
    Waiting(Cells),
    /// Each planned cell has a proved sample, and no claim was accepted.
    Available,
    /// The first claim that was accepted.
    Rejected(Upheld),
}
