//! Networks of full nodes and light nodes that share a pool of items with an adversary, over any deliveries: loss,
//! repeats and order are free.
//!
//! `delivery_laws`, `rejection_laws`, `agreement_laws` and `joint_laws` say what a network promises.
#![tactic(auto)]

mod copies;
mod full;
mod items;
mod laws;
mod lights;
mod making;
mod nets;
mod seats;

pub use items::{Item, Kept, NetError, NetEvent, NodeState, StepRefusal, Stepped};
pub use laws::{agreement_laws, delivery_laws, joint_laws, rejection_laws};
pub use nets::{Net, limit_laws};
