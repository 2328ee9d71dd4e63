//! From a block to its square: compact shares, blobs by namespace at their places, and padding.
#![tactic(auto)]

mod blocks;
mod checking;
mod counting;
mod laws;
mod laying;
mod ordering;
mod planning;
mod putting;
mod widths;

pub use blocks::{Block, Square};
pub use counting::{end_after, start_after};
pub use laws::{name_laws, order_laws, plan_laws, share_laws, size_laws, start_laws};
pub use laying::{LayError, MAX_SHARES, lay};
pub use planning::{lay_plan, plan_bound};
