//! Whether a fraud claim is accepted under a header: what a light node believes of a stranger who says
//! that the whole block is bad.
//!
//! `verify` rebuilds the accused axis from the claim's cells and compares its root with the header's.
//! `Upheld` is the certificate of a claim that was accepted; only `verify` makes one.
#![tactic(auto)]

mod compacting;
mod laws;
mod upheld;
mod verifying;
mod view;

pub use compacting::{Compacted, compact, compact_laws};
pub use laws::refusal_laws;
pub use upheld::Upheld;
pub use verifying::{FraudRefusal, FraudRefused, VerifyRoom, judge, verify};
pub use view::ClaimView;
