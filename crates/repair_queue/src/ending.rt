//! How a step of a repair may end it.

use axis_roots::FraudProof;
use hash_clash::Clash;

/// What ends a repair before all is decided.
#[derive(Drop)]
pub(crate) enum Ending {
    Fraud(FraudProof),
    Clash(Clash),
}
