//! The answers of a repair.

use axis_roots::FraudProof;
use hash_clash::Clash;
use namespace_id::Cells;
use square_layout::Square;

/// What repair answers for a header and a list of proved samples. It can't be dropped: who holds
/// one has to take it apart.
///
/// docs/RULES.md, "Closures and verdicts".
pub enum Verdict {
    /// The square, whose header the header is.
    Whole(Square),
    /// A proof that an axis of the header is encoded badly.
    Fraud(FraudProof),
    /// The cells that do not follow from the samples.
    Missing(Cells),
    /// A SHA-256 collision.
    Clash(Clash),
}
