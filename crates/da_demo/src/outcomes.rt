//! What comes of a trial.

use namespace_id::Axis;

/// What a repair came to.
#[derive(Clone, Copy)]
pub enum Outcome {
    /// The square that was laid out.
    Whole,
    /// Another square.
    Other,
    /// A fraud proof against this axis, the row or column of this index.
    Fraud(Axis, u16),
    /// So many missing cells.
    Missing(u32),
    /// A SHA-256 collision.
    Clash,
}

/// Whether a fraud proof was accepted by a verifier.
#[derive(Clone, Copy)]
pub enum Upheld {
    Yes,
    No,
    /// There was no fraud proof.
    None,
}

/// What came of a trial.
#[derive(Clone, Copy)]
pub struct Trial {
    pub k: u16,
    pub blobs: u32,
    /// The data root of the block's header.
    pub root: [u8; 32],
    /// How many samples of the first session were proved, and how many were refused.
    pub proved: u64,
    pub lies: u64,
    pub first: Outcome,
    pub second: Outcome,
    pub upheld: Upheld,
}
