//! Additive transforms over a field with a Cantor basis: from coefficients to values at a block of
//! points, and back, and the formal derivative.
//!
//! The coefficients are those of the polynomials X_j, where X_j is the product of the subspace
//! polynomials s_i over the set bits i of j. Each column of the shares' labels is transformed apart.
//! Which field it is, and how a share is read as labels of it, is a type parameter, a `Factor`.
//!
//! Lin, Chung, Han (2014), "Novel polynomial basis and its application to Reed-Solomon erasure
//! codes".
#![tactic(auto)]

mod butterflies;
mod derivatives;
mod factor;
mod transforms;

pub use derivatives::derive;
pub use factor::Factor;
pub use transforms::{forward, inverse, transform_laws};
