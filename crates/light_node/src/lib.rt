//! A sampling light node: it holds a header, plans cells, and gives one of three verdicts over
//! whatever it was handed, by whom and in which order ever. A cell is shown by a sample that is
//! proved under the header; a header is rejected by the first fraud claim that is accepted under
//! it.
//!
//! Al-Bassam, Sonnino, Buterin and Khoffi, fraud and data availability proofs.
#![tactic(auto)]

mod events;
mod laws;
mod marks;
mod nodes;
mod picking;
mod wanted;

pub use events::{Event, Light, LightState};
pub use laws::{light_laws, node_laws};
pub use nodes::LightNode;
pub use picking::Picker;
