//! What k proved samples of a row or a column say of the rest of it, and so on for the whole
//! extended data square: its repair.
//!
//! `repair_list` answers a square with the header, missing cells, a fraud proof or a SHA-256
//! collision. So does a `Session`, which is fed one sample at a time, and a `GrowingSession`, which
//! takes memory for samples as they come. `closure_laws` is on the cells
//! and shares that follow from proved samples, `settled_laws` on when these fit the header,
//! `verdict_laws` on the answers, `session_laws` on the lists for which a session stands.
#![tactic(auto)]

mod boards;
mod conflicts;
mod counts;
mod coverage;
mod ending;
mod entering;
mod gathering;
mod growing;
mod judging;
mod keeping;
mod laws;
mod making;
mod marks;
mod placing;
mod pools;
mod repairing;
mod rooting;
mod sessions;
mod tools;
mod verdict;

pub use growing::GrowingSession;
pub use laws::{closure_laws, session_laws, settled_laws, verdict_laws};
pub use repairing::repair_list;
pub use sessions::{Session, SessionState};
pub use verdict::Verdict;
