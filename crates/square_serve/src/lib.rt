//! What a node that holds a square answers to samples and namespace requests, and whether a namespace
//! answer is complete.
//!
//! `held` keeps a square with its extension, and makes the tree of a row or a column when an answer
//! first needs it. `held_rows` keeps a square alone, makes its rows' trees, and answers namespace requests.
//! `checking` judges an answer of anybody under a header alone.
#![tactic(auto)]

mod checking;
mod finding;
mod held;
mod held_rows;
mod laws;
mod leaves;
mod needed;
mod ordering;
mod row_trees;
mod rows;

pub use checking::{NsRefusal, check_namespace};
pub use finding::RowFound;
pub use held::{Held, HeldError, OutOfSquare, ServeError};
pub use held_rows::HeldRows;
pub use laws::{answer_laws, serve_laws};
