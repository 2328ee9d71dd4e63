//! Extended data squares (EDS) with their data availability headers, samples, and whether these are
//! proved under a header.
//!
//! `Grid::extend` makes the extension of a square, `header_of` the header of a grid, and
//! `header_of_square` that of a square without its extension in memory, and a `LeftHalf` besides the
//! samples of some cells; `message_of` makes a sample, one share with its inclusion proof along a row or
//! a column. `opens` judges one, and `Proved` is the
//! certificate of one that it accepts: only `check` makes it. `PartialTrees` has both calls for many
//! samples under one header, and remembers the digests that these have shown.
//!
//! The two are folders: `square` stands on the code and the layout of squares, `message` on
//! inclusion proofs and headers.
#![tactic(auto)]

mod answers;
mod claims;
mod halves;
mod message;
mod square;

pub use answers::{Found, NsAnswer, NsEntry, ShareList, answer_law};
pub use claims::{FraudClaim, FraudProof, SetNodes, claim_law, claim_laws, is_along};
pub use halves::LeftHalf;
pub use message::{
    CheckRefusal, Message, PartialTrees, Proved, RefusedMessage, are_ascending, check, index,
    made_laws, message_from, message_law, message_laws, message_of, opens, opens_by,
    opens_hashed_by, own_laws, position,
};
pub use square::{
    Grid, Trees, cell_on, grid_laws, header_of, header_of_square, is_root, line_strict_root,
    name_leaves,
};
