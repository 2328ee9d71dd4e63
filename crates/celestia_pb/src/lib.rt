//! Celestia's own messages as values of this project, in their one spelling.
//!
//! One module a message. Its reader takes the canonical bytes of a value alone, and names the offset of the first field that
//! is wrong; its writer makes these bytes. docs/RULES.md, "Celestia's messages", says which.
#![tactic(auto)]

mod aunts;
mod befp;
mod befp_entries;
mod befp_places;
mod befp_put;
mod dah;
mod digests;
mod entries;
mod errors;
mod extended;
mod half_row;
mod ids;
mod inclusions;
mod messages;
mod namespace_data;
mod ods;
mod rooted_row;
mod row_data;
mod row_proof;
mod row_shares;
mod sample;
mod share_lists;
mod share_path;
mod share_proof;

pub use befp::{befp_laws, read_befp};
pub use befp_put::{befp_size, put_befp};
pub use dah::{dah_laws, dah_size, put_dah, read_dah};
pub use errors::PbError;
pub use extended::{Extended, extended_laws, read_extended};
pub use half_row::{HalfRow, Side, half_row_laws, half_row_size, put_half_row, read_half_row};
pub use ids::{
    NAMESPACE_ID_SIZE, SAMPLE_ID_SIZE, id_laws, put_namespace_id, put_sample_id, read_namespace_id,
    read_sample_id,
};
pub use namespace_data::{
    namespace_data_laws, namespace_data_size, put_namespace_data, read_namespace_data,
};
pub use ods::{ods_laws, ods_size, put_ods, read_ods};
pub use row_data::{put_row_data, read_row_data, row_data_laws, row_data_size};
pub use sample::{Sample, put_sample, read_sample, sample_laws, sample_size};
pub use share_proof::{put_share_proof, read_share_proof, share_proof_laws, share_proof_size};
