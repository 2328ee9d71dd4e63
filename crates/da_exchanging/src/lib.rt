//! What the commands `import` and `export` of `da` answer over the contents of their files: frames of what Celestia's own
//! bytes are, and these bytes of what frames are.
//!
//! A form is a file of its own here and in `specs/`: its bytes as they are imported, and the frame of it as it is
//! exported. `forms` has all of them. The output is made whole before it is written (`made`).
#![tactic(auto)]

mod answers;
mod befp;
mod dah;
mod forms;
mod header;
mod ids;
mod laws;
mod left_half;
mod made;
mod namespace_data;
mod ods;
mod row;
mod row_data;
mod sample;
mod share_proof;

pub use da_words::{ExportForm, ImportForm};
pub use forms::{export, import};
pub use laws::exchange_laws;
