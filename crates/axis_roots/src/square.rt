//! Extended data squares, their extension and their headers.

mod extending;
mod filling;
mod grids;
mod laws;
mod leaves;
mod lines;
mod quarters;
mod rooting;
mod trees;

pub(crate) use filling::fill_axis;
pub use grids::Grid;
pub use laws::grid_laws;
pub(crate) use leaves::read_leaves;
pub use lines::{cell_on, is_root, line_strict_root, name_leaves};
pub use quarters::header_of_square;
pub(crate) use quarters::{quarter_and_leaves, share_of};
pub use rooting::header_of;
pub(crate) use rooting::header_over;
pub use trees::Trees;
