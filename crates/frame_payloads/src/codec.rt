//! Fields of a payload: measured, appended; lists of values.

pub(crate) mod appending;
pub(crate) mod items;
pub(crate) mod outs;
pub(crate) mod sizes;
pub(crate) mod writing;
