//! The files of commands by their forms, and outputs of one frame or one text.
//!
//! `forms` has the shapes of files, by which they are judged, `frames` files and outputs that are one frame,
//! `requests` a list of requests for namespaces, `lines` the line of a hash. What is read here the commands of
//! `da_serving`, `da_judging` and `da_following` share.
#![tactic(auto)]

mod files;
mod forms;
mod frames;
mod lines;
mod requests;

pub use files::file;
pub use forms::{header_and_messages, one_block, one_header, one_square, square_and_requests};
pub use frames::{
    BlockOrList, Unread, block_or_list_in, claim_frame, claim_in, clash_frame, give, give_with,
    header_in, in_file, is_long, message_in, missing_frame, put, reason, square_frame, square_in,
};
pub use lines::hash_line;
pub use requests::next_name;
