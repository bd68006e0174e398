//! Requests of a connection's bytes.
#![tactic(auto)]

mod asking;
mod fields;
mod head;
mod laws;

pub use asking::SizeFault;
pub use fields::Named;
pub use head::{BodySize, Head, HeadRead, MOST_BODY, MOST_FIELDS, MOST_HEAD, read_head};
pub use laws::{cuts_agree, nothing_left, one_cut, one_request, unfinished_is_not_refused};
