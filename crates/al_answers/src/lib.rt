//! The answers of the interface, and their bytes.
#![tactic(auto)]

mod account;
mod answer;
mod bodies;
mod objects;
mod refusing;
mod resources;
mod texts;

pub use answer::{Answer, ErrorName, More};
pub use texts::{
    answer_bytes, bad_head_text, bad_length_text, coding_text, memory_text, too_large_text,
};
