//! The transactions that may stand in a chain no second time: what is kept of each, in order, with
//! look-ups by id and by lease.
#![tactic(auto)]

mod latest;
mod tail;

pub use tail::{Entry, Tail, entries_with};
