//! One connection over the states of a ledger, and the command that serves it and writes catchpoints.
#![tactic(auto)]

mod catching;
mod command;
mod cuts;
mod generation;
mod inbox;
mod input;
mod laws;
mod link;
mod saying;
mod words;
mod working;

pub use command::{Status, enter, run};
pub use cuts::served_is_cut;
pub use laws::one_reply;
pub use link::{Caller, Ended, serve_link};
pub use words::Words;
