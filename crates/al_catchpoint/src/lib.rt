//! Catchpoints of the states of a ledger, and files of blocks.
#![tactic(auto)]

mod applying;
mod elements;
mod pieces;
mod standing;
mod writing;

pub use applying::{ApplyStop, apply_until};
pub use standing::StatesAt;
pub use writing::{WriteFault, write_rows, write_tip};
