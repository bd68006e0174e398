//! What tables of a round hold, and what one commit changes of them.
#![tactic(auto)]

mod batch;

pub use batch::{Batch, BatchRow, BatchRows};
