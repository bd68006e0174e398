//! What each block changes, the queue of what blocks change, and rows that follow it.
#![tactic(auto)]

mod above;
mod batch;
mod delta;
mod index;
mod kept;
mod laws;
mod queue;

pub use delta::RoundDelta;
pub use kept::{KeptRows, put_row, take_row};
pub use laws::{
    batch_is_tables, creators_go_on, net_is_creators, net_is_rows, queue_is_creators,
    queue_is_rows, rows_go_on,
};
pub use queue::Deltas;
