//! What accounts were to consensus in the last rounds, as tables keep it: read back into what
//! consensus asks.
#![tactic(auto)]

mod laws;
mod once;
mod read;

pub use laws::{history_begins, history_grows, history_is_pruned, history_shrinks};
pub use read::memory_of;
