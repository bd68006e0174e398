//! What consensus asks of the last rounds: the stake of each account that was online after a round,
//! and how much of all stake may take part in a vote.
//!
//! [`OnlineMemory`] keeps the rounds from a base on. Each is pushed by what it changes, the last
//! can be taken back, and those that nobody asks for any more are pruned.
#![tactic(auto)]

mod laws;
mod memory;
mod search;
mod snapshot;
mod stake;

pub use laws::memory_shows;
pub use memory::OnlineMemory;
pub use stake::{RoundParams, Stake};
