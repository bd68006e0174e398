//! A chain that is made by rule: its genesis, and the transactions of each of its blocks.
//!
//! [`Generator`] draws numbers by a linear congruence and turns them into payments, assets, key
//! registrations, and one application with its boxes. [`generated_genesis`] is the genesis of every
//! such chain.
#![tactic(auto)]

mod bodies;
mod generator;
mod genesis;
mod items;
mod laws;
mod progress;
mod turns;

pub use generator::Generator;
pub use genesis::generated_genesis;
pub use laws::{draws_fit, genesis_is_good};
