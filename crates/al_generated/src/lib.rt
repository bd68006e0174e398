//! The chain that the generator of a number makes, its catchpoints, and its summary.
#![tactic(auto)]

mod chain;
mod points;
mod summary;

pub use chain::{GenerateRefusal, generate};
