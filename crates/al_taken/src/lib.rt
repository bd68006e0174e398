//! That each block of a generated chain is taken.
#![tactic(auto)]

mod laws;

pub use laws::generated_is_taken;
