//! Tests of the step of a block, over public calls.
#![tactic(auto)]

#[cfg(test)]
mod eval;
#[cfg(test)]
mod genesis;
#[cfg(test)]
mod tail;
