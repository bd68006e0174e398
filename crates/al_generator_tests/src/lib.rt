//! Tests of `al_generator`, over public calls.
#![tactic(auto)]

#[cfg(test)]
mod genesis;
#[cfg(test)]
mod transactions;
