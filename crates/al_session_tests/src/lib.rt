//! Tests of one connection, over public calls.
#![tactic(auto)]

#[cfg(test)]
mod endless;
