//! Tests of `al_online`, over public calls.
#![tactic(auto)]

#[cfg(test)]
mod tests;
