//! Tests of `al_history`, over public calls.
#![tactic(auto)]

#[cfg(test)]
mod tests;
