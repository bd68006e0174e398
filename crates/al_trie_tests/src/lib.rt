//! Tests of `al_trie`, over public calls.
#![tactic(auto)]

#[cfg(test)]
mod tests;
