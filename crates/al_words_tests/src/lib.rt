//! Tests of `al_words`, over public calls.
#![tactic(auto)]

#[cfg(test)]
mod tests;
