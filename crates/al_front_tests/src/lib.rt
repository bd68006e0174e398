//! Tests of `al_front`: worked cases, and threads that use one front at once.
#![tactic(auto)]

#[cfg(test)]
mod tests;
