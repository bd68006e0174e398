//! Tests of assets over whole blocks, by public calls.
#![tactic(auto)]

#[cfg(test)]
mod assets;
#[cfg(test)]
mod world;
