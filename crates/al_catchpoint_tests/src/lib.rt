//! Tests of catchpoints, over public calls.
#![tactic(auto)]

#[cfg(test)]
mod chain;
#[cfg(test)]
mod endings;
#[cfg(test)]
mod files;
