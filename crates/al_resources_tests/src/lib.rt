//! Tests of what calls of applications make of rows, by public calls.
#![tactic(auto)]

#[cfg(test)]
mod calls;
#[cfg(test)]
mod effects;
#[cfg(test)]
mod rows;
