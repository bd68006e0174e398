//! Tests of heads, by public calls.
#![tactic(auto)]

#[cfg(test)]
mod asking;
#[cfg(test)]
mod common;
#[cfg(test)]
mod fields;
#[cfg(test)]
mod reading;
