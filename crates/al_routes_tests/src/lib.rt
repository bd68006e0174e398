//! Tests of what methods and targets ask, by public calls.
#![tactic(auto)]

#[cfg(test)]
mod answers;
#[cfg(test)]
mod values;
