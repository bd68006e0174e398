//! Tests of rows and rewards, over public calls.
#![tactic(auto)]

#[cfg(test)]
mod rewards;
#[cfg(test)]
mod rows;
