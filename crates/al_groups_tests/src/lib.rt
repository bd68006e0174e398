//! Tests of groups in a block, over public calls.
#![tactic(auto)]

#[cfg(test)]
mod groups;
