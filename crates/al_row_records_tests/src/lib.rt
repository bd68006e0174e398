//! Tests of the records of rows. They stand in a crate of their own, since a crate with tests is
//! proved twice.
#![tactic(auto)]

#[cfg(test)]
mod elements;
#[cfg(test)]
mod keys;
#[cfg(test)]
mod rows;
