//! Tests of tables and blocks in databases in memory. They stand in a crate of their own, since a
//! crate with tests is proved twice.
#![tactic(auto)]

#[cfg(test)]
mod blocks;
#[cfg(test)]
mod commits;
#[cfg(test)]
mod making;
#[cfg(test)]
mod showing;
#[cfg(test)]
mod wrong;
