//! Tests of `al_keeper`, over public calls.
#![tactic(auto)]

#[cfg(test)]
mod blocks;
#[cfg(test)]
mod counted;
#[cfg(test)]
mod making;
#[cfg(test)]
mod planned;
#[cfg(test)]
mod tables;
