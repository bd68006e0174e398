//! Tests of payments and registrations of keys over changed rows, over public calls.
#![tactic(auto)]

#[cfg(test)]
mod keys;
#[cfg(test)]
mod moves;
#[cfg(test)]
mod online;
