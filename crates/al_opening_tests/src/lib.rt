//! Tests of `al_opening`, over public calls.
#![tactic(auto)]

#[cfg(test)]
mod opening;
#[cfg(test)]
mod past;
#[cfg(test)]
mod tables;
