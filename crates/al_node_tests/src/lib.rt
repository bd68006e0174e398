//! Tests of requests, answers, connections and commands, over public calls.
#![tactic(auto)]

#[cfg(test)]
mod bytes;
#[cfg(test)]
mod chains;
#[cfg(test)]
mod common;
#[cfg(test)]
mod endings;
#[cfg(test)]
mod generated;
#[cfg(test)]
mod lookback;
#[cfg(test)]
mod payments;
#[cfg(test)]
mod rewards;
#[cfg(test)]
mod routes;
