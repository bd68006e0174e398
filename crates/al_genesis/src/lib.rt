//! The genesis of a chain: its record, and what makes it a good one.
#![tactic(auto)]

mod genesis;
mod genesis_checks;
mod genesis_fields;
mod genesis_record;

pub use genesis::{Genesis, GenesisFault, GenesisRow, GenesisRows};
