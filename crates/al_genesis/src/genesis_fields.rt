//! The fields of a genesis record.
ghost use Rattle.std.specs.Prelude.{◌≤◌, ◌^◌};

use al_base::{Address, Bytes, Hash};
use sqlite_items::Items;

/// The row of an account as a genesis record gives it.
#[derive(Clone, Copy, Debug, PartialEq, Eq)]
pub struct FirstRow {
    /// 0 for offline, 1 for online, 2 for an account that does not participate.
    pub status: u64,
    /// In microAlgos.
    pub balance: u64,
    pub vote: Hash,
    pub selection: Hash,
    pub sprf: [u8; 64],
    pub first: u64,
    pub last: u64,
    pub dilution: u64,
}

/// An account as a genesis record gives it.
#[derive(Clone, Copy, Debug, PartialEq, Eq)]
pub struct FirstAccount {
    pub address: Address,
    pub row: FirstRow,
}

/// The fields of a genesis record.
#[derive(Debug, Drop)]
pub struct GenesisRecord {
    pub accounts: Items<FirstAccount>,
    /// Rounds between catchpoints; 0 for none.
    pub catch_interval: u64,
    pub sink: Address,
    /// The chain's name.
    pub id: Bytes,
    /// Rounds that a reward rate stays for; 0 for the usual 500,000.
    pub interval: u64,
    pub pool: Address,
    /// The time of the start, in seconds.
    pub ts: u64,
    ghost catch_interval_most: { catch_interval ≤ 2 ^ 62 },
    ghost interval_most: { interval ≤ 2 ^ 62 },
}
