//! What consensus knows of accounts that are online, and its history.
use crate::{Address, Hash};
use sqlite_items::Items;

/// What consensus knows of an account that is online.
#[derive(Clone, Copy, Debug, PartialEq, Eq)]
pub struct OnlineData {
    /// The balance in microAlgos.
    pub balance: u64,
    /// The reward level up to which its rewards are in the balance.
    pub base: u64,
    /// The first round that its keys vote in.
    pub first: u64,
    /// The last round that its keys vote in.
    pub last: u64,
    /// The dilution of its keys.
    pub dilution: u64,
    /// The voting key.
    pub vote: Hash,
    /// The selection key.
    pub selection: Hash,
}

/// What an account is after a block: its data, or that it is not online.
#[derive(Clone, Copy, Debug, PartialEq, Eq)]
pub struct OnlineChange {
    pub address: Address,
    pub now: Option<OnlineData>,
}

/// What an account was after a round: its data, or that it was not online.
#[derive(Clone, Copy, Debug, PartialEq, Eq)]
pub struct Version {
    pub address: Address,
    pub round: u64,
    pub now: Option<OnlineData>,
}

/// The reward level of a round.
#[derive(Clone, Copy, Debug, PartialEq, Eq)]
pub struct LevelAt {
    pub round: u64,
    pub level: u64,
}

/// A list of changes of accounts.
pub type OnlineChanges = Items<OnlineChange>;

/// A list of versions of accounts.
pub type History = Items<Version>;

/// A list of levels.
pub type Levels = Items<LevelAt>;
