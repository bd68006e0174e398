//! What look-ups give.
use al_base::{Address, Hash};
use al_online::Stake;
use al_rewards::Totals;
use al_rows::Row;

/// How many rounds behind the front consensus may still ask for.
pub(crate) const LOOKBACK: u64 = 320;

/// A row after a round.
#[derive(Clone, Copy)]
pub struct RowAnswer<'a> {
    /// How many blocks are held.
    pub front: u64,
    /// The round.
    pub round: u64,
    /// The reward level after it.
    pub level: u64,
    /// The row under the key, if there is one.
    pub row: Option<&'a Row>,
}

/// The creator of an asset or an application after a round.
#[derive(Clone, Copy, Debug, PartialEq, Eq)]
pub struct CreatorAnswer {
    /// How many blocks are held.
    pub front: u64,
    /// The round.
    pub round: u64,
    /// The creator, if there is such an asset or application.
    pub address: Option<Address>,
}

/// The money of all accounts after a round.
#[derive(Clone, Copy, Debug, PartialEq, Eq)]
pub struct SupplyAnswer {
    /// How many blocks are held.
    pub front: u64,
    /// The round.
    pub round: u64,
    /// The money, in microAlgos, and the units.
    pub totals: Totals,
}

/// The stake of an account after a round.
#[derive(Clone, Copy, Debug, PartialEq, Eq)]
pub struct StakeAnswer {
    /// How many blocks are held.
    pub front: u64,
    /// The round.
    pub round: u64,
    /// The stake, in microAlgos, with the rounds of its keys; none where it was not online.
    pub stake: Option<Stake>,
}

/// The stake after a round that may take part in the vote of another.
#[derive(Clone, Copy, Debug, PartialEq, Eq)]
pub struct CirculationAnswer {
    /// How many blocks are held.
    pub front: u64,
    /// The round.
    pub round: u64,
    /// The round of the vote.
    pub vote: u64,
    /// In microAlgos.
    pub money: u64,
}

/// What the ledger holds.
#[derive(Clone, Copy, Debug, PartialEq, Eq)]
pub struct StatusAnswer {
    /// How many blocks are held.
    pub front: u64,
    /// The first round that is shown.
    pub floor: u64,
    /// The hash of the last block's header.
    pub hash: Hash,
}

/// Why nothing is shown.
#[derive(Clone, Copy, Debug, PartialEq, Eq)]
pub enum LookRefusal {
    /// The round is above the front, which is this one.
    TooNew { front: u64 },
    /// The round lies more than 320 rounds behind the front, which is this one.
    BelowLookback { front: u64 },
    /// There is no memory.
    Memory,
}
