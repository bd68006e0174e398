//! What look-ups give.
use al_base::{Address, Hash};
use al_online::Stake;
use al_rewards::Totals;
use al_rows::Row;

/// How many rounds behind the front consensus may still ask for.
pub(crate) const LOOKBACK: u64 = 320;

/// A row after a round.
#[derive(Debug, Drop)]
pub struct RowAnswer {
    /// The last round.
    pub front: u64,
    /// The round.
    pub round: u64,
    /// The reward level after it.
    pub level: u64,
    /// The row under the key, if there is one.
    pub row: Option<Row>,
}

/// The creator of an asset or an application after a round.
#[derive(Clone, Copy, Debug, PartialEq, Eq)]
pub struct CreatorAnswer {
    /// The last round.
    pub front: u64,
    /// The round.
    pub round: u64,
    /// The creator, if there is such an asset or application.
    pub address: Option<Address>,
}

/// The money of all accounts after a round.
#[derive(Clone, Copy, Debug, PartialEq, Eq)]
pub struct SupplyAnswer {
    /// The last round.
    pub front: u64,
    /// The round.
    pub round: u64,
    /// The money, in microAlgos, and the units.
    pub totals: Totals,
}

/// The stake of an account after a round.
#[derive(Clone, Copy, Debug, PartialEq, Eq)]
pub struct StakeAnswer {
    /// The last round.
    pub front: u64,
    /// The round.
    pub round: u64,
    /// The stake, in microAlgos, with the rounds of its keys; none where it was not online.
    pub stake: Option<Stake>,
}

/// The stake after a round that may take part in the vote of another.
#[derive(Clone, Copy, Debug, PartialEq, Eq)]
pub struct CirculationAnswer {
    /// The last round.
    pub front: u64,
    /// The round.
    pub round: u64,
    /// The round of the vote.
    pub vote: u64,
    /// In microAlgos.
    pub money: u64,
}

/// What the ledger holds.
#[derive(Clone, Copy, Debug, PartialEq, Eq)]
pub struct StatusAnswer {
    /// The last round.
    pub front: u64,
    /// The first round whose rows are shown, that of the tables.
    pub floor: u64,
    /// The hash of the last block's header.
    pub hash: Hash,
}

/// Why nothing is shown, over the faults of the keeper of the tables.
#[derive(Drop)]
pub enum LookRefusal<F> {
    /// The round is above the front, which is this one.
    TooNew { front: u64 },
    /// A round is asked for that lies below the tables', which is the floor.
    BelowFloor { floor: u64, front: u64 },
    /// The round lies more than 320 rounds behind the front, which is this one.
    BelowLookback { front: u64 },
    /// The keeper of the tables has failed.
    Keeper { fault: F, front: u64 },
    /// There is no memory.
    Memory,
}
