//! An account's share of the rewards.
ghost use Rattle.std.specs.Prelude.{◌≡◌, ◌≤◌};
ghost use Rattle.al_rewards.specs.Pending.{pending};
ghost use Rattle.al_rows.specs.Limits.{max_balance};

use al_base::Status;
use al_rows::MAX_BALANCE;

/// A unit, in microAlgos: one Algo.
pub const REWARD_UNIT: u64 = 1_000_000;

/// What the rewards of an account depend on.
#[derive(Clone, Copy, Debug, PartialEq, Eq)]
pub struct Share {
    /// Whether it earns at all: an account that does not participate earns nothing.
    pub status: Status,
    /// The balance in microAlgos. Each million of it is a unit.
    pub balance: u64,
    /// The reward level up to which its rewards are in the balance.
    pub base: u64,
}

/// The rewards, in microAlgos, that an account has earned at this level and not yet been given.
/// They follow the Algorand ledger specification: the units times the rise of the level, at most
/// what a balance may be.
#[tactic(auto, unfolding(crate::specs::Pending::pending))]
pub fn pending(share: &Share, level: u64) -> u64
    ensures value { result ≡ pending level share.now }
    ensures most { result ≤ max_balance }
{
    if share.status == Status::NotParticipating || share.base >= level {
        return 0;
    }
    (share.balance / REWARD_UNIT)
        .saturating_mul(level - share.base)
        .min(MAX_BALANCE)
}
