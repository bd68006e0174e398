//! The stake of accounts that are online.
ghost use Rattle.std.specs.Prelude.{◌≡◌};
ghost use Rattle.al_online.specs.Memory.{capped_stake};
ghost use Rattle.al_online.specs.Stakes.{is_expired, stake_of, told, voting_in};
ghost use Rattle.al_online.specs.Search.{voting_stake};
ghost use Rattle.al_rewards.specs.Totals.{capped};

use al_base::{Address, OnlineData, Status};
use al_rewards::{Share, pending};

/// What consensus knows of an account after a round.
#[derive(Clone, Copy, Debug, PartialEq, Eq)]
pub struct Stake {
    /// Its balance with its pending rewards, in microAlgos.
    pub stake: u64,
    /// The first round that its keys vote in.
    pub first: u64,
    /// The last round that its keys vote in.
    pub last: u64,
    /// The dilution of its keys.
    pub dilution: u64,
}

/// What consensus knows of a round.
#[derive(Clone, Copy, Debug, PartialEq, Eq)]
pub struct RoundParams {
    /// The reward level.
    pub level: u64,
    /// The stake of all accounts that are online, in microAlgos.
    pub online: u64,
}

impl Stake {
    /// The stake of an account whose data are these, with the rewards that are pending at a level.
    pub fn of(known: &OnlineData, level: u64) -> Stake
        ensures { result ≡ capped_stake (told level known.now) }
    {
        Stake {
            stake: stake_of(known, level),
            first: known.first,
            last: known.last,
            dilution: known.dilution,
        }
    }
}

// A balance with the rewards that are pending at a level, at most 2^64 - 1.
fn stake_of(known: &OnlineData, level: u64) -> u64
    ensures { result ≡ capped (stake_of level known.now) }
{
    let share = Share {
        status: Status::Online,
        balance: known.balance,
        base: known.base,
    };
    known.balance.saturating_add(pending(&share, level))
}

// Whether the keys are for rounds that all lie before the vote's.
fn is_expired(known: &OnlineData, vote: u64) -> bool
    ensures { result ≡ is_expired vote known.now }
{
    0 < known.last && known.last < vote
}

// The stake with which an account may take part in a vote, at most 2^64 - 1.
fn voting_stake(known: &OnlineData, level: u64, vote: u64) -> u64
    ensures { result ≡ capped (voting_stake level vote known.now) }
{
    if is_expired(known, vote) {
        0
    } else {
        stake_of(known, level)
    }
}

/// The stake with which accounts may take part in a vote, at most 2^64 - 1.
pub fn voting(online: &[(Address, OnlineData)], level: u64, vote: u64) -> u64
    ensures { result ≡ capped (voting_in level vote online.now) }
{
    let mut sum: u64 = 0;
    for (_, known) in online {
        sum = sum.saturating_add(voting_stake(known, level, vote));
    }
    sum
}
