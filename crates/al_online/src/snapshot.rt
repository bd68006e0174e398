//! The accounts that were online after a round.
ghost use Rattle.std.specs.Prelude.{◌≡◌, IfOk, option_map};
ghost use Rattle.al_online.specs.Memory.{capped_stake, params_of};
ghost use Rattle.al_online.specs.Stakes.{circulation_at, first_snap, next_snap, stake_at};
ghost use Rattle.al_rewards.specs.Totals.{capped};

use crate::search::{data_of, put_accounts};
use crate::stake::voting;
use crate::{RoundParams, Stake};
use al_base::{Address, OnlineChange, OnlineData};
use std::alloc::{AllocError, Global};
use std::marker::Model;

/// The reward level of a round, and the accounts that were online after it.
#[derive(Drop)]
pub struct Snapshot {
    level: u64,
    /// In the order of their addresses.
    online: Vec<(Address, OnlineData)>,
}

impl Model for Snapshot {
    ghost use Rattle.std.specs.Coded.{codes};
    ghost use Rattle.std.specs.FinMap.{from_sorted};
    ghost use Rattle.std.specs.FinMap as map;
    ghost use Rattle.al_base.specs.Keys.{address_cmp};
    ghost use Rattle.al_base.specs.contracts.address.Address as address;
    ghost use Rattle.al_base.specs.contracts.online.OnlineData as data_row;
    ghost use Rattle.al_online.specs.Search.{AreInOrder};
    ghost use Rattle.al_online.specs.Stakes.{Snap};

    ghost Value = { Snap };

    ghost coded = { Prim.hlevel (codes, map.code {R = address_cmp} address.the_row.coded data_row.the_row.coded) };

    ghost view = { λ s. record { level = s.level; online = from_sorted s.online.items } };

    ghost invariant = { λ s. AreInOrder s.online.items };
}

impl Snapshot {
    /// A round of a level, after which just these accounts are online. Errors: no memory.
    pub fn first(alloc: Global, level: u64, start: &[OnlineChange]) -> Result<Snapshot, AllocError>
        ensures { IfOk result (λ s. s ≡ first_snap level start.now) }
    {
        let mut online = Vec::new(alloc);
        put_accounts(&mut online, start)?;
        Ok(Snapshot { level, online })
    }

    /// The round that follows, by its level and its changes. Errors: no memory.
    pub fn next(
        &self,
        alloc: Global,
        level: u64,
        changes: &[OnlineChange],
    ) -> Result<Snapshot, AllocError>
        ensures { IfOk result (λ s. s ≡ next_snap level changes.now self.now) }
    {
        let mut online = Vec::from_slice(alloc, &self.online)?;
        put_accounts(&mut online, changes)?;
        Ok(Snapshot { level, online })
    }

    /// An account, or that it was not online.
    pub fn at(&self, who: &Address) -> Option<Stake>
        ensures { result ≡ option_map capped_stake (stake_at self.now who.now) }
    {
        let known = data_of(&self.online, who)?;
        Some(Stake::of(known, self.level))
    }

    /// The level, and the stake of all accounts. No keys are expired in round 0.
    pub fn params(&self) -> RoundParams
        ensures { result ≡ params_of self.now }
    {
        RoundParams {
            level: self.level,
            online: voting(&self.online, self.level, 0),
        }
    }

    /// The stake of the accounts whose keys are not expired in the round of a vote.
    pub fn circulation(&self, vote: u64) -> u64
        ensures { result ≡ capped (circulation_at self.now vote) }
    {
        voting(&self.online, self.level, vote)
    }
}
