//! The rounds that consensus may ask for.
ghost use Rattle.std.specs.Prelude.{◌≡◌, ◌∷◌, ◌<◌, ◌≤◌, [], ℕ, List, suc, Some, IfOk, OnOk, OnErr, option_map};
ghost use Rattle.al_base.specs.declared.online.OnlineChange.{OnlineChange};
ghost use Rattle.al_online.specs.Memory.{IsEachOnce, Memory, and_round, capped_stake, from_round, params_of, snap_at, top, without_last};
ghost use Rattle.al_online.specs.Stakes.{circulation_at, first_snap, stake_at};
ghost use Rattle.al_rewards.specs.Totals.{capped};

use crate::snapshot::Snapshot;
use crate::{RoundParams, Stake};
use al_base::{Address, OnlineChanges};
use std::alloc::{AllocError, Global};
use std::marker::Model;

/// The accounts that were online after each round from a base to the last one, with their stakes.
/// Stakes are in microAlgos; they and their sums stop at 2^64 - 1, which no sound state comes to.
#[derive(Drop)]
pub struct OnlineMemory {
    alloc: Global,
    base: u64,
    rounds: Vec<Snapshot>,
}

impl Model for OnlineMemory {
    ghost use Rattle.std.specs.Prelude.{◌<◌, ◌≤◌, ◌+◌, ◌^◌, length};
    ghost use Rattle.std.specs.Coded.{codes};
    ghost use Rattle.al_online.specs.contracts.snapshot.Snapshot as snapshot;
    ghost use Rattle.al_online.specs.Memory.{Memory};

    ghost Value = { Memory };

    ghost coded = { Prim.hlevel (codes, snapshot.the_row.coded) };

    ghost view = { λ m. record { base = m.base; snaps = m.rounds.items } };

    ghost invariant = { λ m. (0 < length m.rounds.items) × (m.base + length m.rounds.items ≤ 2 ^ 64) };
}

impl OnlineMemory {
    /// The base alone, with its level and the accounts that are online after it; `start` names each
    /// account once. Errors: no memory.
    pub fn new(
        alloc: Global,
        base: u64,
        level: u64,
        start: &OnlineChanges,
    ) -> Result<OnlineMemory, AllocError>
        requires { IsEachOnce start.now }
        ensures { IfOk result (λ m. m ≡ record { base = base; snaps = first_snap level start.now ∷ [] }) }
    {
        let mut rounds = Vec::new(alloc);
        rounds.push(Snapshot::first(alloc, level, start.as_slice())?)?;
        Ok(OnlineMemory {
            alloc,
            base,
            rounds,
        })
    }

    /// The first round that is kept.
    pub fn base(&self) -> u64
        ensures { result ≡ self.now.base }
    {
        self.base
    }

    /// The last round.
    pub fn top(&self) -> u64
        ensures value { result ≡ top self.now }
        ensures from { self.now.base ≤ result }
    {
        self.base + (self.rounds.len() - 1) as u64
    }

    /// Adds the next round, by its level and by what the accounts that it changes have become; each
    /// is named once. Errors: no memory, and all is as before.
    pub fn push(
        &mut self,
        round: u64,
        level: u64,
        changes: &OnlineChanges,
    ) -> Result<(), AllocError>
        requires next { round ≡ suc (top self.old) }
        requires once { IsEachOnce changes.now }
        ensures ok { OnOk result (self.new ≡ and_round level changes.now self.old) }
        ensures top { OnOk result (top self.new ≡ round) }
        ensures err { OnErr result (self.new ≡ self.old) }
    {
        let last = &self.rounds[self.rounds.len() - 1];
        let next = last.next(self.alloc, level, changes.as_slice())?;
        self.rounds.push(next)?;
        Ok(())
    }

    /// Takes the last round back, so that all is as before it was pushed. It takes no memory.
    pub fn take_back(&mut self)
        requires { self.old.base < top self.old }
        ensures value { self.new ≡ without_last self.old }
        ensures back { (m : Memory) (level : ℕ) (cs : List OnlineChange) → self.old ≡ and_round level cs m → self.new ≡ m }
    {
        self.rounds.pop();
    }

    /// An account after a round, or that it was not online. It takes no memory.
    pub fn at(&self, who: &Address, round: u64) -> Option<Stake>
        requires from { self.now.base ≤ round }
        requires top { round ≤ top self.now }
        ensures { Some result ≡ option_map (λ s. option_map capped_stake (stake_at s who.now)) (snap_at self.now round) }
    {
        self.snapshot(round).at(who)
    }

    /// The level of a round, and the stake of all accounts after it. It takes no memory.
    pub fn params(&self, round: u64) -> RoundParams
        requires from { self.now.base ≤ round }
        requires top { round ≤ top self.now }
        ensures { Some result ≡ option_map params_of (snap_at self.now round) }
    {
        self.snapshot(round).params()
    }

    /// The stake after a round that may take part in the vote of another: that of all accounts, but
    /// of those whose last round is not 0 and lies before the vote's. It takes no memory.
    pub fn circulation(&self, round: u64, vote: u64) -> u64
        requires from { self.now.base ≤ round }
        requires top { round ≤ top self.now }
        ensures { Some result ≡ option_map (λ s. capped (circulation_at s vote)) (snap_at self.now round) }
    {
        self.snapshot(round).circulation(vote)
    }

    /// Forgets the rounds below one, which becomes the base. It takes no memory.
    pub fn prune(&mut self, from: u64)
        requires from { self.old.base ≤ from }
        requires top { from ≤ top self.old }
        ensures value { self.new ≡ from_round from self.old }
        ensures top { top self.new ≡ top self.old }
        ensures stays { (round : ℕ) → from ≤ round → snap_at self.new round ≡ snap_at self.old round }
    {
        let count = (from - self.base) as usize;
        drop(self.rounds.drain(..count));
        self.base = from;
    }

    // A round that is kept.
    fn snapshot(&self, round: u64) -> &Snapshot
        requires from { self.now.base ≤ round }
        requires top { round ≤ top self.now }
        ensures { snap_at self.now round ≡ Some result.now }
    {
        &self.rounds[(round - self.base) as usize]
    }
}
