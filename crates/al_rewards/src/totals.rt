//! The money and the units of all accounts.
ghost use Rattle.std.specs.Prelude.{◌≡◌, ◌-◌, ◌^◌, Some, min};
ghost use Rattle.std.specs.Option.{option_copied};
ghost use Rattle.al_rewards.specs.declared.totals.Totals.{Totals};
ghost use Rattle.al_rewards.specs.Totals.{AreTotals, all_units, and_share, capped_count, capped_totals, count_of, earn, minus, no_totals, plus, raised, without_share};

use crate::share::REWARD_UNIT;
use crate::{Share, pending};
use al_base::Status;

/// What accounts of one status have together.
#[derive(Clone, Copy, Debug, PartialEq, Eq)]
pub struct Count {
    /// Their balances with their pending rewards, in microAlgos.
    pub money: u64,
    /// Their units: the whole Algos of each balance.
    pub units: u64,
}

/// What all accounts have together, by their status.
#[derive(Clone, Copy, Debug, PartialEq, Eq)]
pub struct Totals {
    /// The reward level at which pending rewards are counted.
    pub level: u64,
    /// The accounts that are online.
    pub online: Count,
    /// The accounts that are offline.
    pub offline: Count,
    /// The accounts that do not participate: they earn nothing.
    pub apart: Count,
}

impl Count {
    // With an account more, counted at a level.
    #[tactic(auto, unfolding(crate::specs::Totals::count_of))]
    fn with(self, level: u64, share: &Share) -> Count
        ensures { result ≡ capped_count (plus self (count_of level share.now)) }
    {
        let money = share.balance.saturating_add(pending(share, level));
        Count {
            money: self.money.saturating_add(money),
            units: self.units.saturating_add(share.balance / REWARD_UNIT),
        }
    }

    // With an account less, counted at a level.
    #[tactic(auto, unfolding(crate::specs::Totals::count_of))]
    fn without(self, level: u64, share: &Share) -> Count
        ensures { result ≡ minus self (count_of level share.now) }
    {
        let money = share.balance.saturating_add(pending(share, level));
        Count {
            money: self.money.saturating_sub(money),
            units: self.units.saturating_sub(share.balance / REWARD_UNIT),
        }
    }

    // The same accounts at a level that is higher by this.
    fn earn(self, rise: u64) -> Count
        ensures { result ≡ capped_count (earn rise self) }
    {
        Count {
            money: self.money.saturating_add(self.units.saturating_mul(rise)),
            units: self.units,
        }
    }
}

impl Totals {
    /// The totals of no accounts, at a level.
    pub fn new(level: u64) -> Totals
        ensures { result ≡ no_totals level }
    {
        let none = Count { money: 0, units: 0 };
        Totals {
            level,
            online: none,
            offline: none,
            apart: none,
        }
    }

    /// The units of all accounts that earn, at most 2^64 - 1.
    pub fn units(&self) -> u64
        ensures { result ≡ min (all_units self.now) (2 ^ 64 - 1) }
    {
        self.online.units.saturating_add(self.offline.units)
    }

    /// Counts the pending rewards at another level: by the Algorand ledger specification each unit
    /// of those that earn has the rise of the level more, in microAlgos. At a lower level the money
    /// stays. Each number stops at 2^64 - 1.
    pub fn raise(&mut self, level: u64)
        ensures value { self.new ≡ capped_totals (raised level self.old) }
        ensures exact { AreTotals (raised level self.old) → self.new ≡ raised level self.old }
    {
        *self = self.raised(level);
    }

    /// Counts what an account has become in place of what it was, at the level of these totals.
    /// `old` is none where there was no account, and `new` where there is none now. Each number
    /// stops at 0 and at 2^64 - 1; it does not come to that where the old share is among those
    /// that were counted, and the totals with the new one are of 64 bits.
    pub fn change(&mut self, old: Option<&Share>, new: Option<&Share>)
        ensures value { self.new ≡ capped_totals (and_share (without_share self.old (option_copied old.entry)) (option_copied new.entry)) }
        ensures exact { (rest : Totals) → self.old ≡ and_share rest (option_copied old.entry) → AreTotals (and_share rest (option_copied new.entry)) → self.new ≡ and_share rest (option_copied new.entry) }
    {
        *self = self.without(old).with(new);
    }

    // The totals at another level.
    fn raised(self, level: u64) -> Totals
        ensures { result ≡ capped_totals (raised level self) }
    {
        let rise = level.saturating_sub(self.level);
        Totals {
            level,
            online: self.online.earn(rise),
            offline: self.offline.earn(rise),
            apart: self.apart,
        }
    }

    // The totals with an account less, or none.
    fn without(self, old: Option<&Share>) -> Totals
        ensures { result ≡ without_share self (option_copied old.entry) }
    {
        let Some(share) = old else {
            return self;
        };
        match share.status {
            Status::Online => Totals {
                online: self.online.without(self.level, share),
                ..self
            },
            Status::Offline => Totals {
                offline: self.offline.without(self.level, share),
                ..self
            },
            Status::NotParticipating => Totals {
                apart: self.apart.without(self.level, share),
                ..self
            },
        }
    }

    // The totals with an account more, or none.
    fn with(self, new: Option<&Share>) -> Totals
        ensures { result ≡ capped_totals (and_share self (option_copied new.entry)) }
    {
        let Some(share) = new else {
            return self;
        };
        match share.status {
            Status::Online => Totals {
                online: self.online.with(self.level, share),
                ..self
            },
            Status::Offline => Totals {
                offline: self.offline.with(self.level, share),
                ..self
            },
            Status::NotParticipating => Totals {
                apart: self.apart.with(self.level, share),
                ..self
            },
        }
    }
}
