//! The rewards that the pool pays.
ghost use Rattle.std.specs.Prelude.{◌≡◌, ◌≤◌, ◌<◌, ◌^◌, ◌+◌, Some, None, if◌then◌else◌};
ghost use Rattle.al_rewards.specs.Next.{fund, given, next_rewards, rate_due, recalc_due};

/// What the pool keeps, in microAlgos: the least balance of an account.
const LEAST_POOL: u64 = 100_000;

/// What the headers of a chain say of rewards.
#[derive(Clone, Copy, Debug, PartialEq, Eq)]
pub struct RewardsState {
    /// The reward level: microAlgos that a unit has earned since the genesis.
    pub level: u64,
    /// The reward rate: microAlgos of a round for all units.
    pub rate: u64,
    /// What is left over of earlier rates, in microAlgos.
    pub residue: u64,
    /// The round at which the rate is computed anew.
    pub recalc: u64,
}

impl RewardsState {
    /// The rewards of a round that follows these, by the Algorand ledger specification.
    ///
    /// At the round `recalc` the rate becomes what the pool has above 100,000 microAlgos and the
    /// residue, spread over `interval` rounds, and the next such round is `interval` rounds later.
    /// Then the rate and the residue are shared by the units, which are whole Algos: the level
    /// rises by the whole microAlgos of each, and the rest is the new residue. Level and residue
    /// stay where there are no units, and where a sum would pass 2^64 - 1.
    ///
    /// `pool` is the balance of the rewards pool in microAlgos, and `units` those of all accounts
    /// that earn, both before the round.
    #[tactic(auto, unfolding(crate::specs::Next::next_rewards))]
    pub fn next(&self, round: u64, interval: u64, pool: u64, units: u64) -> RewardsState
        requires round { round ≤ 2 ^ 62 }
        requires some_rounds { 0 < interval }
        requires interval { interval ≤ 2 ^ 62 }
        ensures { result ≡ next_rewards self.now round interval pool units }
    {
        let rate = self.rate_due(round, interval, pool);
        let recalc = self.recalc_due(round, interval);
        match given(self.level, rate, self.residue, units) {
            Some((level, residue)) => RewardsState {
                level,
                rate,
                residue,
                recalc,
            },
            None => RewardsState {
                rate,
                recalc,
                ..*self
            },
        }
    }

    // The rate of a round.
    fn rate_due(&self, round: u64, interval: u64, pool: u64) -> u64
        requires { 0 < interval }
        ensures { result ≡ rate_due self.now round interval pool }
    {
        if round != self.recalc {
            return self.rate;
        }
        pool.saturating_sub(LEAST_POOL).saturating_sub(self.residue) / interval
    }

    // The round at which the rate is computed anew, seen after a round.
    fn recalc_due(&self, round: u64, interval: u64) -> u64
        requires round { round ≤ 2 ^ 62 }
        requires interval { interval ≤ 2 ^ 62 }
        ensures { result ≡ recalc_due self.now round interval }
    {
        if round == self.recalc {
            round + interval
        } else {
            self.recalc
        }
    }
}

// The level and the residue once a rate and a residue are given to the units; none where they are
// not given.
fn given(level: u64, rate: u64, residue: u64, units: u64) -> Option<(u64, u64)>
    ensures { result ≡ given level (rate + residue) units }
{
    let fund = rate.checked_add(residue)?;
    let each = fund.checked_div(units)?;
    let level = level.checked_add(each)?;
    Some((level, fund % units))
}
