//! What a ledger keeps in memory: what the blocks above the tables change, and what the next step
//! begins with.
ghost use Rattle.std.specs.Prelude.{◌≡◌, ◌≤◌, ◌<◌, ◌^◌};
ghost use Rattle.al_deltas.specs.Queue.{top};
ghost use Rattle.al_ledger.specs.Looking.{IsRound, IsRoundBack};

use crate::LookRefusal;
use crate::looking::LOOKBACK;
use al_deltas::Deltas;
use al_eval::{Before, Tail};
use al_online::OnlineMemory;
use std::alloc::Global;

/// What a ledger keeps in memory.
#[derive(Drop)]
pub struct Recent {
    pub(crate) alloc: Global,
    /// What the blocks above the tables' round change.
    pub(crate) deltas: Deltas,
    /// What the next step begins with.
    pub(crate) before: Before,
    /// The transactions that may stand in the chain no second time.
    pub(crate) tail: Tail,
    /// What consensus may ask of the last rounds.
    pub(crate) online: OnlineMemory,
}

impl Recent {
    /// These changes, what the next step begins with, the transactions that may stand in the chain
    /// no second time, and what consensus may ask of the last rounds.
    pub fn new(
        alloc: Global,
        deltas: Deltas,
        before: Before,
        tail: Tail,
        online: OnlineMemory,
    ) -> Recent
        ensures deltas { result.deltas ≡ deltas }
        ensures before { result.before ≡ before }
        ensures tail { result.tail ≡ tail }
        ensures online { result.online ≡ online }
    {
        Recent {
            alloc,
            deltas,
            before,
            tail,
            online,
        }
    }

    /// The last round.
    pub(crate) fn front(&self) -> u64
        ensures front { result ≡ top self.now.deltas }
        ensures most { result ≤ 2 ^ 62 }
    {
        self.deltas.top()
    }

    /// The round of the tables.
    pub(crate) fn floor(&self) -> u64
        ensures { result ≡ self.now.deltas.base }
    {
        self.deltas.base()
    }

    /// The round of a look-up of what the tables keep, which is the front where none is named.
    pub(crate) fn round<F>(&self, round: Option<u64>) -> Result<u64, LookRefusal<F>>
        ensures { IsRound self.now.deltas.base (top self.now.deltas) round result }
    {
        let front = self.front();
        let floor = self.floor();
        let round = round.unwrap_or(front);
        if front < round {
            return Err(LookRefusal::TooNew { front });
        }
        if round < floor {
            return Err(LookRefusal::BelowFloor { floor, front });
        }
        Ok(round)
    }

    /// The round of a look-up of what consensus asks, which is the front where none is named.
    pub(crate) fn round_back<F>(&self, round: Option<u64>) -> Result<u64, LookRefusal<F>>
        ensures { IsRoundBack (top self.now.deltas) round result }
    {
        let front = self.front();
        let round = round.unwrap_or(front);
        if front < round {
            return Err(LookRefusal::TooNew { front });
        }
        if round + LOOKBACK < front {
            return Err(LookRefusal::BelowLookback { front });
        }
        Ok(round)
    }
}
