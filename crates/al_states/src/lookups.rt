//! Look-ups after a round.
ghost use Rattle.std.specs.Prelude.{◌≡◌, ◌≤◌, ◌<◌, length, option_map, IfOk, IfSome};
ghost use Rattle.std.specs.Option.{option_copied};
ghost use Rattle.al_eval.specs.State.{row_at};
ghost use Rattle.al_rows.specs.Rows.{IsKept};
ghost use Rattle.al_states.specs.Keeping.{IsStates, held};
ghost use Rattle.al_states.specs.Looking.{IsRound, IsRoundBack, LooksAt, LooksBack, ShowsCirculation, ShowsCreator, ShowsRow, ShowsStake, ShowsStatus, ShowsSupply};
ghost use Rattle.al_states.specs.Rounds.{creator_after};

use crate::looking::LOOKBACK;
use crate::{
    CirculationAnswer, CreatorAnswer, LookRefusal, RowAnswer, StakeAnswer, States, StatusAnswer,
    SupplyAnswer,
};
use al_base::{Address, Key};
use al_rows::Row;
use std::alloc::AllocError;

impl States {
    // The round of a look-up, which is the front where none is named.
    fn round(&self, round: Option<u64>) -> Result<u64, LookRefusal>
        requires { IsStates self.now }
        ensures { IsRound (held self.now) round result }
    {
        let front = self.front();
        let round = round.unwrap_or(front);
        if front < round {
            return Err(LookRefusal::TooNew { front });
        }
        Ok(round)
    }

    // The same of what consensus asks.
    fn round_back(&self, round: Option<u64>) -> Result<u64, LookRefusal>
        requires { IsStates self.now }
        ensures { IsRoundBack (held self.now) round result }
    {
        let round = self.round(round)?;
        let front = self.front();
        if round + LOOKBACK < front {
            return Err(LookRefusal::BelowLookback { front });
        }
        Ok(round)
    }

    /// The row under a key after a round, no round being the last one.
    ///
    /// # Errors
    ///
    /// `TooNew` exactly where the round is above the front.
    pub fn row(&self, key: &Key, round: Option<u64>) -> Result<RowAnswer<'_>, LookRefusal>
        requires { IsStates self.now }
        ensures looks { LooksAt (held self.now) round (ShowsRow (held self.now) key.now) result }
        ensures kept { IfOk result (λ a. IfSome (option_copied a.row) (IsKept key.now)) }
    {
        let round = self.round(round)?;
        Ok(RowAnswer {
            front: self.front(),
            round,
            level: self.deltas.header_level(round),
            row: self.row_after(key, round),
        })
    }

    // The row under a key after a round that is at most the front.
    pub(crate) fn row_after(&self, key: &Key, round: u64) -> Option<&Row>
        requires states { IsStates self.now }
        requires within { round ≤ length (held self.now).blocks }
        ensures row { option_copied result ≡ option_map (λ s. s.row) (row_at (held self.now).origin (held self.now).blocks round key.now) }
        ensures kept { IfSome (option_copied result) (IsKept key.now) }
    {
        match self.deltas.find(key, round) {
            Some((_, row)) => row.as_ref(),
            None => match self.base.get(key) {
                Some(stored) => Some(&stored.row),
                None => None,
            },
        }
    }

    /// The creator of an asset or an application after a round, no round being the last one.
    ///
    /// # Errors
    ///
    /// `TooNew` exactly where the round is above the front; `Memory` only where memory is short.
    pub fn creator(&self, id: u64, round: Option<u64>) -> Result<CreatorAnswer, LookRefusal>
        requires { IsStates self.now }
        ensures { LooksAt (held self.now) round (ShowsCreator (held self.now) id) result }
    {
        let round = self.round(round)?;
        match self.creator_after(id, round) {
            Ok(address) => Ok(CreatorAnswer {
                front: self.front(),
                round,
                address,
            }),
            Err(_) => Err(LookRefusal::Memory),
        }
    }

    // The creator of an asset or an application after a round that is at most the front.
    fn creator_after(&self, id: u64, round: u64) -> Result<Option<Address>, AllocError>
        requires states { IsStates self.now }
        requires within { round ≤ length (held self.now).blocks }
        ensures { IfOk result (λ creator. creator ≡ creator_after (held self.now).origin (held self.now).blocks round id) }
    {
        match self.deltas.creator(id, round) {
            Some(address) => Ok(address),
            None => self.base.creator(id),
        }
    }

    /// The money of all accounts after a round, no round being the last one.
    ///
    /// # Errors
    ///
    /// `TooNew` exactly where the round is above the front.
    pub fn supply(&self, round: Option<u64>) -> Result<SupplyAnswer, LookRefusal>
        requires { IsStates self.now }
        ensures { LooksAt (held self.now) round (ShowsSupply (held self.now)) result }
    {
        let round = self.round(round)?;
        Ok(SupplyAnswer {
            front: self.front(),
            round,
            totals: self.deltas.totals(round),
        })
    }

    /// The stake of an account after a round, no round being the last one.
    ///
    /// # Errors
    ///
    /// `TooNew` exactly where the round is above the front; `BelowLookback` exactly where it lies
    /// more than 320 rounds behind it.
    pub fn online(&self, who: &Address, round: Option<u64>) -> Result<StakeAnswer, LookRefusal>
        requires { IsStates self.now }
        ensures { LooksBack (held self.now) round (ShowsStake (held self.now) who.now) result }
    {
        let round = self.round_back(round)?;
        Ok(StakeAnswer {
            front: self.front(),
            round,
            stake: self.online.at(who, round),
        })
    }

    /// The stake after a round, no round being the last one, that may take part in the vote of
    /// another, which is 320 rounds above it where none is named.
    ///
    /// # Errors
    ///
    /// `TooNew` exactly where the round is above the front; `BelowLookback` exactly where it lies
    /// more than 320 rounds behind it.
    pub fn circulation(
        &self,
        round: Option<u64>,
        vote: Option<u64>,
    ) -> Result<CirculationAnswer, LookRefusal>
        requires { IsStates self.now }
        ensures { LooksBack (held self.now) round (ShowsCirculation (held self.now) vote) result }
    {
        let round = self.round_back(round)?;
        let front = self.front();
        let vote = vote.unwrap_or(round + LOOKBACK);
        Ok(CirculationAnswer {
            front,
            round,
            vote,
            money: self.online.circulation(round, vote),
        })
    }

    /// What the ledger holds: the front, the first round that is shown, and the hash of the last
    /// block's header.
    pub fn status(&self) -> StatusAnswer
        requires { IsStates self.now }
        ensures { ShowsStatus (held self.now) result }
    {
        StatusAnswer {
            front: self.front(),
            floor: 0,
            hash: self.before.hash,
        }
    }
}
