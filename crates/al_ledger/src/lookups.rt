//! Look-ups of what a ledger keeps in memory.
ghost use Rattle.std.specs.Prelude.{◌≡◌, ◌≤◌, ◌-◌, true, IfOk, IfSome};
ghost use Rattle.al_deltas.specs.Queue.{top};
ghost use Rattle.al_keeper.specs.Blocks.{Blocks};
ghost use Rattle.al_online.specs.Memory.{top as last_round};
ghost use Rattle.al_ledger.specs.Keeping.{IsLedger};
ghost use Rattle.al_ledger.specs.Looking.{HasLookCause, LooksAt, LooksBack, ShowsCirculation, ShowsCreator, ShowsRow, ShowsStake, ShowsStatus, ShowsSupply};
ghost use Rattle.al_ledger.specs.Window.{Window};
ghost use Rattle.al_rows.specs.Rows.{IsKept};
ghost use Rattle.al_tables.specs.Tables.{Tables};

use crate::looking::LOOKBACK;
use crate::shown::{creator_after, row_after};
use crate::{
    CirculationAnswer, CreatorAnswer, LookRefusal, Recent, RowAnswer, StakeAnswer, StatusAnswer,
    SupplyAnswer,
};
use al_base::{Address, Key};
use al_keeper::{Counted, Fault, TableKeeper};
use al_rows::ViewFault;

impl Recent {
    /// The row under a key after a round, no round being the last one.
    ///
    /// # Errors
    ///
    /// `TooNew` exactly where the round is above the front; `BelowFloor` exactly where it is below
    /// the round of the tables; `Keeper` only where the keeper of the tables counted a fault.
    pub fn row<K: TableKeeper>(
        &self,
        tables: &mut Counted<K>,
        key: &Key,
        round: Option<u64>,
    ) -> Result<RowAnswer, LookRefusal<Fault<K>>>
        ensures told { K.tells ≡ true → (w : Window) (kept : Blocks) → IsLedger w (K.tables tables.old.inner) kept self.now → LooksAt w round (ShowsRow w key.now) result }
        ensures same { K.tells ≡ true → K.tables tables.new.inner ≡ K.tables tables.old.inner }
        ensures kept { IfOk result (λ a. IfSome a.row (IsKept key.now)) }
        ensures cause { HasLookCause (K.faults tables.old.inner) (K.faults tables.new.inner) result }
    {
        let round = match self.round(round) {
            Ok(round) => round,
            Err(refused) => return Err(refused),
        };
        let front = self.front();
        let level = self.deltas.header_level(round);
        match row_after(self.alloc, &self.deltas, tables, key, round) {
            Ok(row) => Ok(RowAnswer {
                front,
                round,
                level,
                row,
            }),
            Err(ViewFault::Failed(fault)) => Err(LookRefusal::Keeper { fault, front }),
            Err(ViewFault::Memory) => Err(LookRefusal::Memory),
        }
    }

    /// The creator of an asset or an application after a round, no round being the last one.
    ///
    /// # Errors
    ///
    /// `TooNew` exactly where the round is above the front; `BelowFloor` exactly where it is below
    /// the round of the tables; `Keeper` only where the keeper of the tables counted a fault.
    pub fn creator<K: TableKeeper>(
        &self,
        tables: &mut Counted<K>,
        id: u64,
        round: Option<u64>,
    ) -> Result<CreatorAnswer, LookRefusal<Fault<K>>>
        ensures told { K.tells ≡ true → (w : Window) (kept : Blocks) → IsLedger w (K.tables tables.old.inner) kept self.now → LooksAt w round (ShowsCreator w id) result }
        ensures same { K.tells ≡ true → K.tables tables.new.inner ≡ K.tables tables.old.inner }
        ensures cause { HasLookCause (K.faults tables.old.inner) (K.faults tables.new.inner) result }
    {
        let round = match self.round(round) {
            Ok(round) => round,
            Err(refused) => return Err(refused),
        };
        let front = self.front();
        match creator_after(&self.deltas, tables, id, round) {
            Ok(address) => Ok(CreatorAnswer {
                front,
                round,
                address,
            }),
            Err(ViewFault::Failed(fault)) => Err(LookRefusal::Keeper { fault, front }),
            Err(ViewFault::Memory) => Err(LookRefusal::Memory),
        }
    }

    /// The money of all accounts after a round, no round being the last one.
    ///
    /// # Errors
    ///
    /// `TooNew` exactly where the round is above the front; `BelowFloor` exactly where it is below
    /// the round of the tables.
    pub fn supply<F>(&self, round: Option<u64>) -> Result<SupplyAnswer, LookRefusal<F>>
        ensures { (w : Window) (tables : Tables) (kept : Blocks) → IsLedger w tables kept self.now → LooksAt w round (ShowsSupply w) result }
    {
        let round = self.round(round)?;
        Ok(SupplyAnswer {
            front: self.front(),
            round,
            totals: self.deltas.totals(round),
        })
    }

    /// The stake of an account after a round, no round being the last one.
    ///
    /// # Errors
    ///
    /// `TooNew` exactly where the round is above the front; `BelowLookback` exactly where it lies
    /// more than 320 rounds behind it.
    pub fn online<F>(
        &self,
        who: &Address,
        round: Option<u64>,
    ) -> Result<StakeAnswer, LookRefusal<F>>
        requires last { last_round self.now.online ≡ top self.now.deltas }
        requires base { self.now.online.base ≤ top self.now.deltas - 320 }
        ensures { (w : Window) (tables : Tables) (kept : Blocks) → IsLedger w tables kept self.now → LooksBack w round (ShowsStake w who.now) result }
    {
        let round = self.round_back(round)?;
        Ok(StakeAnswer {
            front: self.front(),
            round,
            stake: self.online.at(who, round),
        })
    }

    /// The stake after a round, no round being the last one, that may take part in the vote of
    /// another, which is 320 rounds above it where none is named.
    ///
    /// # Errors
    ///
    /// `TooNew` exactly where the round is above the front; `BelowLookback` exactly where it lies
    /// more than 320 rounds behind it.
    pub fn circulation<F>(
        &self,
        round: Option<u64>,
        vote: Option<u64>,
    ) -> Result<CirculationAnswer, LookRefusal<F>>
        requires last { last_round self.now.online ≡ top self.now.deltas }
        requires base { self.now.online.base ≤ top self.now.deltas - 320 }
        ensures { (w : Window) (tables : Tables) (kept : Blocks) → IsLedger w tables kept self.now → LooksBack w round (ShowsCirculation w vote) result }
    {
        let round = self.round_back(round)?;
        let front = self.front();
        let vote = vote.unwrap_or(round + LOOKBACK);
        Ok(CirculationAnswer {
            front,
            round,
            vote,
            money: self.online.circulation(round, vote),
        })
    }

    /// What the ledger holds: the front, the first round whose rows are shown, and the hash of the
    /// last block's header.
    pub fn status(&self) -> StatusAnswer
        ensures { (w : Window) (tables : Tables) (kept : Blocks) → IsLedger w tables kept self.now → ShowsStatus w result }
    {
        StatusAnswer {
            front: self.front(),
            floor: self.floor(),
            hash: self.before.hash,
        }
    }
}
