//! The block that comes next.
ghost use Rattle.std.specs.Prelude.{◌≡◌, ◌≤◌, ◌<◌, ◌^◌, length, Ok, IfOk};
ghost use Rattle.std.specs.Option.{option_copied};
ghost use Rattle.al_eval.specs.State.{State, replay};
ghost use Rattle.al_rows.specs.Rows.{account, account_in, bare};
ghost use Rattle.al_states.specs.Due.{RewardsFit, due_block, next_due};
ghost use Rattle.al_states.specs.Keeping.{IsStates, held};

use crate::States;
use al_base::{Addresses, Key};
use al_block::{Block, Header, payset_hash};
use al_rewards::RewardsState;
use al_rows::Row;
use al_txn::Items;
use std::alloc::AllocError;

// The balance of an account's row, in microAlgos.
fn balance_in(row: Option<&Row>) -> u64
    ensures { result ≡ (account_in (option_copied row.entry)).balance }
{
    match row {
        Some(Row::Account(row)) => row.balance,
        Some(Row::Asset(_) | Row::App(_) | Row::Box(_)) => 0,
        None => 0,
    }
}

impl States {
    // The balance of the pool after the last block, in microAlgos.
    fn pool_balance(&self) -> u64
        requires { IsStates self.now }
        ensures { (s : State) → replay (held self.now).origin (held self.now).blocks ≡ Ok s → result ≡ (account (bare s.rows) s.chain.special.pool).balance }
    {
        let key = Key::Account(self.before.chain.special.pool);
        balance_in(self.row_after(&key, self.front()))
    }

    // The rewards that are due in the next round.
    fn next_due(&self) -> RewardsState
        requires states { IsStates self.now }
        requires few { self.now.before.header.round < 2 ^ 62 }
        ensures { (s : State) → replay (held self.now).origin (held self.now).blocks ≡ Ok s → result ≡ next_due s }
    {
        let last = &self.before.header;
        let state = RewardsState {
            level: last.level,
            rate: last.rate,
            residue: last.residue,
            recalc: last.recalc,
        };
        let interval = self.before.chain.interval;
        let units = self.before.totals.units();
        state.next(last.round + 1, interval, self.pool_balance(), units)
    }

    /// How many transactions the blocks have, inner ones included.
    pub fn transactions(&self) -> u64
        requires { IsStates self.now }
        ensures { (s : State) → replay (held self.now).origin (held self.now).blocks ≡ Ok s → result ≡ s.header.counter }
    {
        self.before.header.counter
    }

    /// The block of the next round, at a time in seconds, with these transactions, none of which has
    /// inner ones: nobody is expired in it, and its header is what the step demands.
    pub fn next_block(&self, ts: u64, items: Items) -> Result<Block, AllocError>
        requires states { IsStates self.now }
        requires round { (s : State) → replay (held self.now).origin (held self.now).blocks ≡ Ok s → s.header.round < 2 ^ 62 }
        requires few { length items ≤ 2 ^ 62 }
        ensures due { IfOk result (λ b. (s : State) → replay (held self.now).origin (held self.now).blocks ≡ Ok s → b ≡ due_block s ts items) }
        ensures fits { IfOk result (λ b. RewardsFit b.header) }
    {
        let last = &self.before.header;
        let chain = &self.before.chain;
        let due = self.next_due();
        let header = Header {
            round: last.round + 1,
            prev: self.before.hash,
            ts,
            genesis_hash: chain.hash,
            sink: chain.special.sink,
            pool: chain.special.pool,
            level: due.level,
            rate: due.rate,
            residue: due.residue,
            recalc: due.recalc,
            counter: last.counter + items.len() as u64,
            payset: [0; 32],
            expired: Addresses::new(self.alloc),
        };
        let mut block = Block { header, items };
        block.header.payset = payset_hash(self.alloc, &block)?;
        Ok(block)
    }
}
