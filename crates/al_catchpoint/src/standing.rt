//! The states of a ledger as what a catchpoint is written from.
ghost use Rattle.std.specs.Prelude.{◌≡◌, ◌≤◌, length};
ghost use Rattle.al_catchpoint.specs.Showing.{standing_at};
ghost use Rattle.al_states.specs.Keeping.{IsNewest, IsStates, held};

use crate::elements::root_of;
use al_base::{Bytes, Hash, Key};
use al_catch::{RowsAt, RowsFault};
use al_rewards::Totals;
use al_rows::{Never, Rows};
use al_states::States;
use std::alloc::Global;
use std::marker::Model;

/// The states of a ledger at a data round, which is at most the front: its rows are given while it
/// is the front, and its blocks always.
#[derive(Drop)]
pub struct StatesAt<'a> {
    alloc: Global,
    states: &'a States,
    round: u64,
    overtaken: u64,
}

impl<'a> Model for StatesAt<'a> {
    ghost use Rattle.std.specs.Prelude.{◌≡◌, ◌≤◌, length};
    ghost use Rattle.al_states.specs.Keeping.{IsNewest, IsStates, held};
    ghost use Rattle.al_catchpoint.specs.Showing.{Standing, standing_at, standing_code};

    ghost Value = { Standing };

    ghost coded = { standing_code };

    ghost view = { λ s. standing_at (held s.states.now) s.round s.overtaken };

    ghost invariant = { λ s. IsStates s.states.now × (s.round ≤ length (held s.states.now).blocks) × (s.round ≡ length (held s.states.now).blocks → IsNewest s.states.now) };
}

impl<'a> StatesAt<'a> {
    /// The states at a data round. Where that is the front, nothing lacks of the newest rows.
    pub fn new(alloc: Global, states: &'a States, round: u64) -> StatesAt<'a>
        requires states { IsStates states.now }
        requires within { round ≤ length (held states.now).blocks }
        requires newest { round ≡ length (held states.now).blocks → IsNewest states.now }
        ensures { result ≡ standing_at (held states.now) round 0 }
    {
        StatesAt {
            alloc,
            states,
            round,
            overtaken: 0,
        }
    }
}

impl<'a> RowsAt for StatesAt<'a> {
    ghost use Rattle.std.specs.Prelude.{◌≡◌, true, length};
    ghost use Rattle.al_catchpoint.specs.Showing.{shown};

    type Fault = Never;

    ghost tells = { true };

    ghost shown = { shown };

    ghost overtaken = { λ s. s.overtaken };

    ghost failed = { λ _. 0 };

    ghost calm = { λ s. s.round ≡ length s.blocks };

    fn rows_after(&mut self, after: Option<&Key>, max: u32) -> Result<Rows, RowsFault<Never>> {
        let front = self.states.front();
        if front != self.round {
            self.overtaken = self.overtaken.saturating_add(1);
            return Err(RowsFault::Overtaken { round: front });
        }
        match self.states.rows_above(after, max) {
            Ok(rows) => Ok(rows),
            Err(_) => Err(RowsFault::Memory),
        }
    }

    fn root(&mut self) -> Result<(Hash, Totals), RowsFault<Never>> {
        let front = self.states.front();
        if front != self.round {
            self.overtaken = self.overtaken.saturating_add(1);
            return Err(RowsFault::Overtaken { round: front });
        }
        match root_of(self.alloc, self.states) {
            Ok(root) => Ok((root, self.states.totals())),
            Err(_) => Err(RowsFault::Memory),
        }
    }

    fn block(&mut self, round: u64) -> Result<Bytes, RowsFault<Never>> {
        match Bytes::of(self.alloc, self.states.block_bytes(round)) {
            Ok(bytes) => Ok(bytes),
            Err(_) => Err(RowsFault::Memory),
        }
    }
}
