//! Old rounds go from memory to the tables.
ghost use Rattle.std.specs.Prelude.{◌≡◌, ◌≤◌, ◌<◌, ◌+◌, ◌^◌, true, Some};
ghost use Rattle.al_deltas.specs.Queue.{top};
ghost use Rattle.al_keeper.specs.Blocks.{Blocks};
ghost use Rattle.al_ledger.specs.Flushing.{HasFlushCause, IsNextDataRound, IsTarget, MovesTo};
ghost use Rattle.al_ledger.specs.Keeping.{IsLedger};
ghost use Rattle.al_ledger.specs.Window.{Window};

use crate::Recent;
use al_keeper::{Counted, Fault, KeepRefusal, TableKeeper};

/// The tables were moved from a round to another.
#[derive(Clone, Copy, Debug, PartialEq, Eq)]
pub struct Flushed {
    pub from: u64,
    pub to: u64,
}

/// Why nothing was flushed, over the faults of the keeper of the tables.
#[derive(Drop)]
pub enum FlushRefusal<F> {
    /// The tables stand at most four rounds below the front.
    NothingToFlush { front: u64, floor: u64 },
    /// The keeper has failed.
    Keeper(F),
    /// There is no memory.
    Memory,
}

// The least data round above a round: one whose rows a catchpoint 320 rounds above has.
fn data_round_above(interval: u64, floor: u64) -> Option<u64>
    requires interval { interval ≤ 2 ^ 62 }
    requires floor { floor ≤ 2 ^ 62 }
    ensures { IsNextDataRound interval floor result }
{
    if interval == 0 {
        return None;
    }
    Some(((floor + 320) / interval + 1) * interval - 320)
}

/// The round to flush to: four rounds below the front, at most 256 above the floor, and not past
/// the next round whose rows a catchpoint has.
pub fn target(interval: u64, floor: u64, front: u64) -> u64
    requires interval { interval ≤ 2 ^ 62 }
    requires floor { floor + 4 < front }
    requires front { front ≤ 2 ^ 62 }
    ensures target { IsTarget interval floor front result }
    ensures above { floor < result }
    ensures below { result + 4 ≤ front }
{
    let most = (front - 4).min(floor + 256);
    match data_round_above(interval, floor) {
        Some(round) => round.min(most),
        None => most,
    }
}

impl Recent {
    /// Moves the tables to a round: all that the blocks up to it change goes there, and is forgotten
    /// here. Nothing that a look-up shows changes, but that rounds below are not shown any more.
    ///
    /// # Errors
    ///
    /// `Keeper` only where the keeper of the tables counted a fault. After a refusal all is as before.
    pub fn flush<K: TableKeeper>(
        &mut self,
        tables: &mut Counted<K>,
        to: u64,
    ) -> Result<Flushed, FlushRefusal<Fault<K>>>
        requires above { self.old.deltas.base ≤ to }
        requires below { to + 4 ≤ top self.old.deltas }
        requires round { K.tells ≡ true → (K.tables tables.old.inner).round ≡ Some self.old.deltas.base }
        ensures told { K.tells ≡ true → (w : Window) (kept : Blocks) → IsLedger w (K.tables tables.old.inner) kept self.old → MovesTo to w (K.tables tables.new.inner) kept self.new result }
        ensures round { K.tells ≡ true → (K.tables tables.new.inner).round ≡ Some self.new.deltas.base }
        ensures cause { HasFlushCause (K.faults tables.old.inner) (K.faults tables.new.inner) result }
    {
        let from = self.floor();
        let Ok(batch) = self.deltas.batch(to) else {
            return Err(FlushRefusal::Memory);
        };
        match tables.commit(&batch) {
            Ok(()) => {
                self.deltas.drop_to(to);
                Ok(Flushed { from, to })
            }
            Err(KeepRefusal::Fault(fault)) => Err(FlushRefusal::Keeper(fault)),
            Err(KeepRefusal::Memory) => Err(FlushRefusal::Memory),
        }
    }
}
