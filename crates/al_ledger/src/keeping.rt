//! What is kept in memory of a block that is taken.
ghost use Rattle.std.specs.Prelude.{◌≡◌, ◌≤◌, ◌<◌, ◌-◌, ◌^◌, ◌++◌, List, [], suc, map, OnOk, OnErr};
ghost use Rattle.al_deltas.specs.Queue.{IsKeptDelta, and_delta, top, with_room};
ghost use Rattle.al_online.specs.Memory.{IsEachOnce, Memory, and_round, from_round, top as last_round};
ghost use Rattle.al_tail.specs.Past.{entry_of};
ghost use Rattle.al_tail.specs.declared.tail.Entry.{Entry as Kept};

use crate::Recent;
use crate::looking::LOOKBACK;
use al_block::{Block, Header};
use al_deltas::RoundDelta;
use al_eval::Entry;
use std::alloc::AllocError;

impl Recent {
    /// Keeps the transactions of the next block, and what consensus may ask of its round, and makes
    /// room for what it changes: all, or nothing that is seen. Errors: no memory.
    pub(crate) fn prepare(
        &mut self,
        entries: &[Entry],
        delta: &RoundDelta,
    ) -> Result<(), AllocError>
        requires next { delta.now.round ≡ suc (last_round self.old.online) }
        requires once { IsEachOnce delta.now.online }
        ensures before { self.new.before ≡ self.old.before }
        ensures queue { (self.new.deltas.base ≡ self.old.deltas.base) × (self.new.deltas.deltas ≡ self.old.deltas.deltas) × (self.new.deltas.totals ≡ self.old.deltas.totals) }
        ensures room { OnOk result (0 < self.new.deltas.spare) }
        ensures tail { OnOk result (self.new.tail ≡ self.old.tail ++ entries.now) }
        ensures online { OnOk result (self.new.online ≡ and_round delta.now.header.level delta.now.online self.old.online) }
        ensures top { OnOk result (last_round self.new.online ≡ delta.now.round) }
        ensures err { OnErr result ((self.new.tail ≡ self.old.tail) × (self.new.online ≡ self.old.online)) }
    {
        self.deltas.reserve()?;
        self.online
            .push(delta.round, delta.header.level, &delta.online)?;
        match self.tail.append(entries) {
            Ok(()) => Ok(()),
            Err(refused) => {
                self.online.take_back();
                Err(refused)
            }
        }
    }

    /// Takes back what was kept of a block that is not taken.
    pub(crate) fn take_back(&mut self, block: &Block)
        requires tail { (front : List Kept) × (self.old.tail ≡ front ++ map (λ i. entry_of i.txn) block.now.items) }
        requires online { self.old.online.base < last_round self.old.online }
        ensures before { self.new.before ≡ self.old.before }
        ensures deltas { self.new.deltas ≡ self.old.deltas }
        ensures tail { (front : List Kept) → self.old.tail ≡ front ++ map (λ i. entry_of i.txn) block.now.items → self.new.tail ≡ front }
        ensures online { (m : Memory) (level : _) (cs : _) → self.old.online ≡ and_round level cs m → self.new.online ≡ m }
    {
        self.tail.take_back(block);
        self.online.take_back();
    }

    /// Takes the next block, of which the transactions and what consensus may ask are kept, and for
    /// whose changes there is room; what consensus may not ask any more is forgotten. It takes no
    /// memory.
    pub(crate) fn advance(&mut self, header: Header, delta: RoundDelta)
        requires room { 0 < self.old.deltas.spare }
        requires next { delta.round ≡ suc (top self.old.deltas) }
        requires most { delta.round ≤ 2 ^ 62 }
        requires kept { IsKeptDelta delta }
        requires top { last_round self.old.online ≡ delta.round }
        requires base { self.old.online.base ≤ delta.round - 320 }
        ensures deltas { self.new.deltas ≡ and_delta delta self.old.deltas }
        ensures before { self.new.before ≡ record self.old.before { header = header; hash = delta.hash; totals = delta.totals } }
        ensures tail { self.new.tail ≡ self.old.tail }
        ensures online { self.new.online ≡ from_round (delta.round - 320) self.old.online }
        ensures last { last_round self.new.online ≡ delta.round }
    {
        self.online.prune(delta.round.saturating_sub(LOOKBACK));
        let hash = delta.hash;
        self.before.header = header;
        self.before.hash = hash;
        self.before.totals = delta.totals;
        match self.deltas.push(delta) {
            Ok(()) => {}
            Err(_) => unreachable!(),
        }
    }
}
