//! Blocks in memory.
ghost use Rattle.std.specs.Prelude.{◌≡◌, ◌≤◌, ◌<◌, ◌+◌, ◌^◌, [], Option, Some, None, All, IfOk, IfSome, OnOk, OnErr, length};
ghost use Rattle.al_keeper.specs.Blocks.{Follows, and_block, block_at};
ghost use Rattle.al_keeper.specs.Calls.{calls_to, mended};

use crate::calls::Calls;
use crate::{BlockKeeper, KeepFault, MayFail};
use al_base::Bytes;
use sqlite_items::Items;
use std::alloc::{AllocError, Global};

/// Blocks in memory that never fail.
#[derive(Drop)]
pub struct SureBlocks {
    alloc: Global,
    first: u64,
    list: Items<Bytes>,
    ghost top: { first + length list ≤ 2 ^ 62 + 1 },
    ghost short: { All (λ bytes. length bytes < 2 ^ 31) list },
}

impl SureBlocks {
    /// No block.
    pub fn new(alloc: Global) -> SureBlocks
        ensures { result.list ≡ [] }
    {
        SureBlocks {
            alloc,
            first: 1,
            list: Items::new(alloc),
        }
    }

    // The bytes of a round.
    fn bytes(&self, round: u64) -> Result<Option<Bytes>, AllocError>
        ensures value { IfOk result (λ b. b ≡ block_at (record { first = self.now.first; list = self.now.list }) round) }
        ensures short { IfOk result (λ b. IfSome b (λ bytes. length bytes < 2 ^ 31)) }
    {
        if round < self.first || round - self.first >= self.list.len() as u64 {
            return Ok(None);
        }
        match self.list.get((round - self.first) as usize) {
            Some(bytes) => Ok(Some(bytes.copy(self.alloc)?)),
            None => Ok(None),
        }
    }

    // Adds a block.
    fn add(&mut self, round: u64, bytes: &[u8]) -> Result<(), AllocError>
        requires next { Follows (record { first = self.old.first; count = length self.old.list }) round }
        requires most { round ≤ 2 ^ 62 }
        requires short { length bytes.now < 2 ^ 31 }
        ensures ok { OnOk result (record { first = self.new.first; list = self.new.list } ≡ and_block round bytes.now (record { first = self.old.first; list = self.old.list })) }
        ensures err { OnErr result ((self.new.first ≡ self.old.first) × (self.new.list ≡ self.old.list)) }
    {
        let bytes = Bytes::of(self.alloc, bytes)?;
        let is_first = self.list.is_empty();
        self.list.push(bytes)?;
        if is_first {
            self.first = round;
        }
        Ok(())
    }
}

impl MayFail for SureBlocks {
    ghost use Rattle.std.specs.Prelude.{false};

    ghost CAN_FAIL = { false };

    const CAN_FAIL: bool = false;
}

impl BlockKeeper for SureBlocks {
    ghost use Rattle.std.specs.Prelude.{⊤, true, refl, length};

    ghost tells = { λ _. ⊤ };

    ghost blocks = { λ b. record { first = b.first; list = b.list } };

    ghost rounds = { λ b. record { first = b.first; count = length b.list } };

    ghost faults = { λ _. 0 };

    ghost steady = { true };

    ghost steadily = { λ k h. tt };

    ghost spans = { λ k t. refl };

    ghost sure = { λ k h. refl };

    fn span(&mut self) -> Result<Option<(u64, u64)>, KeepFault> {
        if self.list.is_empty() {
            return Ok(None);
        }
        Ok(Some((self.first, self.first + (self.list.len() as u64 - 1))))
    }

    fn get(&mut self, round: u64) -> Result<Option<Bytes>, KeepFault> {
        match self.bytes(round) {
            Ok(bytes) => Ok(bytes),
            Err(_) => Err(KeepFault::Memory),
        }
    }

    fn append(&mut self, round: u64, bytes: &[u8]) -> Result<(), KeepFault> {
        match self.add(round, bytes) {
            Ok(()) => Ok(()),
            Err(_) => Err(KeepFault::Memory),
        }
    }

    fn clear(&mut self) -> Result<(), KeepFault> {
        self.list = Items::new(self.alloc);
        Ok(())
    }
}

/// Blocks in memory. Its calls of the planned numbers fail.
#[derive(Drop)]
pub struct MemBlocks {
    blocks: SureBlocks,
    calls: Calls,
}

impl MemBlocks {
    /// No block. Calls of the numbers in `fails`, counted from 1, fail.
    ///
    /// # Errors
    ///
    /// Only where memory is short.
    pub fn new(alloc: Global, fails: &[u64]) -> Result<MemBlocks, AllocError>
        ensures blocks { IfOk result (λ b. b.blocks.list ≡ []) }
        ensures calls { IfOk result (λ b. b.calls ≡ calls_to fails.now) }
    {
        Ok(MemBlocks {
            blocks: SureBlocks::new(alloc),
            calls: Calls::new(alloc, fails)?,
        })
    }

    /// The same blocks and faults. No call fails or is counted any more. It takes no memory.
    pub fn mend(self) -> MemBlocks
        ensures blocks { result.blocks ≡ self.blocks }
        ensures calls { result.calls ≡ mended self.calls }
    {
        MemBlocks {
            blocks: self.blocks,
            calls: self.calls.mend(),
        }
    }
}

impl MayFail for MemBlocks {
    ghost use Rattle.std.specs.Prelude.{true};

    ghost CAN_FAIL = { true };

    const CAN_FAIL: bool = true;
}

impl BlockKeeper for MemBlocks {
    ghost use Rattle.std.specs.Prelude.{⊤, true, refl, length};
    ghost use mathlib.Core.Bool.{true≢false};

    ghost tells = { λ _. ⊤ };

    ghost blocks = { λ b. record { first = b.blocks.first; list = b.blocks.list } };

    ghost rounds = { λ b. record { first = b.blocks.first; count = length b.blocks.list } };

    ghost faults = { λ b. b.calls.plan.faults };

    ghost steady = { true };

    ghost steadily = { λ k h. tt };

    ghost spans = { λ k t. refl };

    ghost sure = { λ k h. absurd (true≢false h) };

    fn span(&mut self) -> Result<Option<(u64, u64)>, KeepFault> {
        self.calls.call()?;
        self.blocks.span()
    }

    fn get(&mut self, round: u64) -> Result<Option<Bytes>, KeepFault> {
        self.calls.call()?;
        self.blocks.get(round)
    }

    fn append(&mut self, round: u64, bytes: &[u8]) -> Result<(), KeepFault> {
        self.calls.call()?;
        self.blocks.append(round, bytes)
    }

    fn clear(&mut self) -> Result<(), KeepFault> {
        self.calls.call()?;
        self.blocks.clear()
    }
}
