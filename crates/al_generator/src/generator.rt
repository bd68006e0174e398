//! The generator of a chain.
ghost use Rattle.std.specs.Prelude.{◌≡◌, ◌+◌, ◌≤◌, ◌^◌, IfOk, OnErr, OnOk};
ghost use Rattle.al_generator.specs.Draws.{begin};
ghost use Rattle.al_generator.specs.Items.{items_of};
ghost use Rattle.al_generator.specs.Turns.{block};

use crate::items::items_of;
use crate::progress::Progress;
use al_base::Hash;
use al_txn::Items;
use std::alloc::{AllocError, Global};
use std::marker::Model;

/// The generator of a chain: what it draws from, and what it has made so far.
#[derive(Debug, Drop)]
pub struct Generator {
    progress: Progress,
}

impl Model for Generator {
    ghost use Rattle.al_generator.specs.declared.progress.Progress.{Progress};

    ghost Value = { Progress };

    ghost view = { λ g. g.progress };
}

impl Generator {
    /// The generator of a number, before its first block.
    pub fn new(number: u64) -> Generator
        ensures { result ≡ begin number }
    {
        Generator {
            progress: Progress::begin(number),
        }
    }

    /// The transactions of the next block, which is of this round. Where memory is short, the
    /// generator stays as it was.
    pub fn next_items(
        &mut self,
        alloc: Global,
        round: u64,
        genesis: &Hash,
    ) -> Result<Items, AllocError>
        requires round { round ≤ 2 ^ 62 }
        requires count { self.old.count ≤ 2 ^ 62 }
        ensures items { IfOk result (λ items. items ≡ items_of round genesis.now (block self.old).0) }
        ensures state { OnOk result (self.new ≡ (block self.old).1) }
        ensures err { OnErr result (self.new ≡ self.old) }
        ensures few { self.new.count ≤ self.old.count + 8 }
    {
        let mut progress = self.progress;
        let made = progress.block(alloc)?;
        let items = items_of(alloc, round, genesis, made.as_slice())?;
        self.progress = progress;
        Ok(items)
    }
}
