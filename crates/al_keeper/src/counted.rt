//! Keepers whose faults are values, which are spent.
ghost use Rattle.std.specs.Prelude.{◌≡◌, ◌≤◌, ◌+◌, ◌-◌, ◌<◌, ◌^◌, true, Option, All, IfOk, IfSome, OnOk, OnErr, is_some, length, min, []};
ghost use Rattle.std.specs.Option.{option_copied};
ghost use Rattle.std.specs.FinMap.{get};
ghost use Rattle.al_rows.specs.Above.{AreRows, IsStored, rows_above};
ghost use Rattle.al_tables.specs.Tables.{AreLevels, AreVersions, IsBatch, IsFrom, adopted, committed, staged, unstaged};
ghost use Rattle.al_keeper.specs.Blocks.{Follows, and_block, and_round, block_at, ends_of, is_within};
ghost use Rattle.al_keeper.specs.Refusals.{HasRefusal};

use crate::{BlockKeeper, KeepFault, MayFail, TableKeeper};
use al_base::{Address, Bytes, CreatorChanges, History, Key, Levels};
use al_rows::{Rows, Stored};
use al_tables::Batch;
use std::marker::PhantomData;

/// A fault that a keeper counted. Nobody else makes one.
#[derive(Drop)]
pub struct Fault<K: MayFail> {
    of: PhantomData<K>,
    ghost can: { K.CAN_FAIL ≡ true },
}

/// Why a counted keeper gives no answer.
#[derive(Drop)]
pub enum KeepRefusal<K: MayFail> {
    /// What it keeps in has failed, and it counted that.
    Fault(Fault<K>),
    /// There is no memory.
    Memory,
}

/// A count of spent faults, which stands still at a u64's greatest value.
#[derive(Drop)]
pub struct Tally<K: MayFail> {
    spent: u64,
    of: PhantomData<K>,
}

impl<K: MayFail> Tally<K> {
    /// No fault.
    pub fn new() -> Tally<K>
        ensures { result.spent ≡ 0 }
    {
        Tally {
            spent: 0,
            of: PhantomData,
        }
    }

    /// Counts a fault, which is spent with that.
    pub fn spend(&mut self, f: Fault<K>)
        ensures rises { self.new.spent ≡ min (self.old.spent + 1) (2 ^ 64 - 1) }
        ensures can { K.CAN_FAIL ≡ true }
    {
        let Fault { of: _ } = f;
        self.spent = self.spent.saturating_add(1);
    }

    /// How many faults were spent.
    pub fn count(&self) -> u64
        ensures { result ≡ self.now.spent }
    {
        self.spent
    }
}

/// The counts of a ledger's two keepers.
#[derive(Drop)]
pub struct Tallies<K: MayFail, B: MayFail> {
    pub tables: Tally<K>,
    pub blocks: Tally<B>,
}

impl<K: MayFail, B: MayFail> Tallies<K, B> {
    /// No fault.
    pub fn new() -> Tallies<K, B>
        ensures { (result.tables.spent ≡ 0) × (result.blocks.spent ≡ 0) }
    {
        Tallies {
            tables: Tally::new(),
            blocks: Tally::new(),
        }
    }
}

/// A keeper whose faults are values.
#[derive(Drop)]
pub struct Counted<K> {
    inner: K,
}

impl<K> Counted<K> {
    /// This keeper, its faults as values.
    pub fn new(k: K) -> Counted<K>
        ensures { result.inner ≡ k }
    {
        Counted { inner: k }
    }

    /// The keeper.
    pub fn into_inner(self) -> K
        ensures { result ≡ self.inner }
    {
        self.inner
    }
}

impl<K: TableKeeper> Counted<K> {
    /// The round of the tables, none where they stand at none.
    pub fn round(&mut self) -> Result<Option<u64>, KeepRefusal<K>>
        ensures same { K.tells ≡ true → K.tables self.new.inner ≡ K.tables self.old.inner }
        ensures value { K.tells ≡ true → IfOk result (λ r. r ≡ (K.tables self.old.inner).round) }
        ensures cause { HasRefusal KeepRefusal.Fault (K.faults self.old.inner) (K.faults self.new.inner) result }
    {
        match self.inner.round() {
            Ok(answer) => Ok(answer),
            Err(KeepFault::Memory) => Err(KeepRefusal::Memory),
            Err(KeepFault::Failed) => Err(KeepRefusal::Fault(Fault { of: PhantomData })),
        }
    }

    /// The row under a key, with the round of its last change.
    pub fn row(&mut self, key: &Key) -> Result<Option<Stored>, KeepRefusal<K>>
        ensures same { K.tells ≡ true → K.tables self.new.inner ≡ K.tables self.old.inner }
        ensures value { K.tells ≡ true → IfOk result (λ s. s ≡ get (K.tables self.old.inner).rows key.now) }
        ensures kept { IfOk result (λ s. IfSome s (IsStored key.now)) }
        ensures cause { HasRefusal KeepRefusal.Fault (K.faults self.old.inner) (K.faults self.new.inner) result }
    {
        match self.inner.row(key) {
            Ok(answer) => Ok(answer),
            Err(KeepFault::Memory) => Err(KeepRefusal::Memory),
            Err(KeepFault::Failed) => Err(KeepRefusal::Fault(Fault { of: PhantomData })),
        }
    }

    /// The creator of an asset or an application.
    pub fn creator(&mut self, id: u64) -> Result<Option<Address>, KeepRefusal<K>>
        ensures same { K.tells ≡ true → K.tables self.new.inner ≡ K.tables self.old.inner }
        ensures value { K.tells ≡ true → IfOk result (λ who. who ≡ get (K.tables self.old.inner).creators id) }
        ensures cause { HasRefusal KeepRefusal.Fault (K.faults self.old.inner) (K.faults self.new.inner) result }
    {
        match self.inner.creator(id) {
            Ok(answer) => Ok(answer),
            Err(KeepFault::Memory) => Err(KeepRefusal::Memory),
            Err(KeepFault::Failed) => Err(KeepRefusal::Fault(Fault { of: PhantomData })),
        }
    }

    /// The first rows above a key, or of all, in the order of keys: at most so many.
    pub fn rows_after(&mut self, after: Option<&Key>, max: u32) -> Result<Rows, KeepRefusal<K>>
        ensures same { K.tells ≡ true → K.tables self.new.inner ≡ K.tables self.old.inner }
        ensures value { K.tells ≡ true → IfOk result (λ rows. rows ≡ rows_above (option_copied after.entry) max (K.tables self.old.inner).rows) }
        ensures rows { IfOk result (AreRows (option_copied after.entry) max) }
        ensures cause { HasRefusal KeepRefusal.Fault (K.faults self.old.inner) (K.faults self.new.inner) result }
    {
        match self.inner.rows_after(after, max) {
            Ok(answer) => Ok(answer),
            Err(KeepFault::Memory) => Err(KeepRefusal::Memory),
            Err(KeepFault::Failed) => Err(KeepRefusal::Fault(Fault { of: PhantomData })),
        }
    }

    /// The history of online accounts, and the levels, in the order in which they were added.
    pub fn history(&mut self) -> Result<(History, Levels), KeepRefusal<K>>
        ensures same { K.tells ≡ true → K.tables self.new.inner ≡ K.tables self.old.inner }
        ensures value { K.tells ≡ true → IfOk result (λ h. (h.0 ≡ (K.tables self.old.inner).history) × (h.1 ≡ (K.tables self.old.inner).levels)) }
        ensures cause { HasRefusal KeepRefusal.Fault (K.faults self.old.inner) (K.faults self.new.inner) result }
    {
        match self.inner.history() {
            Ok(answer) => Ok(answer),
            Err(KeepFault::Memory) => Err(KeepRefusal::Memory),
            Err(KeepFault::Failed) => Err(KeepRefusal::Fault(Fault { of: PhantomData })),
        }
    }

    /// Makes all of a batch's changes, or none. A batch without a `from` replaces everything and
    /// empties the stage; any other needs tables of its `from` and leaves the stage. Versions and
    /// levels that no round from 320 below the new one on needs are forgotten.
    pub fn commit(&mut self, b: &Batch) -> Result<(), KeepRefusal<K>>
        requires batch { IsBatch b.now }
        requires from { K.tells ≡ true → IsFrom b.now.from (K.tables self.old.inner) }
        ensures ok { K.tells ≡ true → OnOk result (K.tables self.new.inner ≡ committed b.now (K.tables self.old.inner)) }
        ensures err { K.tells ≡ true → OnErr result (K.tables self.new.inner ≡ K.tables self.old.inner) }
        ensures cause { HasRefusal KeepRefusal.Fault (K.faults self.old.inner) (K.faults self.new.inner) result }
    {
        match self.inner.commit(b) {
            Ok(()) => Ok(()),
            Err(KeepFault::Memory) => Err(KeepRefusal::Memory),
            Err(KeepFault::Failed) => Err(KeepRefusal::Fault(Fault { of: PhantomData })),
        }
    }

    /// Empties the stage.
    pub fn unstage(&mut self) -> Result<(), KeepRefusal<K>>
        ensures ok { K.tells ≡ true → OnOk result (K.tables self.new.inner ≡ unstaged (K.tables self.old.inner)) }
        ensures err { K.tells ≡ true → OnErr result (K.tables self.new.inner ≡ K.tables self.old.inner) }
        ensures cause { HasRefusal KeepRefusal.Fault (K.faults self.old.inner) (K.faults self.new.inner) result }
    {
        match self.inner.unstage() {
            Ok(()) => Ok(()),
            Err(KeepFault::Memory) => Err(KeepRefusal::Memory),
            Err(KeepFault::Failed) => Err(KeepRefusal::Fault(Fault { of: PhantomData })),
        }
    }

    /// Adds rows to the stage, each in place of a staged row of its key; of two rows of one key the
    /// later stands.
    pub fn stage(&mut self, rows: &Rows) -> Result<(), KeepRefusal<K>>
        requires stored { All (λ r. IsStored r.key r.stored) rows.now }
        ensures ok { K.tells ≡ true → OnOk result (K.tables self.new.inner ≡ staged rows.now (K.tables self.old.inner)) }
        ensures err { K.tells ≡ true → OnErr result (K.tables self.new.inner ≡ K.tables self.old.inner) }
        ensures cause { HasRefusal KeepRefusal.Fault (K.faults self.old.inner) (K.faults self.new.inner) result }
    {
        match self.inner.stage(rows) {
            Ok(()) => Ok(()),
            Err(KeepFault::Memory) => Err(KeepRefusal::Memory),
            Err(KeepFault::Failed) => Err(KeepRefusal::Fault(Fault { of: PhantomData })),
        }
    }

    /// Makes the staged rows the tables', at a round of at most 2^62 and with this history and these
    /// levels and creators, and empties the stage.
    pub fn adopt(
        &mut self,
        round: u64,
        h: &History,
        l: &Levels,
        c: &CreatorChanges,
    ) -> Result<(), KeepRefusal<K>>
        requires most { round ≤ 2 ^ 62 }
        requires versions { AreVersions h.now }
        requires levels { AreLevels l.now }
        ensures ok { K.tells ≡ true → OnOk result (K.tables self.new.inner ≡ adopted round h.now l.now c.now (K.tables self.old.inner)) }
        ensures err { K.tells ≡ true → OnErr result (K.tables self.new.inner ≡ K.tables self.old.inner) }
        ensures cause { HasRefusal KeepRefusal.Fault (K.faults self.old.inner) (K.faults self.new.inner) result }
    {
        match self.inner.adopt(round, h, l, c) {
            Ok(()) => Ok(()),
            Err(KeepFault::Memory) => Err(KeepRefusal::Memory),
            Err(KeepFault::Failed) => Err(KeepRefusal::Fault(Fault { of: PhantomData })),
        }
    }
}

impl<K: BlockKeeper> Counted<K> {
    /// The first and the last round, none where it has no block.
    pub fn span(&mut self) -> Result<Option<(u64, u64)>, KeepRefusal<K>>
        ensures rounds { K.rounds self.new.inner ≡ K.rounds self.old.inner }
        ensures same { K.tells self.new.inner → K.blocks self.new.inner ≡ K.blocks self.old.inner }
        ensures value { IfOk result (λ s. s ≡ ends_of (K.rounds self.old.inner)) }
        ensures told { K.tells self.new.inner → K.tells self.old.inner }
        ensures cause { HasRefusal KeepRefusal.Fault (K.faults self.old.inner) (K.faults self.new.inner) result }
    {
        match self.inner.span() {
            Ok(answer) => Ok(answer),
            Err(KeepFault::Memory) => Err(KeepRefusal::Memory),
            Err(KeepFault::Failed) => Err(KeepRefusal::Fault(Fault { of: PhantomData })),
        }
    }

    /// The bytes of a round, none exactly where it has no block of that round.
    pub fn get(&mut self, round: u64) -> Result<Option<Bytes>, KeepRefusal<K>>
        ensures rounds { K.rounds self.new.inner ≡ K.rounds self.old.inner }
        ensures same { K.tells self.new.inner → K.blocks self.new.inner ≡ K.blocks self.old.inner }
        ensures value { K.tells self.new.inner → IfOk result (λ b. b ≡ block_at (K.blocks self.old.inner) round) }
        ensures within { IfOk result (λ b. is_some b ≡ is_within (K.rounds self.old.inner) round) }
        ensures short { IfOk result (λ b. IfSome b (λ bytes. length bytes < 2 ^ 31)) }
        ensures told { K.tells self.new.inner → K.tells self.old.inner }
        ensures cause { HasRefusal KeepRefusal.Fault (K.faults self.old.inner) (K.faults self.new.inner) result }
    {
        match self.inner.get(round) {
            Ok(answer) => Ok(answer),
            Err(KeepFault::Memory) => Err(KeepRefusal::Memory),
            Err(KeepFault::Failed) => Err(KeepRefusal::Fault(Fault { of: PhantomData })),
        }
    }

    /// Adds the block of the next round, or of any round from 1 on where it has none. The round is
    /// at most 2^62, and its bytes are fewer than 2^31.
    pub fn append(&mut self, round: u64, bytes: &[u8]) -> Result<(), KeepRefusal<K>>
        requires next { Follows (K.rounds self.old.inner) round }
        requires most { round ≤ 2 ^ 62 }
        requires short { length bytes.now < 2 ^ 31 }
        ensures rounds { OnOk result (K.rounds self.new.inner ≡ and_round round (K.rounds self.old.inner)) }
        ensures stays { OnErr result (K.rounds self.new.inner ≡ K.rounds self.old.inner) }
        ensures ok { K.tells self.new.inner → OnOk result (K.blocks self.new.inner ≡ and_block round bytes.now (K.blocks self.old.inner)) }
        ensures err { K.tells self.new.inner → OnErr result (K.blocks self.new.inner ≡ K.blocks self.old.inner) }
        ensures told { K.tells self.new.inner → K.tells self.old.inner }
        ensures cause { HasRefusal KeepRefusal.Fault (K.faults self.old.inner) (K.faults self.new.inner) result }
    {
        match self.inner.append(round, bytes) {
            Ok(()) => Ok(()),
            Err(KeepFault::Memory) => Err(KeepRefusal::Memory),
            Err(KeepFault::Failed) => Err(KeepRefusal::Fault(Fault { of: PhantomData })),
        }
    }

    /// Forgets all blocks.
    pub fn clear(&mut self) -> Result<(), KeepRefusal<K>>
        ensures rounds { OnOk result ((K.rounds self.new.inner).count ≡ 0) }
        ensures stays { OnErr result (K.rounds self.new.inner ≡ K.rounds self.old.inner) }
        ensures ok { K.tells self.new.inner → OnOk result ((K.blocks self.new.inner).list ≡ []) }
        ensures err { K.tells self.new.inner → OnErr result (K.blocks self.new.inner ≡ K.blocks self.old.inner) }
        ensures told { K.tells self.new.inner → K.tells self.old.inner }
        ensures cause { HasRefusal KeepRefusal.Fault (K.faults self.old.inner) (K.faults self.new.inner) result }
    {
        match self.inner.clear() {
            Ok(()) => Ok(()),
            Err(KeepFault::Memory) => Err(KeepRefusal::Memory),
            Err(KeepFault::Failed) => Err(KeepRefusal::Fault(Fault { of: PhantomData })),
        }
    }
}
