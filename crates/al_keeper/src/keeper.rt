//! What keeps the tables of a round, and what keeps the blocks.
ghost use Rattle.std.specs.Prelude.{◌≡◌, ◌≤◌, ◌<◌, ◌^◌, ℕ, true, false, Bool, Option, All, IfOk, IfSome, OnOk, OnErr, is_some, length, []};
ghost use Rattle.std.specs.Option.{option_copied};
ghost use Rattle.std.specs.FinMap.{get};
ghost use Rattle.al_rows.specs.Above.{AreRows, IsStored, rows_above};
ghost use Rattle.al_tables.specs.Tables.{AreLevels, AreVersions, IsBatch, IsFrom, adopted, committed, staged, unstaged};
ghost use Rattle.al_keeper.specs.Causes.{HasFault};
ghost use Rattle.al_keeper.specs.Blocks.{Follows, and_block, and_round, block_at, ends_of, is_within, span_of};

use crate::{KeepFault, MayFail};
use al_base::{Address, Bytes, CreatorChanges, History, Key, Levels};
use al_rows::{Rows, Stored};
use al_tables::Batch;

/// What keeps the tables of a round: the rows, the creators, the history of online accounts with the
/// reward levels, and a stage for rows that are to become the tables'. A keeper that tells its tables
/// answers by them. Told or not, each row that it gives may be stored under its key.
///
/// Each call answers `Failed` only where the keeper counted a fault in it, and `Memory` for want of
/// memory; after either the tables are as before.
pub trait TableKeeper: MayFail + Drop {
    ghost use Rattle.std.specs.Prelude.{Bool, ℕ};
    ghost use Rattle.al_tables.specs.Tables.{Tables};

    /// Whether it tells its tables.
    ghost tells: { Bool };

    /// Its tables, where it tells them.
    ghost tables: { Self → Tables };

    /// How many faults it has counted.
    ghost faults: { Self → ℕ };

    /// The round of the tables, none where they stand at none.
    fn round(&mut self) -> Result<Option<u64>, KeepFault>
        ensures same { tells ≡ true → tables self.new ≡ tables self.old }
        ensures value { tells ≡ true → IfOk result (λ r. r ≡ (tables self.old).round) }
        ensures cause { HasFault (faults self.old) (faults self.new) result };

    /// The row under a key, with the round of its last change.
    fn row(&mut self, key: &Key) -> Result<Option<Stored>, KeepFault>
        ensures same { tells ≡ true → tables self.new ≡ tables self.old }
        ensures value { tells ≡ true → IfOk result (λ s. s ≡ get (tables self.old).rows key.now) }
        ensures kept { IfOk result (λ s. IfSome s (IsStored key.now)) }
        ensures cause { HasFault (faults self.old) (faults self.new) result };

    /// The creator of an asset or an application.
    fn creator(&mut self, id: u64) -> Result<Option<Address>, KeepFault>
        ensures same { tells ≡ true → tables self.new ≡ tables self.old }
        ensures value { tells ≡ true → IfOk result (λ who. who ≡ get (tables self.old).creators id) }
        ensures cause { HasFault (faults self.old) (faults self.new) result };

    /// The first rows above a key, or of all, in the order of keys: at most so many.
    fn rows_after(&mut self, after: Option<&Key>, max: u32) -> Result<Rows, KeepFault>
        ensures same { tells ≡ true → tables self.new ≡ tables self.old }
        ensures value { tells ≡ true → IfOk result (λ rows. rows ≡ rows_above (option_copied after.entry) max (tables self.old).rows) }
        ensures rows { IfOk result (AreRows (option_copied after.entry) max) }
        ensures cause { HasFault (faults self.old) (faults self.new) result };

    /// The history of online accounts, and the levels, in the order in which they were added.
    fn history(&mut self) -> Result<(History, Levels), KeepFault>
        ensures same { tells ≡ true → tables self.new ≡ tables self.old }
        ensures value { tells ≡ true → IfOk result (λ h. (h.0 ≡ (tables self.old).history) × (h.1 ≡ (tables self.old).levels)) }
        ensures cause { HasFault (faults self.old) (faults self.new) result };

    /// Makes all of a batch's changes, or none. A batch without a `from` replaces everything and
    /// empties the stage; any other needs tables of its `from` and leaves the stage. Versions and
    /// levels that no round from 320 below the new one on needs are forgotten.
    fn commit(&mut self, b: &Batch) -> Result<(), KeepFault>
        requires batch { IsBatch b.now }
        requires from { tells ≡ true → IsFrom b.now.from (tables self.old) }
        ensures ok { tells ≡ true → OnOk result (tables self.new ≡ committed b.now (tables self.old)) }
        ensures err { tells ≡ true → OnErr result (tables self.new ≡ tables self.old) }
        ensures cause { HasFault (faults self.old) (faults self.new) result };

    /// Empties the stage.
    fn unstage(&mut self) -> Result<(), KeepFault>
        ensures ok { tells ≡ true → OnOk result (tables self.new ≡ unstaged (tables self.old)) }
        ensures err { tells ≡ true → OnErr result (tables self.new ≡ tables self.old) }
        ensures cause { HasFault (faults self.old) (faults self.new) result };

    /// Adds rows to the stage, each in place of a staged row of its key; of two rows of one key the
    /// later stands.
    fn stage(&mut self, rows: &Rows) -> Result<(), KeepFault>
        requires stored { All (λ r. IsStored r.key r.stored) rows.now }
        ensures ok { tells ≡ true → OnOk result (tables self.new ≡ staged rows.now (tables self.old)) }
        ensures err { tells ≡ true → OnErr result (tables self.new ≡ tables self.old) }
        ensures cause { HasFault (faults self.old) (faults self.new) result };

    /// Makes the staged rows the tables', at a round of at most 2^62 and with this history and these
    /// levels and creators, and empties the stage.
    fn adopt(
        &mut self,
        round: u64,
        h: &History,
        l: &Levels,
        c: &CreatorChanges,
    ) -> Result<(), KeepFault>
        requires most { round ≤ 2 ^ 62 }
        requires versions { AreVersions h.now }
        requires levels { AreLevels l.now }
        ensures ok { tells ≡ true → OnOk result (tables self.new ≡ adopted round h.now l.now c.now (tables self.old)) }
        ensures err { tells ≡ true → OnErr result (tables self.new ≡ tables self.old) }
        ensures cause { HasFault (faults self.old) (faults self.new) result };

    /// One that may not fail has counted nothing.
    ghost sure: { (k : Self) → Self.CAN_FAIL ≡ false → faults k ≡ 0 };
}

/// What keeps the bytes of the blocks of consecutive rounds. Every keeper tells which rounds these
/// are; one that tells its blocks answers by them.
///
/// Each call answers `Failed` only where the keeper counted a fault in it, and `Memory` for want of
/// memory; after either it has the rounds that it had.
pub trait BlockKeeper: MayFail + Drop {
    ghost use Rattle.std.specs.Prelude.{Bool, ℕ};
    ghost use Rattle.al_keeper.specs.Blocks.{Blocks, Span};

    /// Whether it tells its blocks. That may fall at any call, and does not come back.
    ghost tells: { Self → Type 0 };

    /// Whether it tells them for good.
    ghost steady: { Bool };

    /// Its blocks, where it tells them.
    ghost blocks: { Self → Blocks };

    /// Which rounds it has.
    ghost rounds: { Self → Span };

    /// How many faults it has counted.
    ghost faults: { Self → ℕ };

    /// The first and the last round, none where it has no block.
    fn span(&mut self) -> Result<Option<(u64, u64)>, KeepFault>
        ensures rounds { rounds self.new ≡ rounds self.old }
        ensures same { tells self.new → blocks self.new ≡ blocks self.old }
        ensures value { IfOk result (λ s. s ≡ ends_of (rounds self.old)) }
        ensures told { tells self.new → tells self.old }
        ensures cause { HasFault (faults self.old) (faults self.new) result };

    /// The bytes of a round, none exactly where it has no block of that round.
    fn get(&mut self, round: u64) -> Result<Option<Bytes>, KeepFault>
        ensures rounds { rounds self.new ≡ rounds self.old }
        ensures same { tells self.new → blocks self.new ≡ blocks self.old }
        ensures value { tells self.new → IfOk result (λ b. b ≡ block_at (blocks self.old) round) }
        ensures within { IfOk result (λ b. is_some b ≡ is_within (rounds self.old) round) }
        ensures short { IfOk result (λ b. IfSome b (λ bytes. length bytes < 2 ^ 31)) }
        ensures told { tells self.new → tells self.old }
        ensures cause { HasFault (faults self.old) (faults self.new) result };

    /// Adds the block of the next round, or of any round from 1 on where it has none. The round is
    /// at most 2^62, and its bytes are fewer than 2^31.
    fn append(&mut self, round: u64, bytes: &[u8]) -> Result<(), KeepFault>
        requires next { Follows (rounds self.old) round }
        requires most { round ≤ 2 ^ 62 }
        requires short { length bytes.now < 2 ^ 31 }
        ensures rounds { OnOk result (rounds self.new ≡ and_round round (rounds self.old)) }
        ensures stays { OnErr result (rounds self.new ≡ rounds self.old) }
        ensures ok { tells self.new → OnOk result (blocks self.new ≡ and_block round bytes.now (blocks self.old)) }
        ensures err { tells self.new → OnErr result (blocks self.new ≡ blocks self.old) }
        ensures told { tells self.new → tells self.old }
        ensures cause { HasFault (faults self.old) (faults self.new) result };

    /// Forgets all blocks.
    fn clear(&mut self) -> Result<(), KeepFault>
        ensures rounds { OnOk result ((rounds self.new).count ≡ 0) }
        ensures stays { OnErr result (rounds self.new ≡ rounds self.old) }
        ensures ok { tells self.new → OnOk result ((blocks self.new).list ≡ []) }
        ensures err { tells self.new → OnErr result (blocks self.new ≡ blocks self.old) }
        ensures told { tells self.new → tells self.old }
        ensures cause { HasFault (faults self.old) (faults self.new) result };

    /// The rounds that it has are those of its blocks.
    ghost spans: { (k : Self) → tells k → rounds k ≡ span_of (blocks k) };

    /// One that tells its blocks for good tells them.
    ghost steadily: { (k : Self) → steady ≡ true → tells k };

    /// One that may not fail has counted nothing.
    ghost sure: { (k : Self) → Self.CAN_FAIL ≡ false → faults k ≡ 0 };
}
