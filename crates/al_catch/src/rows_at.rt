//! What a catchpoint is written from.
ghost use Rattle.std.specs.Prelude.{◌≡◌, ◌≤◌, ◌<◌, ◌^◌, ℕ, true, Bool, IfOk, length};
ghost use Rattle.std.specs.Option.{option_copied};
ghost use Rattle.al_rows.specs.Above.{AreRows, rows_above};
ghost use Rattle.al_catch.specs.Catching.{IsNotOvertaken, RowsCause, root_of_rows};

use al_base::{Bytes, Hash, Key};
use al_rewards::Totals;
use al_rows::Rows;

/// Why rows at a round are not given.
#[derive(Debug, Drop)]
pub enum RowsFault<F> {
    /// What holds them stands at this round by now, which is above the one that is asked.
    Overtaken { round: u64 },
    /// What holds them has failed.
    Failed(F),
    /// There is no memory.
    Memory,
}

/// The rows, the root and the totals after one round, the data round, and the blocks that are kept.
/// No call changes what it shows.
pub trait RowsAt {
    ghost use Rattle.std.specs.Prelude.{ℕ, Bool};
    ghost use Rattle.al_catch.specs.Catching.{Shown};

    type Fault: Drop;

    /// Whether it tells what it shows.
    ghost tells: { Bool };

    /// What it shows, where it tells.
    ghost shown: { Self → Shown };

    /// How often it was overtaken, and how often it has failed.
    ghost overtaken: { Self → ℕ };

    ghost failed: { Self → ℕ };

    /// It stands at the data round, and is not overtaken.
    ghost calm: { Self → Type 0 };

    /// The first rows above a key, or of all, in the order of keys: at most so many.
    fn rows_after(&mut self, after: Option<&Key>, max: u32) -> Result<Rows, RowsFault<Self::Fault>>
        ensures same { tells ≡ true → shown self.new ≡ shown self.old }
        ensures value { tells ≡ true → IfOk result (λ rows. rows ≡ rows_above (option_copied after.entry) max (shown self.old).rows) }
        ensures rows { IfOk result (AreRows (option_copied after.entry) max) }
        ensures calm { calm self.old → calm self.new × IsNotOvertaken result }
        ensures later { (overtaken self.old ≤ overtaken self.new) × (failed self.old ≤ failed self.new) }
        ensures cause { RowsCause (overtaken self.old) (overtaken self.new) (failed self.old) (failed self.new) result };

    /// The root of the rows, and the totals.
    fn root(&mut self) -> Result<(Hash, Totals), RowsFault<Self::Fault>>
        ensures same { tells ≡ true → shown self.new ≡ shown self.old }
        ensures value { tells ≡ true → IfOk result (λ r. (r.0 ≡ root_of_rows (shown self.old).rows) × (r.1 ≡ (shown self.old).totals)) }
        ensures calm { calm self.old → calm self.new × IsNotOvertaken result }
        ensures later { (overtaken self.old ≤ overtaken self.new) × (failed self.old ≤ failed self.new) }
        ensures cause { RowsCause (overtaken self.old) (overtaken self.new) (failed self.old) (failed self.new) result };

    /// The spelling of the block of a round; no bytes where it is not kept.
    fn block(&mut self, round: u64) -> Result<Bytes, RowsFault<Self::Fault>>
        ensures same { tells ≡ true → shown self.new ≡ shown self.old }
        ensures value { tells ≡ true → IfOk result (λ bytes. bytes ≡ (shown self.old).block round) }
        ensures short { IfOk result (λ bytes. length bytes < 2 ^ 31) }
        ensures calm { calm self.old → calm self.new }
        ensures free { IsNotOvertaken result }
        ensures later { (overtaken self.new ≡ overtaken self.old) × (failed self.old ≤ failed self.new) }
        ensures cause { RowsCause (overtaken self.old) (overtaken self.new) (failed self.old) (failed self.new) result };
}
