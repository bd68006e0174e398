//! What a catchpoint is written from: the newest rows, and the bytes of the blocks.
ghost use Rattle.std.specs.Prelude.{◌≡◌, ◌<◌, ◌^◌, length, Ok, IfOk, OnOk};
ghost use Rattle.std.specs.Option.{option_copied};
ghost use Rattle.al_eval.specs.State.{State, counts_in, replay};
ghost use Rattle.al_rows.specs.Above.{AreRows, rows_above};
ghost use Rattle.al_states.specs.Keeping.{IsNewest, IsStates, held};
ghost use Rattle.al_states.specs.Spellings.{spelling_at};

use crate::States;
use crate::keeping::catch_up;
use al_base::Key;
use al_rewards::Totals;
use al_rows::Rows;
use std::alloc::AllocError;

impl States {
    /// From one round with a catchpoint to the next; with 0 no round has one.
    pub fn catch_interval(&self) -> u64
        requires { IsStates self.now }
        ensures { result ≡ (held self.now).origin.chain.catch_interval }
    {
        self.before.chain.catch_interval
    }

    /// Puts what the last block changes over the newest rows, where it or a part of it lacks.
    ///
    /// # Errors
    ///
    /// Only where memory is short; it may be called again.
    pub fn settle(&mut self) -> Result<(), AllocError>
        requires { IsStates self.old }
        ensures states { IsStates self.new }
        ensures held { held self.new ≡ held self.old }
        ensures newest { OnOk result (IsNewest self.new) }
    {
        catch_up(&mut self.newest, &self.deltas)
    }

    /// Copies of the first rows after the last block above a key, or of all, in the order of keys:
    /// at most so many.
    ///
    /// # Errors
    ///
    /// Only where memory is short.
    pub fn rows_above(&self, after: Option<&Key>, max: u32) -> Result<Rows, AllocError>
        requires states { IsStates self.now }
        requires newest { IsNewest self.now }
        ensures rows { IfOk result (λ rows. (s : State) → replay (held self.now).origin (held self.now).blocks ≡ Ok s → rows ≡ rows_above (option_copied after.entry) max s.rows) }
        ensures kept { IfOk result (AreRows (option_copied after.entry) max) }
    {
        self.newest.rows_above(after, max)
    }

    /// The money and the units of all accounts after the last block.
    pub fn totals(&self) -> Totals
        requires { IsStates self.now }
        ensures { (s : State) → replay (held self.now).origin (held self.now).blocks ≡ Ok s → result ≡ counts_in s }
    {
        self.before.totals
    }

    /// The bytes of the block of a round, from 1 on; none where none is held.
    pub fn block_bytes(&self, round: u64) -> &[u8]
        requires { IsStates self.now }
        ensures bytes { result.now ≡ spelling_at (held self.now).blocks round }
        ensures short { length result.now < 2 ^ 31 }
    {
        if round == 0 {
            return &[];
        }
        if self.front() < round {
            return &[];
        }
        let kept = &self.kept[round as usize - 1];
        kept.bytes.as_slice()
    }
}
