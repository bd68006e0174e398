//! The step of a block over the rows after the last round.
ghost use Rattle.std.specs.Prelude.{◌≡◌, ◌≤◌, ◌<◌, ◌+◌, ◌^◌, true, All, IfOk, sum_by};
ghost use Rattle.al_bodies.specs.Ranges.{EffectInRange};
ghost use Rattle.al_deltas.specs.Net.{creators_after};
ghost use Rattle.al_deltas.specs.Queue.{rows_after};
ghost use Rattle.al_eval.specs.Groups.{size_of};
ghost use Rattle.al_eval.specs.Sound.{Consistent};
ghost use Rattle.al_eval.specs.State.{State, before_of};
ghost use Rattle.al_keeper.specs.Refusals.{HasRefusal};
ghost use Rattle.al_ledger.specs.Creators.{AreCreatorsOf};
ghost use Rattle.al_ledger.specs.Evaluating.{Evaluates, IsTakable};
ghost use Rattle.al_tail.specs.Past.{entry_of, live};

use crate::Recent;
use crate::view::{LedgerView, Seen};
use al_block::Block;
use al_eval::{EvalRefusal, Evaluated, eval_by_value};
use al_keeper::{Counted, Fault, TableKeeper};
use std::marker::Brand;

// The step of a block, for whatever the tables are and whether they are told.
fn evaluate_seen<K: TableKeeper, N: Seen>(
    recent: &Recent,
    tables: &mut Counted<K>,
    block: &Block,
) -> Result<Evaluated, EvalRefusal<Fault<K>>>
    requires most { block.now.header.round ≤ 2 ^ 62 }
    requires effects { All (λ i. All EffectInRange i.effects) block.now.items }
    requires counted { recent.now.before.header.counter + sum_by size_of block.now.items < 2 ^ 64 }
    requires failures { N.failures ≡ K.faults tables.old.inner }
    requires told { N.telling ≡ true → K.tells ≡ true }
    requires seen { K.tells ≡ true → K.tables tables.old.inner ≡ N.tables }
    requires creators { N.telling ≡ true → AreCreatorsOf (rows_after recent.now.deltas.deltas N.tables.rows) (creators_after recent.now.deltas.deltas N.tables.creators) }
    ensures same { K.tells ≡ true → K.tables tables.new.inner ≡ N.tables }
    ensures evaluates { N.telling ≡ true → Evaluates recent.now N.tables.rows block.now result }
    ensures takable { IfOk result (IsTakable block.now) }
    ensures cause { HasRefusal EvalRefusal.View (K.faults tables.old.inner) (K.faults tables.new.inner) result }
{
    let view = LedgerView::<K, N>::new(recent.alloc, &recent.deltas, tables);
    let mut answer = Err(EvalRefusal::Memory);
    let _view = eval_by_value(
        recent.alloc,
        view,
        &recent.before,
        &recent.tail,
        block,
        &mut answer,
    );
    answer
}

/// The step of a block over the rows after the last round: what it changes, with what is kept of its
/// transactions. Nothing changes. Where the creators in the tables are those of their rows, it is the
/// step over each consistent state that these rows and what the step begins with are of.
///
/// The block's round is at most 2^62, its effects are in the ranges of their records, and the count of
/// all transactions of the chain, with those of the block, fits into 64 bits, as of every decoded block
/// over a decoded header.
///
/// # Errors
///
/// `View` where the keeper of the tables fails, which it counts; `Memory` where there is none; else
/// the rule that the block breaks.
pub fn evaluate<K: TableKeeper>(
    recent: &Recent,
    tables: &mut Counted<K>,
    block: &Block,
) -> Result<Evaluated, EvalRefusal<Fault<K>>>
    requires most { block.now.header.round ≤ 2 ^ 62 }
    requires effects { All (λ i. All EffectInRange i.effects) block.now.items }
    requires counted { recent.now.before.header.counter + sum_by size_of block.now.items < 2 ^ 64 }
    ensures same { K.tells ≡ true → K.tables tables.new.inner ≡ K.tables tables.old.inner }
    ensures evaluates { K.tells ≡ true → AreCreatorsOf (rows_after recent.now.deltas.deltas (K.tables tables.old.inner).rows) (creators_after recent.now.deltas.deltas (K.tables tables.old.inner).creators) → Evaluates recent.now (K.tables tables.old.inner).rows block.now result }
    ensures takable { IfOk result (IsTakable block.now) }
    ensures cause { HasRefusal EvalRefusal.View (K.faults tables.old.inner) (K.faults tables.new.inner) result }
{
    evaluate_seen::<K, Brand>(recent, tables, block)
}
