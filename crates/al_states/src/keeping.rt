//! What is kept of the blocks.
ghost use Rattle.std.specs.Prelude.{◌≡◌, ◌≤◌, ◌<◌, ◌+◌, ◌^◌, List, [], suc, All, ◌∷◌, ◌++◌, map, sum_by, OnOk, OnErr};
ghost use Rattle.al_bodies.specs.Ranges.{EffectInRange};
ghost use Rattle.al_deltas.specs.Queue.{IsKeptDelta, and_delta, last_of, top};
ghost use Rattle.al_online.specs.Memory.{IsEachOnce, and_round, top as last_round};
ghost use Rattle.al_tail.specs.Past.{entry_of};
ghost use Rattle.al_eval.specs.Groups.{size_of};
ghost use Rattle.al_eval.specs.Sound.{Consistent};
ghost use Rattle.al_eval.specs.State.{State, before_of};
ghost use Rattle.al_states.specs.Keeping.{EvaluatesTo, caught_up};

use al_block::Block;
use al_deltas::{Deltas, KeptRows, RoundDelta};
use al_eval::{Before, Entry, EvalRefusal, Evaluated, Tail, eval_with_entries};
use al_online::OnlineMemory;
use al_rows::Never;
use std::alloc::{AllocError, Global};

/// A block that was accepted, and the bytes that spell it.
#[derive(Drop)]
pub struct KeptBlock {
    pub(crate) block: Block,
    pub(crate) bytes: Vec<u8>,
}

// Puts what the last block changes over the newest rows, once more where it was put before, and
// makes their index of creators where they have none. After a refusal it may be called again.
pub(crate) fn catch_up(newest: &mut KeptRows, deltas: &Deltas) -> Result<(), AllocError>
    requires { All IsKeptDelta deltas.now.deltas }
    ensures ok { OnOk result (newest.new ≡ caught_up (last_of deltas.now.deltas) newest.old) }
    ensures again { caught_up (last_of deltas.now.deltas) newest.new ≡ caught_up (last_of deltas.now.deltas) newest.old }
{
    put_last(newest, deltas)?;
    newest.index()
}

// Puts what the last block changes over the newest rows.
fn put_last(newest: &mut KeptRows, deltas: &Deltas) -> Result<(), AllocError>
    requires { All IsKeptDelta deltas.now.deltas }
    ensures ok { OnOk result (newest.new ≡ caught_up (last_of deltas.now.deltas) newest.old) }
    ensures again { caught_up (last_of deltas.now.deltas) newest.new ≡ caught_up (last_of deltas.now.deltas) newest.old }
{
    match deltas.last() {
        Some(delta) => newest.apply(delta),
        None => Ok(()),
    }
}

// What a block changes over the newest rows, or why it is refused.
pub(crate) fn evaluate(
    alloc: Global,
    newest: &KeptRows,
    before: &Before,
    tail: &Tail,
    block: &Block,
) -> Result<Evaluated, EvalRefusal<Never>>
    requires round { block.now.header.round ≤ 2 ^ 62 }
    requires effects { All (λ i. All EffectInRange i.effects) block.now.items }
    requires counted { before.now.header.counter + sum_by size_of block.now.items < 2 ^ 64 }
    ensures { (s : State) → before.now ≡ before_of s → tail.now ≡ map entry_of s.past → newest.now ≡ s.rows → Consistent s → EvaluatesTo s block.now result }
{
    let mut view = newest.view();
    eval_with_entries(alloc, &mut view, before, tail, block)
}

// Keeps a block with its transactions: both, or neither.
fn keep_block(
    kept: &mut Vec<KeptBlock>,
    tail: &mut Tail,
    next: KeptBlock,
    entries: &[Entry],
) -> Result<(), AllocError>
    ensures ok { OnOk result ((kept.new.items ≡ kept.old.items ++ next ∷ []) × (tail.new ≡ tail.old ++ entries.now)) }
    ensures err { OnErr result ((kept.new.items ≡ kept.old.items) × (tail.new ≡ tail.old)) }
{
    kept.push(next)?;
    match tail.append(entries) {
        Ok(()) => Ok(()),
        Err(refused) => {
            kept.pop();
            Err(refused)
        }
    }
}

// Takes the last block back, with its transactions.
fn take_back(kept: &mut Vec<KeptBlock>, tail: &mut Tail)
    requires { (blocks : List KeptBlock) × (last : KeptBlock) × (entries : List Entry) × (kept.old.items ≡ blocks ++ last ∷ []) × (tail.old ≡ entries ++ map (λ i. entry_of i.txn) last.block.items) }
    ensures { (blocks : List KeptBlock) (last : KeptBlock) (entries : List Entry) → kept.old.items ≡ blocks ++ last ∷ [] → tail.old ≡ entries ++ map (λ i. entry_of i.txn) last.block.items → (kept.new.items ≡ blocks) × (tail.new ≡ entries) }
{
    if let Some(last) = kept.pop() {
        tail.take_back(&last.block);
    }
}

// Keeps what a block changes, and what consensus may ask of its round: both, or neither.
fn keep_delta(
    deltas: &mut Deltas,
    online: &mut OnlineMemory,
    delta: RoundDelta,
) -> Result<(), AllocError>
    requires round { delta.round ≡ suc (top deltas.old) }
    requires most { delta.round ≤ 2 ^ 62 }
    requires changes { IsKeptDelta delta }
    requires next { delta.round ≡ suc (last_round online.old) }
    requires once { IsEachOnce delta.online }
    ensures ok { OnOk result ((deltas.new ≡ and_delta delta deltas.old) × (online.new ≡ and_round delta.header.level delta.online online.old) × (last_round online.new ≡ delta.round)) }
    ensures err { OnErr result ((deltas.new ≡ deltas.old) × (online.new ≡ online.old)) }
{
    online.push(delta.round, delta.header.level, &delta.online)?;
    match deltas.push(delta) {
        Ok(()) => Ok(()),
        Err(refused) => {
            online.take_back();
            Err(refused)
        }
    }
}

// Keeps a block with its transactions, what it changes, and what consensus may ask of its round:
// all, or nothing.
pub(crate) fn keep(
    kept: &mut Vec<KeptBlock>,
    tail: &mut Tail,
    deltas: &mut Deltas,
    online: &mut OnlineMemory,
    next: KeptBlock,
    evaluated: Evaluated,
) -> Result<(), AllocError>
    requires round { evaluated.delta.round ≡ suc (top deltas.old) }
    requires most { evaluated.delta.round ≤ 2 ^ 62 }
    requires changes { IsKeptDelta evaluated.delta }
    requires follows { evaluated.delta.round ≡ suc (last_round online.old) }
    requires once { IsEachOnce evaluated.delta.online }
    requires entries { evaluated.entries.items ≡ map (λ i. entry_of i.txn) next.block.items }
    ensures ok { OnOk result ((kept.new.items ≡ kept.old.items ++ next ∷ []) × (tail.new ≡ tail.old ++ map (λ i. entry_of i.txn) next.block.items) × (deltas.new ≡ and_delta evaluated.delta deltas.old) × (online.new ≡ and_round evaluated.delta.header.level evaluated.delta.online online.old) × (last_round online.new ≡ evaluated.delta.round)) }
    ensures err { OnErr result ((kept.new.items ≡ kept.old.items) × (tail.new ≡ tail.old) × (deltas.new ≡ deltas.old) × (online.new ≡ online.old)) }
{
    keep_block(kept, tail, next, evaluated.entries.as_slice())?;
    match keep_delta(deltas, online, evaluated.delta) {
        Ok(()) => Ok(()),
        Err(refused) => {
            take_back(kept, tail);
            Err(refused)
        }
    }
}
