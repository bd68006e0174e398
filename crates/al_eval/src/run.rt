//! The step of a block over a view.
ghost use Rattle.std.specs.Prelude.{◌≡◌, ◌≤◌, ◌<◌, ◌+◌, ◌^◌, ℕ, true, Ok, IfOk, IfSome, OnOk, map, sum_by, All};
ghost use Rattle.std.specs.Ordering.{nat_cmp};
ghost use Rattle.std.specs.List.Sorted.{IsStrictlySortedBy};
ghost use Rattle.al_base.specs.Keys.{address_cmp, key_cmp};
ghost use Rattle.al_block.specs.Hashes.{payset_hash_of};
ghost use Rattle.al_rows.specs.Rows.{IsKept, bare};
ghost use Rattle.al_tail.specs.Past.{entry_of, live};
ghost use Rattle.al_moves.specs.Created.{AreCreatorChanges, creator_change_of};
ghost use Rattle.al_moves.specs.Online.{AreOnlineChanges, online_change_of};
ghost use Rattle.al_overlay.specs.Work.{HasOneCreator};
ghost use Rattle.al_bodies.specs.Ranges.{EffectInRange};
ghost use Rattle.al_eval.specs.Sound.{AreInRange, Consistent, IsStep};
ghost use Rattle.al_eval.specs.State.{State, before_of};
ghost use Rattle.al_eval.specs.Refusals.{IsCounted};
ghost use Rattle.al_eval.specs.Groups.{size_of};
ghost use Rattle.al_eval.specs.Header.{counter_fault, payset_fault};
ghost use Rattle.al_eval.specs.Pool.{units_before};
ghost use Rattle.al_eval.specs.Steps.{block_rows};
ghost use Rattle.al_eval.specs.Answers.{AskOne, CreatorsFollow, Evals, IsDeltaOf, OnlineFollows, RunsWhere, Sees, TotalsFollow};
ghost use Rattle.al_eval.specs.Evaluated.{delta_in};

use crate::expiry::expire_all;
use crate::header::{header_fault, rewards_fault};
use crate::lent::Lent;
use crate::numbers::numbers_fit;
use crate::pool::{owed_by, pay_pool, rewards_due};
use crate::transact::all_items;
use crate::{Before, Entry, EvalRefusal, Tail};
use al_base::{CreatorChanges, Hash, OnlineChanges};
use al_block::{Block, Field, Header, header_hash, payset_hashes};
use al_deltas::RoundDelta;
use al_moves::{Stop, Work};
use al_rewards::Totals;
use al_rows::{Changes, RowView};
use al_tail::entries_with;
use std::alloc::{AllocError, Global};

/// What a block changes, and what is kept of its transactions.
#[derive(Drop)]
pub struct Evaluated {
    /// What it changes.
    pub delta: RoundDelta,
    /// What is kept of each of its transactions, in order.
    pub entries: Vec<Entry>,
}

// Whether the header's digest of the payset is not what is due.
fn payset_fault(block: &Block, digest: &Hash) -> Option<Field>
    requires { digest.now ≡ payset_hash_of block.now.items }
    ensures { result ≡ payset_fault block.now }
{
    if block.header.payset == *digest {
        None
    } else {
        Some(Field::Txn)
    }
}

// Whether the header's counter is not what is due.
fn counter_fault(header: &Header, counter: u64) -> Option<Field>
    ensures { result ≡ counter_fault header.now counter }
{
    if header.counter == counter {
        None
    } else {
        Some(Field::Tc)
    }
}

// The whole step over a work: what is kept of the transactions.
#[tactic(auto, unfolding(crate::specs::Steps::block_rows))]
fn block_rows<V: RowView>(
    alloc: Global,
    work: &mut Work<V>,
    before: &Before,
    units: u64,
    past: &Tail,
    block: &Block,
) -> Result<Vec<Entry>, EvalRefusal<V::Fault>>
    requires level { work.old.level ≡ block.now.header.level }
    requires round { work.old.round ≡ block.now.header.round }
    requires special { work.old.special ≡ before.now.chain.special }
    requires most { block.now.header.round ≤ 2 ^ 62 }
    requires effects { All (λ i. All EffectInRange i.effects) block.now.items }
    requires counted { before.now.header.counter + sum_by size_of block.now.items < 2 ^ 64 }
    ensures step { RunsWhere V.tells (AskOne work.old.block block.now.items) (block_rows before.now units past.now block.now work.old.now) work.old work.new result }
    ensures round { OnOk result (block.now.header.round ≡ before.now.header.round + 1) }
    ensures entries { IfOk result (λ es. es.items ≡ map (λ i. entry_of i.txn) block.now.items) }
{
    let header = &block.header;
    if let Some(field) = header_fault(before, header) {
        return Err(EvalRefusal::Header { field });
    }
    let due = rewards_due(work, before, header.round, units)?;
    if let Some(field) = rewards_fault(&due, header) {
        return Err(EvalRefusal::Header { field });
    }
    let pool = &before.chain.special.pool;
    pay_pool(work, pool, owed_by(before, units, header))?;
    let Ok(hashes) = payset_hashes(alloc, block) else {
        return Err(EvalRefusal::Memory);
    };
    if let Some(field) = payset_fault(block, &hashes.payset) {
        return Err(EvalRefusal::Header { field });
    }
    let Ok(entries) = entries_with(alloc, block.items.as_slice(), hashes.ids.as_slice()) else {
        return Err(EvalRefusal::Memory);
    };
    let counter = all_items(alloc, work, before, past, block, entries.as_slice())?;
    expire_all(work, &header.expired)?;
    match counter_fault(header, counter) {
        Some(field) => Err(EvalRefusal::Header { field }),
        None => Ok(entries),
    }
}

// What is kept of the transactions of a block, and what it changes beside rows: creators, and what
// consensus knows of accounts.
#[derive(Drop)]
struct Taken {
    entries: Vec<Entry>,
    creators: CreatorChanges,
    online: OnlineChanges,
}

// The creators that differ from before the block.
fn creators_in<V: RowView>(work: &mut Work<V>) -> Result<CreatorChanges, EvalRefusal<V::Fault>>
    ensures sees { Sees V.tells work.old work.new result }
    ensures changes { V.tells ≡ true → ((id : ℕ) → HasOneCreator work.old.block id) → IfOk result (λ cs. AreCreatorChanges work.old.block work.old.now (map creator_change_of cs)) }
    ensures ordered { IfOk result (λ cs. IsStrictlySortedBy nat_cmp (map (λ c. c.id) cs)) }
{
    match work.creators() {
        Ok(creators) => Ok(creators),
        Err(Stop::View(fault)) => Err(EvalRefusal::View(fault)),
        Err(Stop::Memory) => Err(EvalRefusal::Memory),
        Err(Stop::Rule(_)) => unreachable!(),
    }
}

// The whole step over a work, with what it changes beside rows.
fn run_block<V: RowView>(
    alloc: Global,
    work: &mut Work<V>,
    before: &Before,
    units: u64,
    past: &Tail,
    block: &Block,
) -> Result<Taken, EvalRefusal<V::Fault>>
    requires level { work.old.level ≡ block.now.header.level }
    requires round { work.old.round ≡ block.now.header.round }
    requires special { work.old.special ≡ before.now.chain.special }
    requires most { block.now.header.round ≤ 2 ^ 62 }
    requires effects { All (λ i. All EffectInRange i.effects) block.now.items }
    requires counted { before.now.header.counter + sum_by size_of block.now.items < 2 ^ 64 }
    ensures step { RunsWhere V.tells (AskOne work.old.block block.now.items) (block_rows before.now units past.now block.now work.old.now) work.old work.new result }
    ensures round { OnOk result (block.now.header.round ≡ before.now.header.round + 1) }
    ensures entries { IfOk result (λ t. t.entries.items ≡ map (λ i. entry_of i.txn) block.now.items) }
    ensures creators { V.tells ≡ true → ((id : ℕ) → HasOneCreator work.old.block id) → IfOk result (λ t. AreCreatorChanges work.old.block work.new.now (map creator_change_of t.creators)) }
    ensures ordered { IfOk result (λ t. IsStrictlySortedBy nat_cmp (map (λ c. c.id) t.creators)) }
    ensures online { V.tells ≡ true → IfOk result (λ t. AreOnlineChanges work.old.block work.new.now (map online_change_of t.online)) }
    ensures rising { IfOk result (λ t. IsStrictlySortedBy address_cmp (map (λ c. c.address) t.online)) }
{
    let entries = block_rows(alloc, work, before, units, past, block)?;
    let creators = creators_in(work)?;
    let Ok(online) = work.online() else {
        return Err(EvalRefusal::Memory);
    };
    Ok(Taken {
        entries,
        creators,
        online,
    })
}

// What a block changes, with its header.
fn delta_of(
    alloc: Global,
    block: &Block,
    changes: Result<Changes, AllocError>,
    creators: CreatorChanges,
    online: OnlineChanges,
    totals: Totals,
) -> Result<RoundDelta, AllocError>
    ensures changes { IfOk result (λ d. changes ≡ Ok d.changes) }
    ensures creators { IfOk result (λ d. d.creators ≡ creators) }
    ensures online { IfOk result (λ d. d.online ≡ online) }
    ensures header { IfOk result (λ d. IsDeltaOf block.now.header d) }
    ensures totals { IfOk result (λ d. d.totals ≡ totals) }
{
    let header = block.header.copy(alloc)?;
    Ok(RoundDelta {
        round: header.round,
        hash: header_hash(alloc, &header)?,
        header,
        changes: changes?,
        creators,
        totals,
        online,
    })
}

// The step over a view that is given back.
fn eval_over<V: RowView>(
    alloc: Global,
    view: V,
    before: &Before,
    past: &Tail,
    block: &Block,
    answer: &mut Result<Evaluated, EvalRefusal<V::Fault>>,
) -> V
    requires most { block.now.header.round ≤ 2 ^ 62 }
    requires effects { All (λ i. All EffectInRange i.effects) block.now.items }
    requires counted { before.now.header.counter + sum_by size_of block.now.items < 2 ^ 64 }
    ensures lender { V.lender result ≡ V.lender view }
    ensures same { V.tells ≡ true → V.rows result ≡ V.rows view }
    ensures step { V.tells ≡ true → AskOne (V.rows view) block.now.items → Evals (block_rows before.now (units_before before.now) past.now block.now (V.rows view)) (V.rows view) (delta_in answer.new) }
    ensures created { V.tells ≡ true → ((id : ℕ) → HasOneCreator (V.rows view) id) → CreatorsFollow (block_rows before.now (units_before before.now) past.now block.now (V.rows view)) (V.rows view) (delta_in answer.new) }
    ensures totals { V.tells ≡ true → AskOne (V.rows view) block.now.items → TotalsFollow (block_rows before.now (units_before before.now) past.now block.now (V.rows view)) before.now block.now.header (V.rows view) (delta_in answer.new) }
    ensures stakes { V.tells ≡ true → AskOne (V.rows view) block.now.items → OnlineFollows (block_rows before.now (units_before before.now) past.now block.now (V.rows view)) (V.rows view) (delta_in answer.new) }
    ensures cause { IsCounted answer.new (V.failures view) (V.failures result) }
    ensures entries { IfOk answer.new (λ e. e.entries.items ≡ map (λ i. entry_of i.txn) block.now.items) }
    ensures ordered { IfOk answer.new (λ e. IsStrictlySortedBy key_cmp (map (λ c. c.key) e.delta.changes)) }
    ensures kept { IfOk answer.new (λ e. All (λ c. IfSome c.row (IsKept c.key)) e.delta.changes) }
    ensures creators { IfOk answer.new (λ e. IsStrictlySortedBy nat_cmp (map (λ c. c.id) e.delta.creators)) }
    ensures online { IfOk answer.new (λ e. IsStrictlySortedBy address_cmp (map (λ c. c.address) e.delta.online)) }
    ensures header { IfOk answer.new (λ e. IsDeltaOf block.now.header e.delta) }
    ensures next { IfOk answer.new (λ e. e.delta.round ≡ before.now.header.round + 1) }
{
    let header = &block.header;
    let mut work = Work::new(
        alloc,
        view,
        before.chain.special,
        header.level,
        header.round,
    );
    let units = before.totals.units();
    let run = run_block(alloc, &mut work, before, units, past, block);
    let mut totals = before.totals;
    totals.raise(header.level);
    let totals = work.totals(&totals);
    let (changes, view) = work.end();
    *answer = match run {
        Err(refusal) => Err(refusal),
        Ok(taken) => {
            match delta_of(alloc, block, changes, taken.creators, taken.online, totals) {
                Ok(delta) => Ok(Evaluated {
                    delta,
                    entries: taken.entries,
                }),
                Err(_) => Err(EvalRefusal::Memory),
            }
        }
    };
    view
}

/// The step of a block over a view, as `eval` says, with what is kept of its transactions, so that
/// it need not be made again where the block is appended to the tail.
pub fn eval_with_entries<V: RowView>(
    alloc: Global,
    view: &mut V,
    before: &Before,
    tail: &Tail,
    block: &Block,
) -> Result<Evaluated, EvalRefusal<V::Fault>>
    requires most { block.now.header.round ≤ 2 ^ 62 }
    requires effects { All (λ i. All EffectInRange i.effects) block.now.items }
    requires counted { before.now.header.counter + sum_by size_of block.now.items < 2 ^ 64 }
    ensures step { V.tells ≡ true → AskOne (V.rows view.old) block.now.items → Evals (block_rows before.now (units_before before.now) tail.now block.now (V.rows view.old)) (V.rows view.old) (delta_in result) }
    ensures created { V.tells ≡ true → ((id : ℕ) → HasOneCreator (V.rows view.old) id) → CreatorsFollow (block_rows before.now (units_before before.now) tail.now block.now (V.rows view.old)) (V.rows view.old) (delta_in result) }
    ensures totals { V.tells ≡ true → AskOne (V.rows view.old) block.now.items → TotalsFollow (block_rows before.now (units_before before.now) tail.now block.now (V.rows view.old)) before.now block.now.header (V.rows view.old) (delta_in result) }
    ensures stakes { V.tells ≡ true → AskOne (V.rows view.old) block.now.items → OnlineFollows (block_rows before.now (units_before before.now) tail.now block.now (V.rows view.old)) (V.rows view.old) (delta_in result) }
    ensures sound { V.tells ≡ true → (s : State) → before.now ≡ before_of s → live block.now.header.round tail.now ≡ live block.now.header.round (map entry_of s.past) → V.rows view.old ≡ bare s.rows → Consistent s → IsStep s block.now (delta_in result) }
    ensures ranged { AreInRange block.now }
    ensures cause { IsCounted result (V.failures view.old) (V.failures view.new) }
    ensures same { V.tells ≡ true → V.rows view.new ≡ V.rows view.old }
    ensures entries { IfOk result (λ e. e.entries.items ≡ map (λ i. entry_of i.txn) block.now.items) }
    ensures ordered { IfOk result (λ e. IsStrictlySortedBy key_cmp (map (λ c. c.key) e.delta.changes)) }
    ensures kept { IfOk result (λ e. All (λ c. IfSome c.row (IsKept c.key)) e.delta.changes) }
    ensures creators { IfOk result (λ e. IsStrictlySortedBy nat_cmp (map (λ c. c.id) e.delta.creators)) }
    ensures online { IfOk result (λ e. IsStrictlySortedBy address_cmp (map (λ c. c.address) e.delta.online)) }
    ensures header { IfOk result (λ e. IsDeltaOf block.now.header e.delta) }
    ensures next { IfOk result (λ e. e.delta.round ≡ before.now.header.round + 1) }
{
    numbers_fit(block.items.as_slice());
    let mut answer = Err(EvalRefusal::Memory);
    let _lent = eval_over(alloc, Lent { view }, before, tail, block, &mut answer);
    answer
}

/// The step of a block over a view, as `eval` says, into an answer. The view is given by value and
/// comes back, so that what it reads through is known to be as the view leaves it.
pub fn eval_by_value<V: RowView>(
    alloc: Global,
    view: V,
    before: &Before,
    tail: &Tail,
    block: &Block,
    answer: &mut Result<Evaluated, EvalRefusal<V::Fault>>,
) -> V
    requires most { block.now.header.round ≤ 2 ^ 62 }
    requires effects { All (λ i. All EffectInRange i.effects) block.now.items }
    requires counted { before.now.header.counter + sum_by size_of block.now.items < 2 ^ 64 }
    ensures lender { V.lender result ≡ V.lender view }
    ensures sound { V.tells ≡ true → (s : State) → before.now ≡ before_of s → live block.now.header.round tail.now ≡ live block.now.header.round (map entry_of s.past) → V.rows view ≡ bare s.rows → Consistent s → IsStep s block.now (delta_in answer.new) }
    ensures ranged { AreInRange block.now }
    ensures cause { IsCounted answer.new (V.failures view) (V.failures result) }
    ensures same { V.tells ≡ true → V.rows result ≡ V.rows view }
    ensures entries { IfOk answer.new (λ e. e.entries.items ≡ map (λ i. entry_of i.txn) block.now.items) }
    ensures ordered { IfOk answer.new (λ e. IsStrictlySortedBy key_cmp (map (λ c. c.key) e.delta.changes)) }
    ensures kept { IfOk answer.new (λ e. All (λ c. IfSome c.row (IsKept c.key)) e.delta.changes) }
    ensures creators { IfOk answer.new (λ e. IsStrictlySortedBy nat_cmp (map (λ c. c.id) e.delta.creators)) }
    ensures online { IfOk answer.new (λ e. IsStrictlySortedBy address_cmp (map (λ c. c.address) e.delta.online)) }
    ensures header { IfOk answer.new (λ e. IsDeltaOf block.now.header e.delta) }
    ensures next { IfOk answer.new (λ e. e.delta.round ≡ before.now.header.round + 1) }
{
    numbers_fit(block.items.as_slice());
    eval_over(alloc, view, before, tail, block, answer)
}

/// The step of a block over a view: what it changes, or the first refusal. It follows the Algorand
/// ledger specification: first the header's fields, then the pool pays the rewards, then the digest
/// of the payset, then each group in order, then the accounts that are listed as expired, and last
/// the count of transactions. A group is looked at as a whole, and then each of its members in
/// order; a call of an application does what the effects that stand beside it say. `before` tells
/// the totals at the level of the last block; those of the delta are at the new level.
///
/// The effects are in the ranges of their records, and the count of all transactions of the chain,
/// with those of the block, fits into 64 bits, as of every decoded block over a decoded header.
///
/// What is said of the step asks that the rows have at most one creator of each id that the block
/// asks for. Over a consistent state, with what is known of it, and a tail with its live entries,
/// this is the ledger's step: the state after it is consistent, and the creators and what consensus
/// knows of accounts are those of its rows. Over a sound one all its money stays, the pool can
/// always pay, and the state after it is sound where it is apart.
pub fn eval<V: RowView>(
    alloc: Global,
    view: &mut V,
    before: &Before,
    tail: &Tail,
    block: &Block,
) -> Result<RoundDelta, EvalRefusal<V::Fault>>
    requires most { block.now.header.round ≤ 2 ^ 62 }
    requires effects { All (λ i. All EffectInRange i.effects) block.now.items }
    requires counted { before.now.header.counter + sum_by size_of block.now.items < 2 ^ 64 }
    ensures step { V.tells ≡ true → AskOne (V.rows view.old) block.now.items → Evals (block_rows before.now (units_before before.now) tail.now block.now (V.rows view.old)) (V.rows view.old) result }
    ensures created { V.tells ≡ true → ((id : ℕ) → HasOneCreator (V.rows view.old) id) → CreatorsFollow (block_rows before.now (units_before before.now) tail.now block.now (V.rows view.old)) (V.rows view.old) result }
    ensures totals { V.tells ≡ true → AskOne (V.rows view.old) block.now.items → TotalsFollow (block_rows before.now (units_before before.now) tail.now block.now (V.rows view.old)) before.now block.now.header (V.rows view.old) result }
    ensures stakes { V.tells ≡ true → AskOne (V.rows view.old) block.now.items → OnlineFollows (block_rows before.now (units_before before.now) tail.now block.now (V.rows view.old)) (V.rows view.old) result }
    ensures sound { V.tells ≡ true → (s : State) → before.now ≡ before_of s → live block.now.header.round tail.now ≡ live block.now.header.round (map entry_of s.past) → V.rows view.old ≡ bare s.rows → Consistent s → IsStep s block.now result }
    ensures ranged { AreInRange block.now }
    ensures cause { IsCounted result (V.failures view.old) (V.failures view.new) }
    ensures same { V.tells ≡ true → V.rows view.new ≡ V.rows view.old }
    ensures ordered { IfOk result (λ d. IsStrictlySortedBy key_cmp (map (λ c. c.key) d.changes)) }
    ensures kept { IfOk result (λ d. All (λ c. IfSome c.row (IsKept c.key)) d.changes) }
    ensures creators { IfOk result (λ d. IsStrictlySortedBy nat_cmp (map (λ c. c.id) d.creators)) }
    ensures online { IfOk result (λ d. IsStrictlySortedBy address_cmp (map (λ c. c.address) d.online)) }
    ensures header { IfOk result (IsDeltaOf block.now.header) }
    ensures next { IfOk result (λ d. d.round ≡ before.now.header.round + 1) }
{
    match eval_with_entries(alloc, view, before, tail, block) {
        Ok(evaluated) => Ok(evaluated.delta),
        Err(refusal) => Err(refusal),
    }
}
