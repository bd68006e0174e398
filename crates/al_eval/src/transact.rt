//! A transaction over the rows changed so far.
ghost use Rattle.std.specs.Prelude.{◌≡◌, ◌<◌, ◌+◌, ◌^◌, ◌++◌, ◌∷◌, [], OnOk, All, map, sum_by, true};
ghost use Rattle.al_overlay.specs.Work.{DoesWhere, IsDone};
ghost use Rattle.al_bodies.specs.Ranges.{EffectInRange};
ghost use Rattle.al_tail.specs.Past.{entry_of, later_of};
ghost use Rattle.al_eval.specs.Items.{all_items, applied, at_place, held_until, id_fault, item_fault, lease_fault, transacted, window_fault};
ghost use Rattle.al_eval.specs.Body.{AsksOne, done_by};
ghost use Rattle.al_eval.specs.Groups.{size_of};
ghost use Rattle.al_eval.specs.Turns.{context};
ghost use Rattle.al_eval.specs.Answers.{AskOne, RunsAll, RunsWhere};

use crate::group::{open, size_of};
use crate::{Before, Entry, EvalRefusal, Tail};
use al_block::Block;
use al_moves::{Rule, Stop, Work};
use al_resources::{apply_effects, configure, freeze, transfer};
use al_rows::RowView;
use al_txn::{Body, Chain, Item, Txn};
use std::alloc::Global;

/// Where a transaction stands.
#[derive(Clone, Copy)]
pub struct Turn<'a> {
    /// The round of its block.
    pub round: u64,
    /// The number that it gives to what it creates.
    pub next: u64,
    /// Its entry of the payset.
    pub item: &'a Item,
    /// What is kept of it.
    pub entry: &'a Entry,
}

// 32, 33: the round is outside the transaction's rounds.
fn window_fault(round: u64, txn: &Txn) -> Option<Rule>
    ensures { result ≡ window_fault round txn.now }
{
    if round < txn.first {
        return Some(Rule::plain(32));
    }
    if round > txn.last {
        return Some(Rule::plain(33));
    }
    None
}

// 30: the transaction stands in the chain, or earlier in the block.
#[tactic(auto, using(al_tail::proofs::Lives::id_both))]
fn id_fault(round: u64, past: &Tail, seen: &Tail, entry: &Entry) -> Option<Rule>
    ensures { result ≡ id_fault round (past.now ++ seen.now) entry.now }
{
    if past.has_id(round, &entry.id) || seen.has_id(round, &entry.id) {
        Some(Rule::plain(30))
    } else {
        None
    }
}

// The later of two rounds that may be there.
fn later_of(a: Option<u64>, b: Option<u64>) -> Option<u64>
    ensures { result ≡ later_of a b }
{
    match (a, b) {
        (Some(a), Some(b)) => Some(a.max(b)),
        (Some(a), None) => Some(a),
        (None, b) => b,
    }
}

// The last round that a lease is held by the chain, or earlier in the block.
#[tactic(auto, using(al_tail::proofs::Lives::lease_both))]
fn held_until(round: u64, past: &Tail, seen: &Tail, entry: &Entry) -> Option<u64>
    ensures { result ≡ held_until round (past.now ++ seen.now) entry.now }
{
    if entry.has_no_lease() {
        return None;
    }
    later_of(
        past.lease_until(round, &entry.sender, &entry.lease),
        seen.lease_until(round, &entry.sender, &entry.lease),
    )
}

// 31: the sender's lease is held.
fn lease_fault(round: u64, past: &Tail, seen: &Tail, entry: &Entry) -> Option<Rule>
    ensures { result ≡ lease_fault round (past.now ++ seen.now) entry.now }
{
    match held_until(round, past, seen, entry) {
        Some(until) => Some(Rule::held_until(31, until)),
        None => None,
    }
}

// The first rule that a member of a group breaks before it changes anything.
#[tactic(auto, unfolding(crate::specs::Items::item_fault))]
fn item_fault(past: &Tail, seen: &Tail, turn: &Turn<'_>) -> Option<Rule>
    requires { turn.now.entry.now ≡ entry_of turn.now.item.now.txn }
    ensures { result ≡ item_fault turn.now.round (past.now ++ seen.now) turn.now.item.now }
{
    if let Some(rule) = window_fault(turn.round, &turn.item.txn) {
        return Some(rule);
    }
    if let Some(rule) = id_fault(turn.round, past, seen, turn.entry) {
        return Some(rule);
    }
    lease_fault(turn.round, past, seen, turn.entry)
}

// The body of a transaction.
fn do_body<V: RowView>(
    alloc: Global,
    work: &mut Work<V>,
    turn: &Turn<'_>,
) -> Result<(), Stop<V::Fault>>
    requires round { work.old.round ≡ turn.now.round }
    requires effects { All EffectInRange turn.now.item.now.effects }
    ensures { DoesWhere V.tells (AsksOne work.old.block turn.now.item.now) (done_by turn.now.item.now.txn.body (context work.old.level turn.now) work.old.now) work.old work.new result }
{
    let txn = &turn.item.txn;
    match &txn.body {
        Body::Pay(p) => work.pay(&txn.sender, p),
        Body::Config(c) => configure(alloc, work, &txn.sender, c, turn.next),
        Body::Move(m) => transfer(work, &txn.sender, m),
        Body::Freeze(f) => freeze(work, &txn.sender, f),
        Body::KeyReg(k) => work.keyreg(&txn.sender, k),
        Body::App(call) => apply_effects(
            alloc,
            work,
            &txn.sender,
            call,
            &turn.item.effects,
            turn.next,
        ),
    }
}

// What a transaction does: its fee, its rekey, its body, and then the minimum balances.
#[tactic(auto, unfolding(crate::specs::Items::applied))]
fn apply<V: RowView>(
    alloc: Global,
    work: &mut Work<V>,
    chain: &Chain,
    turn: &Turn<'_>,
) -> Result<(), Stop<V::Fault>>
    requires special { work.old.special ≡ chain.now.special }
    requires round { work.old.round ≡ turn.now.round }
    requires effects { All EffectInRange turn.now.item.now.effects }
    ensures { IsDone V.tells (AsksOne work.old.block turn.now.item.now) (applied chain.now (context work.old.level turn.now) work.old.now) work.old work.new result }
{
    let txn = &turn.item.txn;
    work.begin();
    work.move_algos(&txn.sender, &chain.special.sink, txn.fee)?;
    work.rekey(&txn.sender, &txn.rekey)?;
    do_body(alloc, work, turn)?;
    work.check_minimum()
}

// A whole transaction.
#[tactic(auto, unfolding(crate::specs::Items::transacted))]
fn transact<V: RowView>(
    alloc: Global,
    work: &mut Work<V>,
    chain: &Chain,
    past: &Tail,
    seen: &Tail,
    turn: &Turn<'_>,
) -> Result<(), Stop<V::Fault>>
    requires special { work.old.special ≡ chain.now.special }
    requires round { work.old.round ≡ turn.now.round }
    requires entry { turn.now.entry.now ≡ entry_of turn.now.item.now.txn }
    requires effects { All EffectInRange turn.now.item.now.effects }
    ensures { IsDone V.tells (AsksOne work.old.block turn.now.item.now) (transacted chain.now (past.now ++ seen.now) (context work.old.level turn.now) work.old.now) work.old work.new result }
{
    if let Some(rule) = item_fault(past, seen, turn) {
        return Err(Stop::Rule(rule));
    }
    apply(alloc, work, chain, turn)
}

// A transaction at its place.
fn transact_at<V: RowView>(
    alloc: Global,
    work: &mut Work<V>,
    chain: &Chain,
    past: &Tail,
    seen: &Tail,
    place: usize,
    turn: &Turn<'_>,
) -> Result<(), EvalRefusal<V::Fault>>
    requires special { work.old.special ≡ chain.now.special }
    requires round { work.old.round ≡ turn.now.round }
    requires entry { turn.now.entry.now ≡ entry_of turn.now.item.now.txn }
    requires effects { All EffectInRange turn.now.item.now.effects }
    ensures { RunsWhere V.tells (AsksOne work.old.block turn.now.item.now) (at_place place (transacted chain.now (past.now ++ seen.now) (context work.old.level turn.now) work.old.now)) work.old work.new result }
{
    match transact(alloc, work, chain, past, seen, turn) {
        Ok(()) => Ok(()),
        Err(Stop::Rule(rule)) => Err(EvalRefusal::Broken { place, rule }),
        Err(Stop::View(fault)) => Err(EvalRefusal::View(fault)),
        Err(Stop::Memory) => Err(EvalRefusal::Memory),
    }
}

// The same, and what is kept of it is seen from then on.
fn take_turn<V: RowView>(
    alloc: Global,
    work: &mut Work<V>,
    chain: &Chain,
    past: &Tail,
    seen: &mut Tail,
    place: usize,
    turn: &Turn<'_>,
) -> Result<(), EvalRefusal<V::Fault>>
    requires special { work.old.special ≡ chain.now.special }
    requires round { work.old.round ≡ turn.now.round }
    requires entry { turn.now.entry.now ≡ entry_of turn.now.item.now.txn }
    requires effects { All EffectInRange turn.now.item.now.effects }
    ensures runs { RunsWhere V.tells (AsksOne work.old.block turn.now.item.now) (at_place place (transacted chain.now (past.now ++ seen.old) (context work.old.level turn.now) work.old.now)) work.old work.new result }
    ensures seen { OnOk result (seen.new ≡ seen.old ++ entry_of turn.now.item.now.txn ∷ []) }
{
    transact_at(alloc, work, chain, past, seen, place, turn)?;
    match seen.push(*turn.entry) {
        Ok(()) => Ok(()),
        Err(_) => Err(EvalRefusal::Memory),
    }
}

/// The groups of a block in order, and in each the transactions in order, with what is kept of
/// each: the count of all transactions of the chain.
pub fn all_items<V: RowView>(
    alloc: Global,
    work: &mut Work<V>,
    before: &Before,
    past: &Tail,
    block: &Block,
    entries: &[Entry],
) -> Result<u64, EvalRefusal<V::Fault>>
    requires special { work.old.special ≡ before.now.chain.special }
    requires round { work.old.round ≡ block.now.header.round }
    requires entries { entries.now ≡ map (λ i. entry_of i.txn) block.now.items }
    requires effects { All (λ i. All EffectInRange i.effects) block.now.items }
    requires counted { before.now.header.counter + sum_by size_of block.now.items < 2 ^ 64 }
    ensures { RunsAll V.tells (AskOne work.old.block block.now.items) (all_items before.now.chain work.old.level block.now.header.round 0 past.now before.now.header.counter 0 block.now.items work.old.now) work.old work.new result }
{
    let chain = &before.chain;
    let round = block.header.round;
    let mut counter = before.header.counter;
    let mut seen = Tail::new(alloc);
    let mut left = 0;
    for (place, item) in block.items.as_slice().iter().enumerate() {
        left = open(alloc, chain, place, left, block)?;
        let next = counter + 1;
        let entry = &entries[place];
        let turn = Turn {
            round,
            next,
            item,
            entry,
        };
        take_turn(alloc, work, chain, past, &mut seen, place, &turn)?;
        counter += size_of(item);
    }
    Ok(counter)
}
