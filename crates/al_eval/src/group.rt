//! A group of transactions, before any of them changes anything.
ghost use Rattle.std.specs.Prelude.{◌≡◌, ◌+◌, ◌-◌, ◌≤◌, ◌<◌, ◌^◌, min, length, drop, IfOk};
ghost use Rattle.al_eval.specs.Refusals.{Answers, LooksAtNone};
ghost use Rattle.al_eval.specs.Groups.{needed, opened, size_of, form_rule, forms_fault, group_fault, group_id_fault, pool_fault, pooled, size_fault};

use crate::EvalRefusal;
use al_block::{Block, group_end};
use al_moves::Rule;
use al_txn::{Chain, Effect, Item, group_id, well_formed};
use std::alloc::{AllocError, Global};

// The most members of a group.
const MOST_MEMBERS: usize = 16;

// The least fee of a transaction, in microAlgos.
const LEAST_FEE: u64 = 1_000;

/// How many transactions an entry of the payset is: its own, and the inner ones.
pub fn size_of(item: &Item) -> u64
    ensures value { result ≡ size_of item.now }
    ensures bound { result ≤ 2 ^ 63 }
{
    let mut size: u64 = 1;
    for effect in item.effects.as_slice() {
        if matches!(effect, Effect::Inner(_)) {
            size += 1;
        }
    }
    size
}

// 34: there are too many members.
fn size_fault(group: &[Item]) -> Option<Rule>
    ensures { result ≡ size_fault group.now }
{
    if group.len() > MOST_MEMBERS {
        Some(Rule::plain(34))
    } else {
        None
    }
}

// The form rule that a member breaks.
fn form_rule(item: &Item, chain: &Chain) -> Option<Rule>
    ensures { result ≡ form_rule item.now chain.now }
{
    match well_formed(item, chain) {
        Ok(()) => None,
        Err(ill) => Some(Rule::plain(ill.number)),
    }
}

// The first member that breaks a rule of form; the group stands at this place of the block.
fn forms_fault(chain: &Chain, place: usize, group: &[Item]) -> Option<(usize, Rule)>
    requires { place + length group.now < 2 ^ 63 }
    ensures { result ≡ forms_fault chain.now place group.now }
{
    for (k, item) in group.iter().enumerate() {
        if let Some(rule) = form_rule(item, chain) {
            return Some((place + k, rule));
        }
    }
    None
}

// 35: the group's id is not that of its members.
fn group_id_fault(alloc: Global, group: &[Item]) -> Result<Option<Rule>, AllocError>
    ensures { IfOk result (λ f. f ≡ group_id_fault group.now) }
{
    let Some(first) = group.first() else {
        return Ok(None);
    };
    if first.txn.group == [0; 32] {
        return Ok(None);
    }
    if first.txn.group == group_id(alloc, group)? {
        return Ok(None);
    }
    Ok(Some(Rule::plain(35)))
}

// The fees of all members together, in microAlgos, or the greatest number.
fn pooled(group: &[Item]) -> u64
    ensures { result ≡ min (pooled group.now) (2 ^ 64 - 1) }
{
    let mut fees: u64 = 0;
    for item in group {
        fees = fees.saturating_add(item.txn.fee);
    }
    fees
}

// The least fees of a group, in microAlgos, or the greatest number.
fn needed(group: &[Item]) -> u64
    ensures { result ≡ needed group.now }
{
    let mut count: u64 = 0;
    for item in group {
        count = count.saturating_add(size_of(item));
    }
    count.saturating_mul(LEAST_FEE)
}

// 36: the fees are too low.
fn pool_fault(group: &[Item]) -> Option<Rule>
    ensures { result ≡ pool_fault group.now }
{
    let fees = pooled(group);
    let needs = needed(group);
    if fees < needs {
        Some(Rule::too_few(36, fees, needs))
    } else {
        None
    }
}

// The first rule that the group at this place breaks, and the place of who breaks it.
#[tactic(auto, unfolding(crate::specs::Groups::group_fault))]
fn group_fault(
    alloc: Global,
    chain: &Chain,
    place: usize,
    group: &[Item],
) -> Result<Option<(usize, Rule)>, AllocError>
    requires { place + length group.now < 2 ^ 63 }
    ensures { IfOk result (λ f. f ≡ group_fault chain.now place group.now) }
{
    if let Some(rule) = size_fault(group) {
        return Ok(Some((place, rule)));
    }
    if let Some(fault) = forms_fault(chain, place, group) {
        return Ok(Some(fault));
    }
    if let Some(rule) = group_id_fault(alloc, group)? {
        return Ok(Some((place, rule)));
    }
    match pool_fault(group) {
        Some(rule) => Ok(Some((place, rule))),
        None => Ok(None),
    }
}

/// Looks at the group that begins at a place, where none of the group before is left: how many of
/// its members are left behind the first, or the rule that it breaks.
pub fn open<F>(
    alloc: Global,
    chain: &Chain,
    place: usize,
    left: usize,
    block: &Block,
) -> Result<usize, EvalRefusal<F>>
    requires { place < length block.now.items }
    ensures answers { Answers (opened chain.now place left (drop place block.now.items)) result }
    ensures unseen { LooksAtNone result }
{
    if left > 0 {
        return Ok(left - 1);
    }
    let end = group_end(block, place);
    match group_fault(alloc, chain, place, &block.items.as_slice()[place..end]) {
        Ok(None) => Ok(end - place - 1),
        Ok(Some((place, rule))) => Err(EvalRefusal::Broken { place, rule }),
        Err(AllocError) => Err(EvalRefusal::Memory),
    }
}
