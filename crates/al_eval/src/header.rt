//! The header of a block, against what is due after the block before.
ghost use Rattle.std.specs.Prelude.{◌≡◌, ◌+◌, nat_eq, nat_le, ◌||◌, ◌&&◌, None, Option, length};
ghost use Rattle.al_eval.specs.Header.{first_fault, header_checks, is_in_time, rewards_checks};

use crate::Before;
use al_block::{Field, Header};
use al_rewards::RewardsState;

/// The first header field beside rewards that differs from what is due.
#[tactic(auto, unfolding(crate::specs::Header::header_checks))]
pub fn header_fault(before: &Before, h: &Header) -> Option<Field>
    ensures first { result ≡ first_fault (header_checks before.now h.now) }
    ensures round { result ≡ None → h.now.round ≡ before.now.header.round + 1 }
{
    let last = &before.header;
    let special = &before.chain.special;
    if !is_sum(h.round, last.round, 1) {
        return Some(Field::Rnd);
    }
    if h.prev != before.hash {
        return Some(Field::Prev);
    }
    if h.genesis_hash != before.chain.hash {
        return Some(Field::Gh);
    }
    if !is_in_time(last.ts, h.ts) {
        return Some(Field::Ts);
    }
    if h.sink != special.sink {
        return Some(Field::Fees);
    }
    if h.pool != special.pool {
        return Some(Field::Rwd);
    }
    None
}

/// The first rewards field that differs from what is due.
#[tactic(auto, unfolding(crate::specs::Header::rewards_checks))]
pub fn rewards_fault(due: &RewardsState, h: &Header) -> Option<Field>
    ensures { result ≡ first_fault (rewards_checks due.now h.now) }
{
    if h.rate != due.rate {
        return Some(Field::Rate);
    }
    if h.recalc != due.recalc {
        return Some(Field::Rwcalr);
    }
    if h.residue != due.residue {
        return Some(Field::Frac);
    }
    if h.level != due.level {
        return Some(Field::Earn);
    }
    None
}

// Whether a time may follow another.
fn is_in_time(last: u64, ts: u64) -> bool
    ensures { result ≡ is_in_time last ts }
{
    last == 0 || last <= ts && is_at_most_sum(ts, last, 25)
}

// Whether a number is the sum of two.
fn is_sum(sum: u64, a: u64, b: u64) -> bool
    ensures { result ≡ nat_eq sum (a + b) }
{
    match a.checked_add(b) {
        Some(due) => sum == due,
        None => false,
    }
}

// Whether a number is at most the sum of two.
fn is_at_most_sum(n: u64, a: u64, b: u64) -> bool
    ensures { result ≡ nat_le n (a + b) }
{
    match a.checked_add(b) {
        Some(sum) => n <= sum,
        None => true,
    }
}
