//! The queue of what blocks change.
ghost use Rattle.std.specs.Prelude.{◌≡◌, ◌++◌, ◌∷◌, ◌-◌, ◌<◌, ◌≤◌, ◌^◌, [], suc, All, IfOk, IfSome, IsOk, OnOk, OnErr, option_map, map, get_or};
ghost use Rattle.std.specs.Option.{option_copied};
ghost use Rattle.std.specs.List.Sorted.{IsStrictlySortedBy};
ghost use Rattle.std.specs.Ordering.{nat_cmp};
ghost use Rattle.al_base.specs.Keys.{key_cmp};
ghost use Rattle.al_rows.specs.Rows.{IsKept};
ghost use Rattle.al_deltas.specs.Net.{IsBatchOf};
ghost use Rattle.al_deltas.specs.Queue.{IsKeptDelta, and_delta, changed_in, creator_in, from_round, last_change, last_creator, last_of, level_after, top, totals_after, up_to, with_room};

use crate::RoundDelta;
use crate::batch::batch_of;
use al_base::{Address, CreatorChange, Key};
use al_rewards::Totals;
use al_rows::{Change, Row};
use al_tables::Batch;
use std::alloc::{AllocError, Global};
use std::marker::Model;

/// What the blocks above a round change, oldest first.
#[derive(Drop)]
pub struct Deltas {
    alloc: Global,
    base: u64,
    deltas: Vec<RoundDelta>,
    totals: Totals,
    // For how many more changes there is room.
    spare: usize,
}

impl Model for Deltas {
    ghost use Rattle.std.specs.Prelude.{◌+◌, ◌≤◌, vec_len, vec_capacity};
    ghost use Rattle.al_deltas.specs.Queue.{IsQueue, Queue};

    ghost Value = { Queue };

    ghost view = { λ q. record { base = q.base; deltas = q.deltas.items; totals = q.totals; spare = q.spare } };

    ghost invariant = { λ q. IsQueue (record { base = q.base; deltas = q.deltas.items; totals = q.totals; spare = q.spare }) × (vec_len q.deltas + q.spare ≤ vec_capacity q.deltas) };
}

impl Deltas {
    /// No change above this round, which is at most 2^62 and whose totals are these.
    pub fn new(alloc: Global, base: u64, totals: Totals) -> Deltas
        requires { base ≤ 2 ^ 62 }
        ensures { result ≡ record { base = base; deltas = []; totals = totals; spare = 0 } }
    {
        Deltas {
            alloc,
            base,
            deltas: Vec::new(alloc),
            totals,
            spare: 0,
        }
    }

    /// The round below all changes.
    pub fn base(&self) -> u64
        ensures { result ≡ self.now.base }
    {
        self.base
    }

    /// The last round, at most 2^62.
    pub fn top(&self) -> u64
        ensures value { result ≡ top self.now }
        ensures most { top self.now ≤ 2 ^ 62 }
    {
        self.base + self.deltas.len() as u64
    }

    /// Makes room for the changes of one round more, where there is none. Errors: no memory.
    pub fn reserve(&mut self) -> Result<(), AllocError>
        ensures ok { OnOk result (self.new ≡ with_room self.old) }
        ensures err { OnErr result (self.new ≡ self.old) }
    {
        if self.spare == 0 {
            self.deltas.reserve(1)?;
            self.spare = 1;
        }
        Ok(())
    }

    /// Adds the changes of the next round, which rise by their keys. Where there is room it takes no
    /// memory. Errors: no memory.
    pub fn push(&mut self, d: RoundDelta) -> Result<(), AllocError>
        requires next { d.round ≡ suc (top self.old) }
        requires most { d.round ≤ 2 ^ 62 }
        requires kept { IsKeptDelta d }
        ensures ok { OnOk result (self.new ≡ and_delta d self.old) }
        ensures err { OnErr result (self.new ≡ self.old) }
        ensures room { 0 < self.old.spare → IsOk result }
    {
        self.deltas.push(d)?;
        self.spare = self.spare.saturating_sub(1);
        Ok(())
    }

    /// Forgets the changes up to a round, which becomes the base. It takes no memory.
    pub fn drop_to(&mut self, to: u64)
        requires from { self.old.base ≤ to }
        requires top { to ≤ top self.old }
        ensures { self.new ≡ from_round to self.old }
    {
        let count = (to - self.base) as usize;
        self.totals = totals_in(&self.totals, &self.deltas[..count]);
        drop(self.deltas.drain(..count));
        self.base = to;
    }

    /// The batch that leads from the base to a round up to the last one: of each row and creator the
    /// last change alone. Errors: no memory.
    pub fn batch(&self, to: u64) -> Result<Batch, AllocError>
        requires from { self.now.base ≤ to }
        requires top { to ≤ top self.now }
        ensures { IfOk result (IsBatchOf to self.now) }
    {
        batch_of(self.alloc, self.base, to, self.front(to))
    }

    // The changes up to a round.
    fn front(&self, to: u64) -> &[RoundDelta]
        requires from { self.now.base ≤ to }
        requires top { to ≤ top self.now }
        ensures front { result.now ≡ up_to to self.now }
        ensures kept { All IsKeptDelta result.now }
        ensures low { All (λ d. d.round ≤ 2 ^ 62) result.now }
    {
        &self.deltas[..(to - self.base) as usize]
    }

    /// The changes of the last round, if there are any.
    pub fn last(&self) -> Option<&RoundDelta>
        ensures { option_copied result ≡ last_of self.now.deltas }
    {
        last_in(&self.deltas)
    }

    /// The changes of a round above the base and at most the last one.
    pub fn at(&self, round: u64) -> &RoundDelta
        requires from { self.now.base < round }
        requires top { round ≤ top self.now }
        ensures { result.now ≡ get_or self.now.deltas (round - self.now.base - 1) result.now }
    {
        &self.deltas[(round - self.base) as usize - 1]
    }

    /// The last change of a key at a round above the base and at most `to`, with its round. It
    /// takes no memory.
    pub fn find(&self, key: &Key, to: u64) -> Option<(u64, &Option<Row>)>
        requires from { self.now.base ≤ to }
        requires top { to ≤ top self.now }
        ensures last { option_map (λ p. (p.0, p.1.now)) result ≡ last_change key.now (up_to to self.now) }
        ensures kept { IfSome result (λ p. IfSome p.1.now (IsKept key.now)) }
    {
        find_in(&self.deltas[..(to - self.base) as usize], key)
    }

    /// The last change of the creator of an asset or an application at a round above the base and at
    /// most `to`. It takes no memory.
    pub fn creator(&self, id: u64, to: u64) -> Option<Option<Address>>
        requires from { self.now.base ≤ to }
        requires top { to ≤ top self.now }
        ensures { result ≡ last_creator id (up_to to self.now) }
    {
        creator_in(&self.deltas[..(to - self.base) as usize], id)
    }

    /// The totals after a round from the base to the last one.
    pub fn totals(&self, round: u64) -> Totals
        requires from { self.now.base ≤ round }
        requires top { round ≤ top self.now }
        ensures { result ≡ totals_after (up_to round self.now) self.now.totals }
    {
        totals_in(&self.totals, &self.deltas[..(round - self.base) as usize])
    }

    /// The reward level of the header of a round from the base to the last one.
    pub fn header_level(&self, round: u64) -> u64
        requires from { self.now.base ≤ round }
        requires top { round ≤ top self.now }
        ensures { result ≡ level_after (up_to round self.now) self.now.totals.level }
    {
        level_in(
            self.totals.level,
            &self.deltas[..(round - self.base) as usize],
        )
    }
}

// The last of these.
fn last_in(deltas: &[RoundDelta]) -> Option<&RoundDelta>
    ensures { option_copied result ≡ last_of deltas.now }
{
    match deltas.split_last() {
        Some((last, _)) => Some(last),
        None => None,
    }
}

// The totals after these.
fn totals_in(totals: &Totals, deltas: &[RoundDelta]) -> Totals
    ensures { result ≡ totals_after deltas.now totals.now }
{
    match deltas.split_last() {
        Some((last, _)) => last.totals,
        None => *totals,
    }
}

// The reward level after these.
fn level_in(level: u64, deltas: &[RoundDelta]) -> u64
    ensures { result ≡ level_after deltas.now level }
{
    match deltas.split_last() {
        Some((last, _)) => last.header.level,
        None => level,
    }
}

// What these change under a key. They rise by their keys.
fn change_in<'a>(changes: &'a [Change], key: &Key) -> Option<&'a Option<Row>>
    requires { IsStrictlySortedBy key_cmp (map (λ c. c.key) changes.now) }
    ensures { option_copied result ≡ changed_in key.now changes.now }
{
    let mut left = changes;
    while let Some((middle, above)) = left.split_at(left.len() / 2).1.split_first() {
        let order = key.compare(&middle.key);
        if order.is_eq() {
            return Some(&middle.row);
        }
        left = if order.is_lt() {
            left.split_at(left.len() / 2).0
        } else {
            above
        };
    }
    None
}

// The last change of a key.
fn find_in<'a>(deltas: &'a [RoundDelta], key: &Key) -> Option<(u64, &'a Option<Row>)>
    requires { All IsKeptDelta deltas.now }
    ensures last { option_map (λ p. (p.0, p.1.now)) result ≡ last_change key.now deltas.now }
    ensures kept { IfSome result (λ p. IfSome p.1.now (IsKept key.now)) }
{
    let mut left = deltas;
    while let Some((last, before)) = left.split_last() {
        if let Some(row) = change_in(last.changes.as_slice(), key) {
            return Some((last.round, row));
        }
        left = before;
    }
    None
}

// What these change of the creator of an id. They rise by their ids.
fn creator_change_in(changes: &[CreatorChange], id: u64) -> Option<Option<Address>>
    requires { IsStrictlySortedBy nat_cmp (map (λ c. c.id) changes.now) }
    ensures { result ≡ creator_in id changes.now }
{
    let mut left = changes;
    while let Some((middle, above)) = left.split_at(left.len() / 2).1.split_first() {
        let order = id.cmp(&middle.id);
        if order.is_eq() {
            return Some(middle.now);
        }
        left = if order.is_lt() {
            left.split_at(left.len() / 2).0
        } else {
            above
        };
    }
    None
}

// The last change of the creator of an id.
fn creator_in(deltas: &[RoundDelta], id: u64) -> Option<Option<Address>>
    requires { All IsKeptDelta deltas.now }
    ensures { result ≡ last_creator id deltas.now }
{
    let mut left = deltas;
    while let Some((last, before)) = left.split_last() {
        if let Some(creator) = creator_change_in(last.creators.as_slice(), id) {
            return Some(creator);
        }
        left = before;
    }
    None
}
