//! A view with the rows changed so far.
ghost use Rattle.std.specs.Prelude.{◌≡◌, ◌≤◌, ◌*◌, ◌^◌, ℕ, Option, Some, None, true, IfOk, IfSome, OnOk, OnErr, cond, Bool, not, map, All};
ghost use Rattle.std.specs.List.Sorted.{IsStrictlySortedBy};
ghost use Rattle.std.specs.BTreeMap.{is_at};
ghost use Rattle.std.specs.FinMap.{get};
ghost use Rattle.al_base.specs.Causes.{Rose};
ghost use Rattle.al_base.specs.Keys.{key_cmp};
ghost use Rattle.al_rows.specs.Finite.{set_at, or_below, overlaid};
ghost use Rattle.al_rows.specs.Limits.{max_balance};
ghost use Rattle.al_rows.specs.Rows.{AccountInRange, CountsInRange, InRange, IsKept, RowMap, account, creator_of, same_row};
ghost use Rattle.al_moves.specs.Money.{IsWithin};
ghost use Rattle.al_moves.specs.Totals.{counts};
ghost use Rattle.al_overlay.specs.Accounts.{credited, moved, put_account};
ghost use Rattle.al_overlay.specs.Flows.{after_flow};
ghost use Rattle.al_moves.specs.Pay.{closed, closed_at, has_no_counts, paid, paid_amount, paid_close, rekeyed};
ghost use Rattle.al_moves.specs.Minimum.{checked};
ghost use Rattle.al_moves.specs.Changes.{AreChanges, change_of, changed};
ghost use Rattle.al_overlay.specs.Work.{Does, HasOneCreator, IsNoRule, Looks, nonzero};

mod creators;
mod keys;
mod online;
mod puts;

use crate::minimum::{earned, first_shortfall};
use crate::totals::totals_of;
use al_base::{Address, Key, Special, Status};
use al_overlay::{
    Creators, Flow, Held, Rule, Stop, account_held, creator_over, flow_row, hold_account, row_held,
    set_noted, viewed,
};
use al_rewards::Totals;
use al_rows::{
    AccountRow, Change, Changes, MAX_BALANCE, Row, RowView, ViewFault, account_in, same_row,
};
use al_txn::Pay;
use std::alloc::{AllocError, Global};
use std::collections::BTreeMap;
use std::marker::Model;

const NO_ADDRESS: Address = Address([0; 32]);

/// A view with the rows changed so far.
#[derive(Drop)]
pub struct Work<V: RowView> {
    alloc: Global,
    view: V,
    level: u64,
    round: u64,
    special: Special,
    rows: BTreeMap<Key, Held>,
    started: Vec<(Key, Option<Row>)>,
    creators: Creators,
}

impl<V: RowView> Model for Work<V> {
    ghost use Rattle.al_rows.specs.Finite.{overlaid};
    ghost use Rattle.al_overlay.specs.Creators.{AreNoted};
    ghost use Rattle.al_overlay.specs.Held.{IsWork, nows};
    ghost use Rattle.al_overlay.specs.Work.{Worked};
    ghost use Rattle.std.specs.FinMap as map;
    ghost use Rattle.std.specs.Coded.{codes};
    ghost use Rattle.al_base.specs.Keys.{key_cmp};
    ghost use Rattle.al_base.specs.contracts.key.Key as key;
    ghost use Rattle.al_rows.specs.contracts.row.Row as row;

    ghost Value = { Worked };

    ghost coded = { Prim.hlevel (codes, map.code {R = key_cmp} key.the_row.coded row.the_row.coded) };

    ghost view = { λ w. record {
      block = V.rows w.view;
      start = overlaid w.started.items (overlaid (nows w.rows.entries) (V.rows w.view));
      now = overlaid (nows w.rows.entries) (V.rows w.view);
      level = w.level;
      round = w.round;
      special = w.special;
      failures = V.failures w.view;
      lender = V.lender w.view;
    } };

    ghost invariant = { λ w. IsWork V.tells (V.rows w.view) w.rows.entries w.started.items × AreNoted w.rows.entries w.creators };
}

impl<V: RowView> Work<V> {
    /// A work that has changed nothing, at a reward level, in a round.
    pub fn new(alloc: Global, view: V, special: Special, level: u64, round: u64) -> Work<V>
        ensures { result ≡ record { block = V.rows view; start = V.rows view; now = V.rows view; level = level; round = round; special = special; failures = V.failures view; lender = V.lender view } }
    {
        Work {
            alloc,
            view,
            level,
            round,
            special,
            rows: BTreeMap::new(alloc),
            started: Vec::new(alloc),
            creators: BTreeMap::new(alloc),
        }
    }

    /// Marks the start of a transaction.
    pub fn begin(&mut self)
        ensures { self.new ≡ record self.old { start = self.old.now } }
    {
        self.started.clear();
    }

    /// The row with the changes so far.
    pub fn row(&mut self, key: &Key) -> Result<Option<Row>, Stop<V::Fault>>
        ensures looks { Looks V.tells self.old self.new result }
        ensures value { V.tells ≡ true → IfOk result (λ row. row ≡ get self.old.now key.now) }
        ensures range { IfOk result (λ row. IfSome row (InRange key.now)) }
    {
        match row_held(self.alloc, &self.rows, key) {
            Ok(Some(row)) => return Ok(row),
            Ok(None) => {}
            Err(_) => return Err(Stop::Memory),
        }
        viewed(&mut self.view, key)
    }

    /// The creator of an asset or an application with the changes so far: the address whose row
    /// of it has its params, and the least where there are more. It goes over no rows: it asks the
    /// view, and looks up what is noted of the id. Nothing is said where two addresses had its
    /// params before the block, which no sound state has.
    pub fn creator(&mut self, id: u64) -> Result<Option<Address>, Stop<V::Fault>>
        ensures looks { Looks V.tells self.old self.new result }
        ensures value { V.tells ≡ true → HasOneCreator self.old.block id → IfOk result (λ who. who ≡ creator_of self.old.now id) }
    {
        match self.view.creator(id) {
            Ok(viewed) => Ok(creator_over(id, viewed, &self.creators, &self.rows)),
            Err(ViewFault::Failed(fault)) => Err(Stop::View(fault)),
            Err(ViewFault::Memory) => Err(Stop::Memory),
        }
    }

    /// Makes this the row under a key, a zero row being none.
    pub fn set(&mut self, key: &Key, row: Option<Row>) -> Result<(), Stop<V::Fault>>
        requires { IfSome row (InRange key.now) }
        ensures done { Does V.tells (Ok (set_at self.old.now key.now (nonzero row))) self.old self.new result }
        ensures no_rule { IsNoRule result }
    {
        let row = nonzero(key, row);
        self.put(key, row)
    }

    // Makes this the row under a key.
    fn put(&mut self, key: &Key, row: Option<Row>) -> Result<(), Stop<V::Fault>>
        requires { IfSome row (IsKept key.now) }
        ensures done { Does V.tells (Ok (set_at self.old.now key.now row)) self.old self.new result }
        ensures no_rule { IsNoRule result }
    {
        set_noted(
            self.alloc,
            &mut self.view,
            &mut self.rows,
            &mut self.started,
            &mut self.creators,
            key,
            row,
        )
    }
}

impl<V: RowView> Work<V> {
    // Puts an account, unless its balance passes the most.
    #[inline(always)]
    fn put_account(&mut self, who: &Address, r: AccountRow) -> Result<(), Stop<V::Fault>>
        requires { CountsInRange r }
        ensures { Does V.tells (put_account self.old.now who.now r) self.old self.new result }
    {
        if r.balance > MAX_BALANCE {
            return Err(Stop::Rule(Rule::of_account(41, who)));
        }
        self.set(&Key::Account(*who), Some(Row::Account(r)))
    }
}

impl<V: RowView> Work<V> {
    // An amount flows out of an account, or into it.
    #[inline(always)]
    fn flow(&mut self, who: &Address, flow: Flow) -> Result<(), Stop<V::Fault>>
        ensures { Does V.tells (after_flow self.old.level who.now flow self.old.now) self.old self.new result }
    {
        flow_row(
            &mut self.view,
            &mut self.rows,
            &mut self.started,
            self.level,
            who,
            flow,
        )
    }

    /// Moves an amount from one account to another.
    #[tactic(auto, unfolding(al_overlay::specs::Accounts::moved))]
    pub fn move_algos(
        &mut self,
        from: &Address,
        to: &Address,
        amount: u64,
    ) -> Result<(), Stop<V::Fault>>
        ensures { Does V.tells (moved self.old.level from.now to.now amount self.old.now) self.old self.new result }
    {
        self.flow(from, Flow::Out(amount))?;
        self.flow(to, Flow::In(amount))
    }

    // The account, a missing one being the zero row.
    #[inline(always)]
    fn account(&mut self, who: &Address) -> Result<AccountRow, Stop<V::Fault>>
        ensures looks { Looks V.tells self.old self.new result }
        ensures value { V.tells ≡ true → IfOk result (λ r. r ≡ account self.old.now who.now) }
        ensures range { IfOk result (λ r. AccountInRange r) }
    {
        match account_held(&self.rows, who) {
            Some(r) => Ok(r),
            None => hold_account(self.alloc, &mut self.view, &mut self.rows, who),
        }
    }

    // The whole rest goes to the close address, and then the row.
    #[tactic(auto, unfolding(crate::specs::Pay::closed_at))]
    fn close_at(&mut self, who: &Address, to: &Address, r: AccountRow) -> Result<(), Stop<V::Fault>>
        requires { AccountInRange r }
        ensures { Does V.tells (closed_at self.old.level who.now to.now r self.old.now) self.old self.new result }
    {
        if *to == *who || !has_no_counts(&r) {
            return Err(Stop::Rule(Rule::of_account(43, who)));
        }
        self.move_algos(who, to, credited(self.level, r).balance)?;
        self.set(&Key::Account(*who), None)
    }

    #[tactic(auto, unfolding(crate::specs::Pay::closed))]
    fn close(&mut self, who: &Address, to: &Address) -> Result<(), Stop<V::Fault>>
        ensures { Does V.tells (closed self.old.level who.now to.now self.old.now) self.old self.new result }
    {
        let r = self.account(who)?;
        self.close_at(who, to, r)
    }

    #[tactic(auto, unfolding(crate::specs::Pay::paid_amount))]
    fn pay_amount(&mut self, who: &Address, p: &Pay) -> Result<(), Stop<V::Fault>>
        ensures { Does V.tells (paid_amount self.old.level who.now p.now self.old.now) self.old self.new result }
    {
        if p.amount == 0 && p.receiver == NO_ADDRESS {
            return Ok(());
        }
        self.move_algos(who, &p.receiver, p.amount)
    }

    #[tactic(auto, unfolding(crate::specs::Pay::paid_close))]
    fn pay_close(&mut self, who: &Address, p: &Pay) -> Result<(), Stop<V::Fault>>
        ensures { Does V.tells (paid_close self.old.level who.now p.now self.old.now) self.old self.new result }
    {
        if p.close == NO_ADDRESS {
            return Ok(());
        }
        self.close(who, &p.close)
    }

    /// The body of a payment.
    #[tactic(auto, unfolding(crate::specs::Pay::paid))]
    pub fn pay(&mut self, who: &Address, p: &Pay) -> Result<(), Stop<V::Fault>>
        ensures { Does V.tells (paid self.old.level who.now p.now self.old.now) self.old self.new result }
    {
        self.pay_amount(who, p)?;
        self.pay_close(who, p)
    }

    /// Each account that differs from before the transaction keeps its minimum.
    pub fn check_minimum(&mut self) -> Result<(), Stop<V::Fault>>
        ensures { Does V.tells (checked self.old.level self.old.special self.old.start self.old.now) self.old self.new result }
    {
        let started = self.started.as_slice();
        match first_shortfall(self.level, &self.special, started, &self.rows) {
            Some(rule) => Err(Stop::Rule(rule)),
            None => Ok(()),
        }
    }

    /// Sets who signs for an account, itself where that is its own address. A zero address
    /// changes nothing.
    #[tactic(auto, unfolding(crate::specs::Pay::rekeyed))]
    pub fn rekey(&mut self, who: &Address, to: &Address) -> Result<(), Stop<V::Fault>>
        ensures { Does V.tells (rekeyed who.now to.now self.old.now) self.old self.new result }
    {
        if *to == NO_ADDRESS {
            return Ok(());
        }
        let r = self.account(who)?;
        let auth = if *to == *who { NO_ADDRESS } else { *to };
        self.put_account(who, AccountRow { auth, ..r })
    }
}

// Whether an account has no asset, application, schema entry, extra page or box.
fn has_no_counts(r: &AccountRow) -> bool
    ensures { result ≡ has_no_counts r.now }
{
    r.assets_held == 0
        && r.assets_created == 0
        && r.apps_created == 0
        && r.apps_opted == 0
        && r.extra_pages == 0
        && r.uints == 0
        && r.byte_slices == 0
        && r.boxes == 0
        && r.box_bytes == 0
}

// An account with its pending rewards given to it.
#[inline(always)]
fn credited(level: u64, r: AccountRow) -> AccountRow
    requires { AccountInRange r }
    ensures value { result ≡ credited level r }
    ensures range { (result.balance ≤ 2 * max_balance) × CountsInRange result }
{
    if r.status == Status::NotParticipating {
        return r;
    }
    AccountRow {
        balance: r.balance + earned(level, &r),
        base: level,
        ..r
    }
}

impl<V: RowView> Work<V> {
    /// The totals with the changes so far, counted at the level of this work, from those before
    /// the block. Nothing is said over a view that does not tell its rows, nor where all the money
    /// is more than twice 10^16 microAlgos: each number stops at 2^64 - 1.
    pub fn totals(&self, before: &Totals) -> Totals
        ensures { V.tells ≡ true → before.now ≡ counts self.now.level self.now.block → IsWithin self.now.level self.now.block → IsWithin self.now.level self.now.now → result ≡ counts self.now.level self.now.now }
    {
        totals_of(*before, &self.rows)
    }
}

impl<V: RowView> Work<V> {
    /// The same as `finish`, and the view.
    pub fn end(self) -> (Result<Changes, AllocError>, V)
        ensures changes { V.tells ≡ true → IfOk result.0 (λ cs. AreChanges self.block self.now (map change_of cs)) }
        ensures ordered { IfOk result.0 (λ cs. IsStrictlySortedBy key_cmp (map (λ c. c.key) cs)) }
        ensures kept { IfOk result.0 (λ cs. All (λ c. IfSome c.row (IsKept c.key)) cs) }
        ensures rows { V.rows result.1 ≡ self.block }
        ensures failures { V.failures result.1 ≡ self.failures }
        ensures lender { V.lender result.1 ≡ self.lender }
    {
        let Work {
            alloc,
            view,
            rows,
            level: _,
            round: _,
            special: _,
            started: _,
            creators: _,
        } = self;
        (changes(alloc, rows), view)
    }

    /// The rows that differ from before the block, in the order of keys.
    pub fn finish(self) -> Result<Changes, AllocError>
        ensures changes { V.tells ≡ true → IfOk result (λ cs. AreChanges self.block self.now (map change_of cs)) }
        ensures ordered { IfOk result (λ cs. IsStrictlySortedBy key_cmp (map (λ c. c.key) cs)) }
        ensures kept { IfOk result (λ cs. All (λ c. IfSome c.row (IsKept c.key)) cs) }
    {
        self.end().0
    }
}

// Those rows that differ from the ones before.
fn changes(alloc: Global, rows: BTreeMap<Key, Held>) -> Result<Changes, AllocError>
    ensures items { IfOk result (λ cs. map change_of cs ≡ changed rows.entries) }
    ensures ordered { OnOk result (IsStrictlySortedBy key_cmp (map (λ e. e.0) rows.entries)) }
{
    let mut out = Vec::with_capacity(alloc, rows.len())?;
    for (key, held) in rows {
        if !same_row(&held.block, &held.row) {
            out.push(Change { key, row: held.row })?;
        }
    }
    Ok(Changes::from_vec(out))
}

// A zero row is no row.
#[inline(always)]
fn nonzero(key: &Key, row: Option<Row>) -> Option<Row>
    requires { IfSome row (InRange key.now) }
    ensures value { result ≡ nonzero row }
    ensures kept { IfSome result (IsKept key.now) }
{
    match row {
        Some(row) => row.unless_zero(),
        None => None,
    }
}
