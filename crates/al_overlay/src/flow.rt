//! An amount that flows out of an account or into it. An account that is held changes where it
//! stands.
ghost use Rattle.std.specs.Prelude.{◌≡◌, ◌≤◌, ℕ, Bool, Option, None, true, IfNone, IfSome, OnErr, OnOk};
ghost use Rattle.std.specs.FinMap.{get};
ghost use Rattle.al_rows.specs.Limits.{max_balance};
ghost use Rattle.al_rows.specs.Finite.{overlaid};
ghost use Rattle.al_rows.specs.Rows.{InRange, RowMap, account_in, is_zero};
ghost use Rattle.al_overlay.specs.Accounts.{share_of};
ghost use Rattle.al_overlay.specs.Creators.{AreOthers};
ghost use Rattle.al_overlay.specs.Flows.{GivesRow, IsFlow, after_flow, balance_after, credited_share, flowed, with_balance, within};
ghost use Rattle.al_overlay.specs.Held.{AreInOrder, IsWork, at, nows, put_first};
ghost use Rattle.al_overlay.specs.Work.{Gives, IsCounted};

use crate::held::{Held, account_row, keep_account, set_over, viewed};
use crate::share::share_of;
use crate::{Rule, Stop};
use al_base::{Address, Key, Status};
use al_rewards::{Share, pending};
use al_rows::{AccountRow, MAX_BALANCE, Row, RowView};
use std::collections::BTreeMap;

/// What happens to the balance of an account.
#[derive(Clone, Copy)]
pub enum Flow {
    /// It gives an amount, in microAlgos.
    Out(u64),
    /// It takes an amount in, in microAlgos.
    In(u64),
}

// A balance, unless it passes the most.
#[inline(always)]
fn within(who: &Address, balance: u64) -> Result<u64, Rule>
    ensures { result ≡ within who.now balance }
{
    if balance > MAX_BALANCE {
        return Err(Rule::of_account(41, who));
    }
    Ok(balance)
}

// The balance after a flow.
#[inline(always)]
fn balance_after(who: &Address, flow: Flow, has: u64) -> Result<u64, Rule>
    ensures { result ≡ balance_after who.now flow has }
{
    match flow {
        Flow::Out(amount) => {
            if has < amount {
                return Err(Rule::too_little(40, has, amount, who));
            }
            within(who, has - amount)
        }
        Flow::In(amount) => match has.checked_add(amount) {
            Some(balance) => within(who, balance),
            None => Err(Rule::of_account(41, who)),
        },
    }
}

// What rewards depend on, of the account of a row.
#[inline(always)]
fn share_in(row: &Option<Row>) -> Share
    ensures { result ≡ share_of (account_in row.now) }
{
    match row {
        Some(Row::Account(r)) => share_of(r),
        Some(Row::Asset(_)) | Some(Row::App(_)) | Some(Row::Box(_)) | None => Share {
            status: Status::Offline,
            balance: 0,
            base: 0,
        },
    }
}

// A share with its pending rewards given to it.
#[inline(always)]
fn credited(level: u64, share: Share) -> Share
    requires { share.balance ≤ max_balance }
    ensures { result ≡ credited_share level share }
{
    if share.status == Status::NotParticipating {
        return share;
    }
    Share {
        balance: share.balance + pending(&share, level),
        base: level,
        ..share
    }
}

// Puts a balance and a reward base into an account, and tells whether it is a zero row then.
#[inline(always)]
#[tactic(auto, unfolding(al_rows::specs::Rows::is_zero))]
fn put_balance(r: &mut AccountRow, balance: u64, base: u64) -> bool
    ensures new { r.new ≡ record r.old { balance = balance; base = base } }
    ensures zero { result ≡ is_zero (Row.Account r.new) }
{
    r.balance = balance;
    r.base = base;
    balance == 0 && r.is_zero()
}

// The row of an account that had none.
#[inline(always)]
fn new_row(balance: u64, base: u64) -> Option<Row>
    ensures { result ≡ with_balance balance base None }
{
    Row::Account(AccountRow {
        balance,
        base,
        ..AccountRow::none()
    })
    .unless_zero()
}

// Puts a balance and a reward base into the account of a row. A zero row becomes none.
#[inline(always)]
fn put_row(row: &mut Option<Row>, balance: u64, base: u64)
    ensures { row.new ≡ with_balance balance base row.old }
{
    let vanishes = match row {
        Some(Row::Account(r)) => put_balance(r, balance, base),
        Some(Row::Asset(_)) | Some(Row::App(_)) | Some(Row::Box(_)) | None => {
            *row = new_row(balance, base);
            false
        }
    };
    if vanishes {
        *row = None;
    }
}

// The row of an account after a flow.
#[inline(always)]
fn flowed(level: u64, who: &Address, flow: Flow, old: &Option<Row>) -> Result<Option<Row>, Rule>
    requires { IfSome old.now (InRange (Key.Account who.now)) }
    ensures { result ≡ flowed level who.now flow old.now }
{
    let share = credited(level, share_in(old));
    match balance_after(who, flow, share.balance) {
        Ok(balance) => {
            let mut row = account_row(old);
            put_row(&mut row, balance, share.base);
            Ok(row)
        }
        Err(rule) => Err(rule),
    }
}

// Lets an amount flow out of an account that is held, or into it.
#[inline(always)]
fn flow_at<F>(
    held: &mut Held,
    started: &mut Vec<(Key, Option<Row>)>,
    level: u64,
    who: &Address,
    flow: Flow,
) -> Result<(), Stop<F>>
    requires { IfSome held.old.row (InRange (Key.Account who.now)) }
    ensures block { held.new.block ≡ held.old.block }
    ensures gives { GivesRow (flowed level who.now flow held.old.row) result held.new.row }
    ensures kept { OnOk result (AreInOrder started.old.items → started.new.items ≡ put_first (Key.Account who.now) held.old.row started.old.items) }
    ensures err { OnErr result ((held.new.row ≡ held.old.row) × (started.new.items ≡ started.old.items)) }
{
    let share = credited(level, share_in(&held.row));
    match balance_after(who, flow, share.balance) {
        Ok(balance) => match keep_account(started, who, &held.row) {
            Ok(()) => {
                put_row(&mut held.row, balance, share.base);
                Ok(())
            }
            Err(_) => Err(Stop::Memory),
        },
        Err(rule) => Err(Stop::Rule(rule)),
    }
}

// The same of an account that may be held.
#[inline(always)]
fn flow_held<F>(
    rows: &mut BTreeMap<Key, Held>,
    started: &mut Vec<(Key, Option<Row>)>,
    level: u64,
    who: &Address,
    flow: Flow,
) -> Option<Result<(), Stop<F>>>
    requires { (q : Key) → IfSome (at rows.old.entries q) (λ h. IfSome h.row (InRange q)) }
    ensures flows { IfSome result (IsFlow level who.now flow rows.old.entries rows.new.entries started.old.items started.new.items) }
    ensures absent { IfNone result ((at rows.old.entries (Key.Account who.now) ≡ None) × (rows.new.entries ≡ rows.old.entries) × (started.new.items ≡ started.old.items)) }
{
    match rows.get_mut(&Key::Account(*who)) {
        Some(held) => Some(flow_at(held, started, level, who, flow)),
        None => None,
    }
}

// The same of an account that is not held, whose row before the block is `old`.
#[inline(always)]
fn flow_new<F>(
    rows: &mut BTreeMap<Key, Held>,
    started: &mut Vec<(Key, Option<Row>)>,
    level: u64,
    who: &Address,
    flow: Flow,
    old: Option<Row>,
) -> Result<(), Stop<F>>
    requires { IfSome old (InRange (Key.Account who.now)) }
    ensures work { (t : Bool) (m : RowMap) → IsWork t m rows.old.entries started.old.items → (t ≡ true → old ≡ get m (Key.Account who.now)) → IsWork t m rows.new.entries started.new.items }
    ensures gives { (m : RowMap) → at rows.old.entries (Key.Account who.now) ≡ None → old ≡ get m (Key.Account who.now) → Gives (after_flow level who.now flow (overlaid (nows rows.old.entries) m)) result (overlaid (nows rows.new.entries) m) }
    ensures start { OnOk result ((t : Bool) (m : RowMap) → IsWork t m rows.old.entries started.old.items → at rows.old.entries (Key.Account who.now) ≡ None → old ≡ get m (Key.Account who.now) → overlaid started.new.items (overlaid (nows rows.new.entries) m) ≡ overlaid started.old.items (overlaid (nows rows.old.entries) m)) }
    ensures cause { (n : ℕ) → IsCounted result n n }
    ensures others { AreOthers (Key.Account who.now) rows.old.entries rows.new.entries }
{
    match flowed(level, who, flow, &old) {
        Ok(row) => {
            let block = account_row(&old);
            match set_over(rows, started, &Key::Account(*who), row, block, old) {
                Ok(()) => Ok(()),
                Err(_) => Err(Stop::Memory),
            }
        }
        Err(rule) => Err(Stop::Rule(rule)),
    }
}

// The same of an account that is not held, which is held then with what the view has.
#[inline(never)]
fn flow_viewed<V: RowView>(
    view: &mut V,
    rows: &mut BTreeMap<Key, Held>,
    started: &mut Vec<(Key, Option<Row>)>,
    level: u64,
    who: &Address,
    flow: Flow,
) -> Result<(), Stop<V::Fault>>
    requires { at rows.old.entries (Key.Account who.now) ≡ None }
    ensures same { V.tells ≡ true → V.rows view.new ≡ V.rows view.old }
    ensures lender { V.lender view.new ≡ V.lender view.old }
    ensures later { V.failures view.old ≤ V.failures view.new }
    ensures cause { IsCounted result (V.failures view.old) (V.failures view.new) }
    ensures work { IsWork V.tells (V.rows view.old) rows.old.entries started.old.items → IsWork V.tells (V.rows view.new) rows.new.entries started.new.items }
    ensures gives { V.tells ≡ true → Gives (after_flow level who.now flow (overlaid (nows rows.old.entries) (V.rows view.old))) result (overlaid (nows rows.new.entries) (V.rows view.new)) }
    ensures start { V.tells ≡ true → IsWork V.tells (V.rows view.old) rows.old.entries started.old.items → OnOk result (overlaid started.new.items (overlaid (nows rows.new.entries) (V.rows view.new)) ≡ overlaid started.old.items (overlaid (nows rows.old.entries) (V.rows view.old))) }
    ensures others { AreOthers (Key.Account who.now) rows.old.entries rows.new.entries }
{
    let old = viewed(view, &Key::Account(*who))?;
    flow_new(rows, started, level, who, flow, old)
}

/// Lets an amount flow out of an account, or into it, and holds what the view has there.
pub fn flow_row<V: RowView>(
    view: &mut V,
    rows: &mut BTreeMap<Key, Held>,
    started: &mut Vec<(Key, Option<Row>)>,
    level: u64,
    who: &Address,
    flow: Flow,
) -> Result<(), Stop<V::Fault>>
    requires { (q : Key) → IfSome (at rows.old.entries q) (λ h. IfSome h.row (InRange q)) }
    ensures same { V.tells ≡ true → V.rows view.new ≡ V.rows view.old }
    ensures lender { V.lender view.new ≡ V.lender view.old }
    ensures later { V.failures view.old ≤ V.failures view.new }
    ensures cause { IsCounted result (V.failures view.old) (V.failures view.new) }
    ensures work { IsWork V.tells (V.rows view.old) rows.old.entries started.old.items → IsWork V.tells (V.rows view.new) rows.new.entries started.new.items }
    ensures gives { V.tells ≡ true → Gives (after_flow level who.now flow (overlaid (nows rows.old.entries) (V.rows view.old))) result (overlaid (nows rows.new.entries) (V.rows view.new)) }
    ensures start { V.tells ≡ true → IsWork V.tells (V.rows view.old) rows.old.entries started.old.items → OnOk result (overlaid started.new.items (overlaid (nows rows.new.entries) (V.rows view.new)) ≡ overlaid started.old.items (overlaid (nows rows.old.entries) (V.rows view.old))) }
    ensures others { AreOthers (Key.Account who.now) rows.old.entries rows.new.entries }
{
    match flow_held(rows, started, level, who, flow) {
        Some(done) => done,
        None => flow_viewed(view, rows, started, level, who, flow),
    }
}
