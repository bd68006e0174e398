//! The minimum balances of what a transaction changed.
ghost use Rattle.std.specs.Prelude.{◌≡◌, ◌^◌, ◌≤◌, Option, Some, None, IfSome};
ghost use Rattle.al_rows.specs.Finite.{first_some};
ghost use Rattle.al_rows.specs.Limits.{max_balance};
ghost use Rattle.al_rows.specs.Rows.{AccountInRange, InRange, IsKept};
ghost use Rattle.al_overlay.specs.Accounts.{earned};
ghost use Rattle.al_moves.specs.Minimum.{lacking, shortfall};
ghost use Rattle.al_overlay.specs.Held.{at, now_at, nows};

use al_base::{Address, Key, Special};
use al_overlay::{Held, Rule, share_of};
use al_rewards::pending;
use al_rows::{AccountRow, Row, account_in, same_row};
use std::collections::BTreeMap;

// The rewards of an account that are not yet in its balance.
pub fn earned(level: u64, r: &AccountRow) -> u64
    ensures value { result ≡ earned level r.now }
    ensures most { result ≤ max_balance }
{
    pending(&share_of(r), level)
}

// What an account lacks.
fn lacking(level: u64, who: &Address, r: &AccountRow) -> Option<Rule>
    requires { AccountInRange r.now }
    ensures { result ≡ lacking level who.now r.now }
{
    let has = r.balance + earned(level, r);
    let needs = r.min_balance();
    if has < needs {
        Some(Rule::too_little(42, has, needs, who))
    } else {
        None
    }
}

// The shortfall at a key.
fn shortfall(
    level: u64,
    special: &Special,
    key: &Key,
    old: &Option<Row>,
    now: &Option<Row>,
) -> Option<Rule>
    requires { IfSome now.now (InRange key.now) }
    ensures { result ≡ shortfall level special.now key.now old.now now.now }
{
    match key {
        Key::Resource(_, _) | Key::Box(_, _) => None,
        Key::Account(who) => {
            if *who == special.sink || *who == special.pool || same_row(old, now) {
                return None;
            }
            match now {
                Some(Row::Account(r)) => lacking(level, who, r),
                Some(Row::Asset(_)) | Some(Row::App(_)) | Some(Row::Box(_)) => unreachable!(),
                None => None,
            }
        }
    }
}

// The shortfall at a key that may be held.
fn shortfall_at(
    level: u64,
    special: &Special,
    key: &Key,
    old: &Option<Row>,
    rows: &BTreeMap<Key, Held>,
) -> Option<Rule>
    requires { IfSome (at rows.now.entries key.now) (λ h. IfSome h.row (InRange key.now)) }
    ensures { result ≡ shortfall level special.now key.now old.now (now_at (nows rows.now.entries) key.now) }
{
    match rows.get(key) {
        Some(held) => shortfall(level, special, key, old, &held.row),
        None => shortfall(level, special, key, old, &None),
    }
}

/// The first shortfall among the rows that changed, in their order.
pub fn first_shortfall(
    level: u64,
    special: &Special,
    started: &[(Key, Option<Row>)],
    rows: &BTreeMap<Key, Held>,
) -> Option<Rule>
    requires { (q : Key) → IfSome (at rows.now.entries q) (λ h. IfSome h.row (InRange q)) }
    ensures { result ≡ first_some (λ e. shortfall level special.now e.0 e.1 (now_at (nows rows.now.entries) e.0)) started.now }
{
    for entry in started {
        if let Some(rule) = shortfall_at(level, special, &entry.0, &entry.1, rows) {
            return Some(rule);
        }
    }
    None
}
