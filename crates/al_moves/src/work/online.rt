//! What consensus knows of accounts that a work changed.
ghost use Rattle.std.specs.Prelude.{◌≡◌, true, IfOk, map, option_map};
ghost use Rattle.std.specs.BTreeMap.{IsOrdered};
ghost use Rattle.std.specs.List.Sorted.{IsStrictlySortedBy};
ghost use Rattle.al_base.specs.Keys.{address_cmp, key_cmp};
ghost use Rattle.al_rows.specs.Rows.{account_in};
ghost use Rattle.al_moves.specs.Online.{AreOnlineChanges, changed_at, changed_online, changed_onlines, online_change_of, online_of, same_online};

use super::Work;
use al_base::{Address, Key, OnlineChange, OnlineChanges, OnlineData, Status};
use al_overlay::Held;
use al_rows::{AccountRow, Row, RowView};
use std::alloc::{AllocError, Global};
use std::collections::BTreeMap;

impl<V: RowView> Work<V> {
    /// The accounts of which consensus knows something else than before the block, in the order of
    /// addresses.
    pub fn online(&self) -> Result<OnlineChanges, AllocError>
        ensures changes { V.tells ≡ true → IfOk result (λ cs. AreOnlineChanges self.now.block self.now.now (map online_change_of cs)) }
        ensures ordered { IfOk result (λ cs. IsStrictlySortedBy address_cmp (map (λ c. c.address) cs)) }
    {
        online_changes(self.alloc, &self.rows)
    }
}

// The accounts that differ among the rows that are held.
fn online_changes(alloc: Global, rows: &BTreeMap<Key, Held>) -> Result<OnlineChanges, AllocError>
    ensures items { IfOk result (λ cs. map online_change_of cs ≡ changed_onlines rows.now.entries) }
    ensures keys { IsOrdered key_cmp rows.now }
{
    let mut out = OnlineChanges::new(alloc);
    for (key, held) in rows {
        if let Some(change) = change_at(key, held) {
            out.push(change)?;
        }
    }
    Ok(out)
}

// What is held under a key, where it is an account that differs.
fn change_at(key: &Key, held: &Held) -> Option<OnlineChange>
    ensures { option_map online_change_of result ≡ changed_at key.now held.now }
{
    match key {
        Key::Account(who) => change_of(who, &held.block, &held.row),
        Key::Resource(_, _) | Key::Box(_, _) => None,
    }
}

// What consensus knows of an account now, where it differs.
fn change_of(who: &Address, before: &Option<Row>, now: &Option<Row>) -> Option<OnlineChange>
    ensures { option_map online_change_of result ≡ changed_online who.now (online_of (account_in before.now)) (online_of (account_in now.now)) }
{
    let before = online_in(before);
    let now = online_in(now);
    if same_online(&before, &now) {
        return None;
    }
    Some(OnlineChange { address: *who, now })
}

// What consensus knows of the account of a row that may be there.
fn online_in(row: &Option<Row>) -> Option<OnlineData>
    ensures { result ≡ online_of (account_in row.now) }
{
    match row {
        Some(Row::Account(r)) => online_of(r),
        _ => None,
    }
}

// What consensus knows of an account.
fn online_of(r: &AccountRow) -> Option<OnlineData>
    ensures { result ≡ online_of r.now }
{
    match r.status {
        Status::Online => Some(OnlineData {
            balance: r.balance,
            base: r.base,
            first: r.first,
            last: r.last,
            dilution: r.dilution,
            vote: r.vote,
            selection: r.selection,
        }),
        Status::Offline | Status::NotParticipating => None,
    }
}

// Whether consensus knows the same of both.
fn same_online(before: &Option<OnlineData>, now: &Option<OnlineData>) -> bool
    ensures { result ≡ same_online before.now now.now }
{
    match (before, now) {
        (None, None) => true,
        (Some(before), Some(now)) => before == now,
        _ => false,
    }
}
