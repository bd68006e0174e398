//! The rows that a genesis begins with.
ghost use Rattle.std.specs.Prelude.{◌≡◌, All, IfOk, OnOk, cond};
ghost use Rattle.std.specs.FinMap.{from_entries};
ghost use Rattle.std.specs.BTreeMap.{is_at};
ghost use Rattle.al_base.specs.Keys.{key_cmp};
ghost use Rattle.al_base.specs.declared.key.Key.TheVariants.{Account};
ghost use Rattle.al_overlay.specs.Held.{at};
ghost use Rattle.al_rows.specs.Rows.{AccountInRange, IsKept, unless_zero};
ghost use Rattle.al_rows.specs.declared.row.Row.TheVariants as row;
ghost use Rattle.al_deltas.specs.Queue.{stored_at};
ghost use Rattle.al_rewards.specs.Totals.{AreTotals};
ghost use Rattle.al_moves.specs.Online.{online_of};
ghost use Rattle.al_eval.specs.Start.{start_online, start_rows, start_totals};

use al_base::{Key, OnlineChange, OnlineChanges, OnlineData, Status};
use al_deltas::{put_row, take_row};
use al_genesis::GenesisRow;
use al_moves::share_of;
use al_rewards::Totals;
use al_rows::{AccountRow, Row, Stored};
use std::alloc::{AllocError, Global};
use std::collections::BTreeMap;

// Puts the row of an account, a zero row being none.
fn put_account(rows: &mut BTreeMap<Key, Stored>, account: &GenesisRow) -> Result<(), AllocError>
    ensures { OnOk result ((q : _) → at rows.new.entries q ≡ cond (is_at (key_cmp (Account account.now.address)) q) (stored_at 0 (unless_zero (row.Account account.now.row))) (at rows.old.entries q)) }
{
    let key = Key::Account(account.address);
    match Row::Account(account.row).unless_zero() {
        Some(row) => put_row(rows, &key, Stored { row, changed: 0 }),
        None => {
            take_row(rows, &key);
            Ok(())
        }
    }
}

/// The rows of round 0: those of the accounts, which no block has changed.
pub fn start_rows(
    alloc: Global,
    accounts: &[GenesisRow],
) -> Result<BTreeMap<Key, Stored>, AllocError>
    requires { All (λ a. AccountInRange a.row) accounts.now }
    ensures value { IfOk result (λ rows. from_entries rows.entries ≡ start_rows accounts.now) }
    ensures kept { IfOk result (λ rows. All (λ e. IsKept e.0 e.1.row) rows.entries) }
{
    let mut rows = BTreeMap::new(alloc);
    for account in accounts {
        put_account(&mut rows, account)?;
    }
    let _count = rows.len();
    Ok(rows)
}

/// What the accounts have together in round 0. Each number stops at 2^64 - 1, which those of a
/// genesis do not reach.
pub fn start_totals(accounts: &[GenesisRow]) -> Totals
    ensures { AreTotals (start_totals accounts.now) → result ≡ start_totals accounts.now }
{
    let mut totals = Totals::new(0);
    for account in accounts {
        totals.change(None, Some(&share_of(&account.row)));
    }
    totals
}

// What consensus knows of an account, none where it is not online.
fn online_of(r: &AccountRow) -> Option<OnlineData>
    ensures { result ≡ online_of r.now }
{
    match r.status {
        Status::Online => Some(OnlineData {
            balance: r.balance,
            base: r.base,
            first: r.first,
            last: r.last,
            dilution: r.dilution,
            vote: r.vote,
            selection: r.selection,
        }),
        Status::Offline | Status::NotParticipating => None,
    }
}

/// What consensus knows of each account in round 0.
pub fn start_online(alloc: Global, accounts: &[GenesisRow]) -> Result<OnlineChanges, AllocError>
    ensures { IfOk result (λ cs. cs ≡ start_online accounts.now) }
{
    let mut changes = OnlineChanges::new(alloc);
    for account in accounts {
        changes.push(OnlineChange {
            address: account.address,
            now: online_of(&account.row),
        })?;
    }
    Ok(changes)
}
