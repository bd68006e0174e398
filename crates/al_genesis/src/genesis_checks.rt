//! What makes a genesis record a good one.
ghost use Rattle.std.specs.Prelude.{◌≡◌, ◌<◌, true, false, not, map, MatchOption, nat_lt};
ghost use Rattle.std.specs.List.{list_any};
ghost use Rattle.std.specs.Str.{bytes_eq};
ghost use Rattle.std.specs.Ordering.{is_lt, nat_cmp};
ghost use Rattle.std.specs.Cmp.Lexicographic.{slice_cmp};
ghost use Rattle.al_msgpack.specs.Rising.{rises};
ghost use Rattle.al_genesis.specs.Genesis.{Checks, IsUnordered, IsFirstPoor, addresses_of, balance_of, has_special, has_both, is_at, is_poor, money_of};
ghost use Rattle.al_rows.specs.Limits.{max_balance};

use crate::GenesisFault;
use crate::genesis_fields::{FirstAccount, GenesisRecord};
use al_base::Address;
use al_rows::MAX_BALANCE;

/// The least balance of an account that has nothing else, in microAlgos.
const LEAST_BALANCE: u64 = 100_000;

/// The conditions on a record, in their order.
pub(crate) fn check_fields(fields: &GenesisRecord) -> Result<(), GenesisFault>
    ensures { Checks fields.now result }
{
    let accounts = fields.accounts.as_slice();
    if let Some(place) = first_unordered(accounts) {
        return Err(GenesisFault::Order { place });
    }
    if !has_both(fields) {
        return Err(GenesisFault::Special);
    }
    let balance = balance_of(&fields.pool, accounts);
    if balance < LEAST_BALANCE {
        return Err(GenesisFault::PoolLow { balance });
    }
    if let Some(place) = first_poor(&fields.sink, &fields.pool, accounts) {
        return Err(GenesisFault::Minimum { place });
    }
    if has_too_much(accounts) {
        return Err(GenesisFault::TotalLarge);
    }
    Ok(())
}

/// One address stands before another, byte by byte.
fn is_before(one: &Address, other: &Address) -> bool
    ensures { result ≡ is_lt (slice_cmp nat_cmp one.now.0 other.now.0) }
{
    one.0.as_slice().cmp(other.0.as_slice()).is_lt()
}

/// The first place whose address does not stand behind the one before.
fn first_unordered(accounts: &[FirstAccount]) -> Option<usize>
    ensures { MatchOption result (rises (addresses_of accounts.now) ≡ true) (IsUnordered accounts.now) }
{
    for place in 1..accounts.len() {
        if !is_before(&accounts[place - 1].address, &accounts[place].address) {
            return Some(place);
        }
    }
    None
}

/// The account has this address.
fn is_at(who: &Address, account: &FirstAccount) -> bool
    ensures { result ≡ is_at who.now account.now }
{
    account.address.0.as_slice() == who.0.as_slice()
}

/// An account of this address is there, and does not participate.
fn has_special(who: &Address, accounts: &[FirstAccount]) -> bool
    ensures { result ≡ has_special who.now accounts.now }
{
    for account in accounts {
        if is_at(who, account) && account.row.status == 2 {
            return true;
        }
    }
    false
}

/// Sink and pool are two such accounts.
fn has_both(fields: &GenesisRecord) -> bool
    ensures { result ≡ has_both fields.now.sink fields.now.pool fields.now.accounts }
{
    let accounts = fields.accounts.as_slice();
    fields.sink.0.as_slice() != fields.pool.0.as_slice()
        && has_special(&fields.sink, accounts)
        && has_special(&fields.pool, accounts)
}

/// The balance at an address, in microAlgos; 0 where no account is.
fn balance_of(who: &Address, accounts: &[FirstAccount]) -> u64
    ensures { result ≡ balance_of who.now accounts.now }
{
    for account in accounts {
        if is_at(who, account) {
            return account.row.balance;
        }
    }
    0
}

/// An account other than sink and pool has too little.
fn is_poor(sink: &Address, pool: &Address, account: &FirstAccount) -> bool
    ensures { result ≡ is_poor sink.now pool.now account.now }
{
    !is_at(sink, account) && !is_at(pool, account) && account.row.balance < LEAST_BALANCE
}

/// The first place of such an account.
fn first_poor(sink: &Address, pool: &Address, accounts: &[FirstAccount]) -> Option<usize>
    ensures { MatchOption result (list_any (is_poor sink.now pool.now) accounts.now ≡ false) (IsFirstPoor sink.now pool.now accounts.now) }
{
    for place in 0..accounts.len() {
        if is_poor(sink, pool, &accounts[place]) {
            return Some(place);
        }
    }
    None
}

/// All accounts together have more than there may be.
fn has_too_much(accounts: &[FirstAccount]) -> bool
    ensures { result ≡ nat_lt max_balance (money_of accounts.now) }
{
    let mut money: u64 = 0;
    for account in accounts {
        money = money.saturating_add(account.row.balance);
    }
    money > MAX_BALANCE
}
