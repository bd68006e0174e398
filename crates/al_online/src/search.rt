//! A list of accounts in the order of their addresses.
ghost use Rattle.std.specs.Prelude.{◌≡◌, IfOk, IfErr, OnOk};
ghost use Rattle.std.specs.Option.{option_copied};
ghost use Rattle.std.specs.FinMap.{find, put};
ghost use Rattle.al_base.specs.Keys.{address_cmp};
ghost use Rattle.al_online.specs.Search.{AreInOrder, IsGapFor, IsPlaceOf, put_account, put_accounts, without_account};

use al_base::{Address, OnlineChange, OnlineData};
use std::alloc::AllocError;

// Where an account stands, or else where it would.
fn place_of(online: &[(Address, OnlineData)], who: &Address) -> Result<usize, usize>
    requires { AreInOrder online.now }
    ensures found { IfOk result (IsPlaceOf online.now who.now) }
    ensures absent { IfErr result (IsGapFor online.now who.now) }
{
    online.binary_search_by_key(who, |entry| entry.0)
}

/// The data of an account.
pub fn data_of<'a>(online: &'a [(Address, OnlineData)], who: &Address) -> Option<&'a OnlineData>
    requires { AreInOrder online.now }
    ensures { option_copied result ≡ find address_cmp who.now online.now }
{
    match place_of(online, who) {
        Ok(i) => Some(&online[i].1),
        Err(_) => None,
    }
}

/// Puts what accounts have become, one after another. Errors: no memory.
pub fn put_accounts(
    online: &mut Vec<(Address, OnlineData)>,
    changes: &[OnlineChange],
) -> Result<(), AllocError>
    requires { AreInOrder online.old.items }
    ensures ok { OnOk result (online.new.items ≡ put_accounts changes.now online.old.items) }
    ensures order { OnOk result (AreInOrder online.new.items) }
{
    for change in changes {
        put_account(online, change)?;
    }
    Ok(())
}

// Puts what an account has become.
fn put_account(
    online: &mut Vec<(Address, OnlineData)>,
    change: &OnlineChange,
) -> Result<(), AllocError>
    requires { AreInOrder online.old.items }
    ensures { OnOk result (online.new.items ≡ put_account change.entry.now.address change.entry.now.now online.old.items) }
{
    match change.now {
        Some(known) => put(online, change.address, known),
        None => {
            take_away(online, &change.address);
            Ok(())
        }
    }
}

// Puts the data of an account in place of those that it had.
fn put(
    online: &mut Vec<(Address, OnlineData)>,
    who: Address,
    known: OnlineData,
) -> Result<(), AllocError>
    requires { AreInOrder online.old.items }
    ensures { OnOk result (online.new.items ≡ put address_cmp who known online.old.items) }
{
    match place_of(online, &who) {
        Ok(i) => online[i] = (who, known),
        Err(i) => online.insert(i, (who, known))?,
    }
    Ok(())
}

// Takes an account away.
fn take_away(online: &mut Vec<(Address, OnlineData)>, who: &Address)
    requires { AreInOrder online.old.items }
    ensures { online.new.items ≡ without_account who.now online.old.items }
{
    if let Ok(i) = place_of(online, who) {
        online.remove(i);
    }
}
