ghost use Rattle.std.specs.Prelude.{◌≤◌};
ghost use Rattle.al_rows.specs.Rows.{AccountInRange};

use al_base::{Address, Key, OnlineChange, Special, Status};
use al_moves::{Stop, Work};
use al_rows::{AccountRow, MapView, Never, Row};
use std::alloc::{AllocError, Global};
use std::collections::BTreeMap;
use std::test::*;

/// An account, by the byte that its address has 32 times, and its balance, 0 where it is not online.
type Known = (u8, u64);

/// Rows that are set: whose, its status, and its balance, 0 with the status offline being no row;
/// and what consensus knows then that it did not know before. Then the accounts 3 and 4 were online
/// and 5 offline, each with 1,000,000 microAlgos.
const SET: [(u8, Status, u64, &[Known]); 9] = [
    // What stood there before.
    (3, Status::Online, 1_000_000, &[]),
    (5, Status::Offline, 7, &[]),
    (4, Status::Online, 2_000_000, &[(4, 2_000_000)]),
    (5, Status::Online, 8, &[(4, 2_000_000), (5, 8)]),
    (
        3,
        Status::NotParticipating,
        9,
        &[(3, 0), (4, 2_000_000), (5, 8)],
    ),
    (4, Status::Online, 1_000_000, &[(3, 0), (5, 8)]),
    (3, Status::Offline, 0, &[(3, 0), (5, 8)]),
    (5, Status::Offline, 0, &[(3, 0)]),
    (3, Status::Online, 1_000_000, &[]),
];

fn row(status: Status, balance: u64) -> AccountRow
    requires { balance ≤ 10000000 }
    ensures { AccountInRange result }
{
    AccountRow {
        status,
        balance,
        vote: [7; 32],
        ..AccountRow::none()
    }
}

fn before(alloc: Global) -> Result<MapView, AllocError> {
    let online = row(Status::Online, 1_000_000);
    let offline = row(Status::Offline, 1_000_000);
    let mut rows = BTreeMap::new(alloc);
    rows.insert(Key::Account(Address([3; 32])), Row::Account(online))?;
    rows.insert(Key::Account(Address([4; 32])), Row::Account(online))?;
    rows.insert(Key::Account(Address([5; 32])), Row::Account(offline))?;
    Ok(MapView::new(alloc, rows))
}

fn set(work: &mut Work<MapView>, who: u8, status: Status, balance: u64) -> Result<(), Stop<Never>> {
    let key = Key::Account(Address([who; 32]));
    if status == Status::Offline && balance == 0 {
        return work.set(&key, None);
    }
    if balance > 10_000_000 {
        return Err(Stop::Memory);
    }
    work.set(&key, Some(Row::Account(row(status, balance))))
}

// Whether this is what consensus knows otherwise.
fn are(changes: &[OnlineChange], wanted: &[Known]) -> bool {
    if changes.len() != wanted.len() {
        return false;
    }
    for (change, (who, balance)) in changes.iter().zip(wanted) {
        let known = match &change.now {
            Some(data) if data.vote == [7; 32] => data.balance,
            Some(_) => return false,
            None => 0,
        };
        if change.address != Address([*who; 32]) || known != *balance {
            return false;
        }
    }
    true
}

#[test]
fn online_accounts(rt: HostRuntime) -> Result<(), Fail> {
    let special = Special {
        sink: Address([1; 32]),
        pool: Address([2; 32]),
    };
    let view = before(rt.alloc())?;
    let mut work = Work::new(rt.alloc(), view, special, 0, 1);
    for (place, (who, status, balance, wanted)) in SET.iter().enumerate() {
        set(&mut work, *who, *status, *balance).ok().ok_or("set")?;
        let changes = work.online()?;
        assert!(rt; are(changes.as_slice(), wanted), "at {place}");
    }
    Ok(())
}
