use al_base::{Address, Key, Special, Status};
use al_moves::{Stop, Work};
use al_rows::{AccountRow, MapView, Row, account_in};
use al_txn::KeyReg;
use std::alloc::{AllocError, Global};
use std::collections::BTreeMap;
use std::test::*;

const SINK: Address = Address([1; 32]);

const POOL: Address = Address([2; 32]);

const VOTER: Address = Address([3; 32]);

// A work in a round, over an account with a status and with keys up to a round. Rewards of it are
// pending.
fn work_over(
    alloc: Global,
    status: Status,
    last: u64,
    round: u64,
) -> Result<Work<MapView>, AllocError> {
    let special = Special {
        sink: SINK,
        pool: POOL,
    };
    let voter = AccountRow {
        status,
        balance: 2_500_000,
        vote: [7; 32],
        selection: [8; 32],
        sprf: [9; 64],
        first: 1,
        last,
        dilution: 1_000,
        ..AccountRow::none()
    };
    let mut rows = BTreeMap::new(alloc);
    rows.insert(Key::Account(VOTER), Row::Account(voter))?;
    let view = MapView::new(alloc, rows);
    Ok(Work::new(alloc, view, special, 66_666, round))
}

// Whether the account is this.
fn shows(work: &mut Work<MapView>, wanted: &AccountRow) -> bool {
    match work.row(&Key::Account(VOTER)) {
        Ok(row) => account_in(&row) == *wanted,
        Err(_) => false,
    }
}

// The account with a status and without keys.
fn keyless(status: Status) -> AccountRow {
    AccountRow {
        status,
        balance: 2_500_000,
        ..AccountRow::none()
    }
}

// The account with a status and with keys.
fn keyed(status: Status, keys: &KeyReg) -> AccountRow {
    AccountRow {
        vote: keys.vote,
        selection: keys.selection,
        sprf: keys.sprf,
        first: keys.first,
        last: keys.last,
        dilution: keys.dilution,
        ..keyless(status)
    }
}

// Keys for these rounds, as the account has them.
fn old_keys(first: u64, last: u64) -> KeyReg {
    KeyReg {
        vote: [7; 32],
        selection: [8; 32],
        sprf: [9; 64],
        first,
        last,
        dilution: 1_000,
        nonpart: false,
    }
}

// Other keys for these rounds.
fn new_keys(first: u64, last: u64) -> KeyReg {
    KeyReg {
        vote: [17; 32],
        selection: [18; 32],
        sprf: [19; 64],
        first,
        last,
        dilution: 2_000,
        nonpart: false,
    }
}

/// Accounts in round 20: their status, the last round of their keys, and whether these have expired.
const EXPIRIES: [(Status, u64, bool); 6] = [
    (Status::Online, 19, true),
    (Status::Online, 20, false),
    (Status::Online, 21, false),
    // 0 is no last round.
    (Status::Online, 0, false),
    (Status::Offline, 19, false),
    (Status::NotParticipating, 19, false),
];

#[test]
fn expiries(rt: HostRuntime) -> Result<(), Fail> {
    for (status, last, expires) in EXPIRIES {
        let mut work = work_over(rt.alloc(), status, last, 20)?;
        assert!(rt; work.expire(&VOTER).ok() == Some(expires));
        let wanted = if expires {
            keyless(Status::Offline)
        } else {
            keyed(status, &old_keys(1, last))
        };
        assert!(rt; shows(&mut work, &wanted));
    }
    Ok(())
}

// The number of the rule that refuses a registration, none where it is taken.
fn refusal(work: &mut Work<MapView>, keys: &KeyReg) -> Option<Option<u64>> {
    match work.keyreg(&VOTER, keys) {
        Ok(()) => Some(None),
        Err(Stop::Rule(rule)) => Some(Some(rule.number)),
        Err(_) => None,
    }
}

/// Registrations of keys: the round, the status of the account, the first and the last round of the
/// keys, and the rule that refuses them.
const REGISTRATIONS: [(u64, Status, u64, u64, Option<u64>); 9] = [
    // They vote from the next round on at the latest.
    (30, Status::Offline, 31, 1_031, None),
    (29, Status::Offline, 31, 1_031, Some(56)),
    (30, Status::Online, 1, 31, None),
    // They vote in a later round, and this is tested first.
    (30, Status::Online, 1, 30, Some(45)),
    (29, Status::Offline, 31, 29, Some(45)),
    (30, Status::NotParticipating, 31, 1_031, Some(44)),
    (30, Status::NotParticipating, 1, 30, Some(44)),
    // The last rounds of all.
    (
        18_446_744_073_709_551_614,
        Status::Offline,
        18_446_744_073_709_551_615,
        18_446_744_073_709_551_615,
        None,
    ),
    (
        18_446_744_073_709_551_615,
        Status::Offline,
        18_446_744_073_709_551_615,
        18_446_744_073_709_551_615,
        Some(45),
    ),
];

#[test]
fn registrations(rt: HostRuntime) -> Result<(), Fail> {
    for (round, status, first, last, rule) in REGISTRATIONS {
        let mut work = work_over(rt.alloc(), status, 100, round)?;
        let keys = new_keys(first, last);
        assert!(rt; refusal(&mut work, &keys) == Some(rule));
        let wanted = if rule.is_none() {
            keyed(Status::Online, &keys)
        } else {
            keyed(status, &old_keys(1, 100))
        };
        assert!(rt; shows(&mut work, &wanted));
    }
    Ok(())
}

// Without keys an account goes offline, or takes part no more, and then for good.
#[test]
fn registrations_without_keys(rt: HostRuntime) -> Result<(), Fail> {
    for (nonpart, status, then) in [
        (false, Status::Offline, None),
        (true, Status::NotParticipating, Some(44)),
    ] {
        let mut work = work_over(rt.alloc(), Status::Online, 100, 30)?;
        let keys = KeyReg {
            vote: [0; 32],
            selection: [0; 32],
            sprf: [0; 64],
            first: 0,
            last: 0,
            dilution: 0,
            nonpart,
        };
        assert!(rt; refusal(&mut work, &keys) == Some(None));
        assert!(rt; shows(&mut work, &keyless(status)));
        assert!(rt; refusal(&mut work, &new_keys(31, 1_031)) == Some(then));
    }
    Ok(())
}
