ghost use Rattle.std.specs.Prelude.{IfOk};
ghost use Rattle.al_rows.specs.Rows.{AssetParamsInRange, HoldingInRange};

use al_base::{Address, AssetParams, BoxName, Bytes, Key, Special, Status};
use al_moves::{Changes, Rule, Stop, Work};
use al_rewards::{Count, Totals};
use al_rows::{AccountRow, AssetRow, BoxRow, Holding, MapView, Never, Row, account_in};
use al_txn::Pay;
use std::alloc::{AllocError, Global};
use std::collections::BTreeMap;
use std::test::*;

const NOBODY: Address = Address([0; 32]);

const SINK: Address = Address([1; 32]);

const POOL: Address = Address([2; 32]);

const PAYER: Address = Address([3; 32]);

const RECEIVER: Address = Address([4; 32]);

const VOTER: Address = Address([5; 32]);

// A payment by an account with 2,500,000 microAlgos, with a fee of 1,000, and what differs then.
fn paid(alloc: Global, amount: u64) -> Result<Changes, Stop<Never>> {
    let special = Special {
        sink: SINK,
        pool: POOL,
    };
    let view = MapView::new(alloc, BTreeMap::new(alloc));
    let mut work = Work::new(alloc, view, special, 0, 1);
    let sink = AccountRow {
        status: Status::NotParticipating,
        ..AccountRow::none()
    };
    let payer = AccountRow {
        balance: 2_500_000,
        ..AccountRow::none()
    };
    work.set(&Key::Account(SINK), Some(Row::Account(sink)))?;
    work.set(&Key::Account(PAYER), Some(Row::Account(payer)))?;
    work.begin();
    work.move_algos(&PAYER, &SINK, 1_000)?;
    work.rekey(&PAYER, &NOBODY)?;
    let pay = Pay {
        receiver: RECEIVER,
        amount,
        close: NOBODY,
    };
    work.pay(&PAYER, &pay)?;
    work.check_minimum()?;
    match work.finish() {
        Ok(changes) => Ok(changes),
        Err(_) => Err(Stop::Memory),
    }
}

#[test]
fn a_payment(rt: HostRuntime) -> Result<(), Fail> {
    let changes = paid(rt.alloc(), 300_000).ok().ok_or("changes")?;
    let wanted = [(SINK, 1_000), (PAYER, 2_199_000), (RECEIVER, 300_000)];
    assert_eq!(rt; changes.len(), 3);
    for (change, (who, balance)) in changes.as_slice().iter().zip(wanted) {
        assert!(rt; change.key == Key::Account(who));
        assert_eq!(rt; account_in(&change.row).balance, balance);
    }
    Ok(())
}

#[test]
fn a_payment_below_the_minimum(rt: HostRuntime) -> Result<(), Fail> {
    let stop = paid(rt.alloc(), 2_399_001).err();
    let rule = Rule::too_little(42, 99_999, 100_000, &PAYER);
    assert!(rt; matches!(stop, Some(Stop::Rule(broken)) if broken == rule));
    Ok(())
}

/// Payments of a block: payer, receiver, amount and close address; and money and units of each
/// status after it, of those that are online, those that are offline and those that are apart.
const PAYMENTS: [(Address, Address, u64, Address, [u64; 6]); 5] = [
    (
        PAYER,
        SINK,
        1_000,
        NOBODY,
        [1_066_666, 1, 2_632_332, 2, 9_001_000, 9],
    ),
    // To a new account.
    (
        PAYER,
        RECEIVER,
        700_000,
        NOBODY,
        [1_066_666, 1, 2_632_332, 1, 9_001_000, 9],
    ),
    // From one status to another.
    (
        VOTER,
        RECEIVER,
        500_000,
        NOBODY,
        [566_666, 0, 3_132_332, 2, 9_001_000, 9],
    ),
    // An account from before the block goes, and then one that is new.
    (
        PAYER,
        NOBODY,
        0,
        VOTER,
        [2_498_998, 2, 1_200_000, 1, 9_001_000, 9],
    ),
    (
        RECEIVER,
        NOBODY,
        0,
        SINK,
        [2_498_998, 2, 0, 0, 10_201_000, 10],
    ),
];

fn counted(numbers: [u64; 6]) -> Totals {
    Totals {
        level: 66_666,
        online: Count {
            money: numbers[0],
            units: numbers[1],
        },
        offline: Count {
            money: numbers[2],
            units: numbers[3],
        },
        apart: Count {
            money: numbers[4],
            units: numbers[5],
        },
    }
}

// An account of each status, at level 0.
fn holders(alloc: Global) -> Result<MapView, AllocError> {
    let payer = AccountRow {
        balance: 2_500_000,
        ..AccountRow::none()
    };
    let voter = AccountRow {
        status: Status::Online,
        balance: 1_000_000,
        ..AccountRow::none()
    };
    let sink = AccountRow {
        status: Status::NotParticipating,
        balance: 9_000_000,
        ..AccountRow::none()
    };
    let mut rows = BTreeMap::new(alloc);
    rows.insert(Key::Account(PAYER), Row::Account(payer))?;
    rows.insert(Key::Account(VOTER), Row::Account(voter))?;
    rows.insert(Key::Account(SINK), Row::Account(sink))?;
    Ok(MapView::new(alloc, rows))
}

#[test]
fn totals_after_payments(rt: HostRuntime) -> Result<(), Fail> {
    let special = Special {
        sink: SINK,
        pool: POOL,
    };
    let before = counted([1_066_666, 1, 2_633_332, 2, 9_000_000, 9]);
    let view = holders(rt.alloc())?;
    let mut work = Work::new(rt.alloc(), view, special, 66_666, 1);
    assert_eq!(rt; work.totals(&before), before);
    for (who, receiver, amount, close, after) in PAYMENTS {
        let pay = Pay {
            receiver,
            amount,
            close,
        };
        work.pay(&who, &pay).ok().ok_or("payment")?;
        assert_eq!(rt; work.totals(&before), counted(after));
    }
    let row = AccountRow {
        balance: 3_000_000,
        ..AccountRow::none()
    };
    work.set(&Key::Account(VOTER), Some(Row::Account(row)))
        .ok()
        .ok_or("status")?;
    assert_eq!(rt;
        work.totals(&before),
        counted([0, 0, 3_199_998, 3, 10_201_000, 10])
    );
    Ok(())
}

/// Changes of rows of an asset that the payer made: whose row, whether it has the asset's params
/// then, and the creator after it. A row without params is none.
const CREATORS: [(Address, bool, Option<Address>); 8] = [
    // Beside the row from before, which did not change.
    (RECEIVER, true, Some(PAYER)),
    (SINK, true, Some(SINK)),
    (SINK, false, Some(PAYER)),
    // It goes, and comes again.
    (PAYER, false, Some(RECEIVER)),
    (RECEIVER, false, None),
    (VOTER, true, Some(VOTER)),
    (PAYER, true, Some(PAYER)),
    (VOTER, false, Some(PAYER)),
];

fn created(alloc: Global) -> Result<AssetRow, AllocError>
    ensures { IfOk result (λ row. AssetParamsInRange row.params × HoldingInRange row.holding) }
{
    Ok(AssetRow {
        params: Some(AssetParams {
            total: 1,
            decimals: 0,
            default_frozen: false,
            unit: Bytes::of(alloc, b"u")?,
            name: Bytes::of(alloc, b"n")?,
            url: Bytes::of(alloc, b"l")?,
            meta: [0; 32],
            manager: NOBODY,
            reserve: NOBODY,
            freeze: NOBODY,
            clawback: NOBODY,
        }),
        holding: None,
    })
}

// The same, which its creator holds.
fn created_and_held(alloc: Global) -> Result<AssetRow, AllocError>
    ensures { IfOk result (λ row. AssetParamsInRange row.params × HoldingInRange row.holding) }
{
    let made = created(alloc)?;
    Ok(AssetRow {
        params: made.params,
        holding: Some(Holding {
            amount: 9,
            frozen: true,
        }),
    })
}

// The payer's asset, which another holds.
fn one_asset(alloc: Global) -> Result<MapView, AllocError> {
    let held = AssetRow {
        params: None,
        holding: Some(Holding {
            amount: 1,
            frozen: false,
        }),
    };
    let mut rows = BTreeMap::new(alloc);
    rows.insert(Key::Resource(PAYER, 7), Row::Asset(created(alloc)?))?;
    rows.insert(Key::Resource(SINK, 7), Row::Asset(held))?;
    Ok(MapView::new(alloc, rows))
}

fn set_created(
    alloc: Global,
    work: &mut Work<MapView>,
    who: Address,
    has_params: bool,
) -> Result<(), Stop<Never>> {
    if !has_params {
        return work.set(&Key::Resource(who, 7), None);
    }
    match created(alloc) {
        Ok(row) => work.set(&Key::Resource(who, 7), Some(Row::Asset(row))),
        Err(_) => Err(Stop::Memory),
    }
}

#[test]
fn creators(rt: HostRuntime) -> Result<(), Fail> {
    let special = Special {
        sink: SINK,
        pool: POOL,
    };
    let view = one_asset(rt.alloc())?;
    let mut work = Work::new(rt.alloc(), view, special, 0, 1);
    assert!(rt; work.creator(7).ok() == Some(Some(PAYER)));
    for (who, has_params, creator) in CREATORS {
        set_created(rt.alloc(), &mut work, who, has_params)
            .ok()
            .ok_or("set")?;
        assert!(rt; work.creator(7).ok() == Some(creator));
        assert!(rt; work.creator(8).ok() == Some(None));
    }
    Ok(())
}

fn put_held(alloc: Global, work: &mut Work<MapView>) -> Result<(), Stop<Never>> {
    match created_and_held(alloc) {
        Ok(row) => work.put_resource(&PAYER, 7, Some(Row::Asset(row))),
        Err(_) => Err(Stop::Memory),
    }
}

#[test]
fn counts(rt: HostRuntime) -> Result<(), Fail> {
    let special = Special {
        sink: SINK,
        pool: POOL,
    };
    let view = MapView::new(rt.alloc(), BTreeMap::new(rt.alloc()));
    let mut work = Work::new(rt.alloc(), view, special, 0, 1);
    put_held(rt.alloc(), &mut work).ok().ok_or("put")?;
    let row = work.row(&Key::Account(PAYER)).ok().ok_or("row")?;
    let account = account_in(&row);
    assert!(rt; account.assets_created == 1 && account.assets_held == 1);
    work.put_resource(&PAYER, 7, None).ok().ok_or("put")?;
    let row = work.row(&Key::Account(PAYER)).ok().ok_or("row")?;
    assert!(rt; row.is_none());
    let name = BoxName::new(b"a").ok_or("name")?;
    let value = Bytes::of(rt.alloc(), b"")?;
    work.put_box(9, &name, Some(Row::Box(BoxRow { value })))
        .ok()
        .ok_or("put")?;
    let row = work.row(&Key::Box(9, name)).ok().ok_or("row")?;
    assert!(rt; row.is_some());
    Ok(())
}

/// Rekeys of the payer: to whom, and who signs then.
const REKEYS: [(Address, Address); 5] = [
    (RECEIVER, RECEIVER),
    // A zero address changes nothing.
    (NOBODY, RECEIVER),
    (VOTER, VOTER),
    // Its own address is itself.
    (PAYER, NOBODY),
    (PAYER, NOBODY),
];

#[test]
fn rekeys(rt: HostRuntime) -> Result<(), Fail> {
    let special = Special {
        sink: SINK,
        pool: POOL,
    };
    let view = holders(rt.alloc())?;
    let mut work = Work::new(rt.alloc(), view, special, 0, 1);
    for (to, auth) in REKEYS {
        work.begin();
        work.rekey(&PAYER, &to).ok().ok_or("rekey")?;
        let row = work.row(&Key::Account(PAYER)).ok().ok_or("row")?;
        let account = account_in(&row);
        assert!(rt; account.auth == auth);
        assert_eq!(rt; account.balance, 2_500_000);
    }
    // An account that has no row is given one.
    work.rekey(&RECEIVER, &PAYER).ok().ok_or("rekey")?;
    let row = work.row(&Key::Account(RECEIVER)).ok().ok_or("row")?;
    assert!(rt; account_in(&row).auth == PAYER);
    Ok(())
}

// Whether a work shows this row under a key.
fn shows(work: &mut Work<MapView>, key: &Key, wanted: Option<Row>) -> bool {
    match work.row(key) {
        Ok(row) => row == wanted,
        Err(_) => false,
    }
}

// Whether the payer's asset becomes one that it holds.
fn set_held(alloc: Global, work: &mut Work<MapView>) -> bool {
    match created_and_held(alloc) {
        Ok(held) => work
            .set(&Key::Resource(PAYER, 7), Some(Row::Asset(held)))
            .is_ok(),
        Err(_) => false,
    }
}

// A work over the payer's asset.
fn asset_work(alloc: Global) -> Result<Work<MapView>, AllocError> {
    let special = Special {
        sink: SINK,
        pool: POOL,
    };
    Ok(Work::new(alloc, one_asset(alloc)?, special, 0, 1))
}

// A row is that of the view until it is set, with all of its parts.
#[test]
fn rows(rt: HostRuntime) -> Result<(), Fail> {
    let alloc = rt.alloc();
    let key = Key::Resource(PAYER, 7);
    let mut work = asset_work(alloc)?;
    let made = Row::Asset(created(alloc)?);
    assert!(rt; shows(&mut work, &key, Some(made)));
    assert!(rt; set_held(alloc, &mut work));
    let held = Row::Asset(created_and_held(alloc)?);
    assert!(rt; shows(&mut work, &key, Some(held)));
    Ok(())
}

// A row that is taken away is none, and so is one that says nothing.
#[test]
fn no_rows(rt: HostRuntime) -> Result<(), Fail> {
    let alloc = rt.alloc();
    let key = Key::Resource(PAYER, 7);
    let mut work = asset_work(alloc)?;
    assert!(rt; set_held(alloc, &mut work));
    assert!(rt; work.set(&key, None).is_ok());
    assert!(rt; shows(&mut work, &key, None));
    let zero = Row::Account(AccountRow::none());
    assert!(rt; work.set(&Key::Account(PAYER), Some(zero)).is_ok());
    assert!(rt; shows(&mut work, &Key::Account(PAYER), None));
    Ok(())
}

fn set_balance(work: &mut Work<MapView>, who: Address, balance: u64) -> bool {
    if 10_000_000_000_000_000 < balance {
        return false;
    }
    let row = AccountRow {
        balance,
        ..AccountRow::none()
    };
    work.set(&Key::Account(who), Some(Row::Account(row)))
        .is_ok()
}

// The account that the test of minimum balances names, none where it passes.
fn short(work: &mut Work<MapView>) -> Option<Option<Address>> {
    match work.check_minimum() {
        Ok(()) => Some(None),
        Err(Stop::Rule(rule)) => Some(rule.who),
        Err(_) => None,
    }
}

/// Balances that are set, each in a transaction of its own or in the same: whether one begins, whose
/// balance, how many microAlgos, and the account that the test of minimum balances names then: the
/// least below its minimum, of those that differ from the transaction's start.
const MINIMUMS: [(bool, Address, u64, Option<Address>); 10] = [
    (true, VOTER, 99_999, Some(VOTER)),
    (false, PAYER, 99_999, Some(PAYER)),
    (false, RECEIVER, 99_999, Some(PAYER)),
    // What it had before the transaction is no change, and no row has no minimum.
    (false, PAYER, 2_500_000, Some(RECEIVER)),
    (false, RECEIVER, 0, Some(VOTER)),
    (false, VOTER, 1, Some(VOTER)),
    // Only what changes in this transaction is tested, and sink and pool are not.
    (true, SINK, 1, None),
    (false, POOL, 1, None),
    (false, VOTER, 2, Some(VOTER)),
    (false, VOTER, 100_000, None),
];

#[test]
fn minimums(rt: HostRuntime) -> Result<(), Fail> {
    let special = Special {
        sink: SINK,
        pool: POOL,
    };
    let view = holders(rt.alloc())?;
    let mut work = Work::new(rt.alloc(), view, special, 0, 1);
    for (begins, who, balance, named) in MINIMUMS {
        if begins {
            work.begin();
        }
        assert!(rt; set_balance(&mut work, who, balance));
        assert!(rt; short(&mut work) == Some(named));
    }
    Ok(())
}
