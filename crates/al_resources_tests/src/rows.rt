// The rows under calls, and what a work shows of them.
ghost use Rattle.std.specs.Prelude.{◌≤◌, All, IfOk};
ghost use Rattle.al_rows.specs.Rows.{AssetParamsInRange, HoldingInRange, InRange};

use crate::calls::{APP, APP_ACCOUNT, ASSET, NOBODY, name, state, value};
use al_base::{Address, AssetParams, Bytes, Key, Special};
use al_moves::Work;
use al_rows::{AccountRow, AppParams, AppRow, AssetRow, BoxRow, Local, MapView, Row};
use std::alloc::{AllocError, Global};
use std::collections::BTreeMap;
use std::test::*;

/// What an account has of the application: its global state and the account's local state, each 0
/// where it is not there.
pub(crate) type Has = (u8, u8);

/// What is there after a call.
#[derive(Clone, Copy)]
pub(crate) enum Shown {
    /// What accounts 3 and 4 have of the application, of which account 5 has nothing.
    Have(Has, Has),
    /// How many boxes the account of the application has, how many bytes their names and values
    /// have, and its minimum balance in microAlgos.
    Boxes(u64, u64, u64),
    /// The balance of the account of the application in microAlgos, how many assets it holds, and
    /// its minimum balance in microAlgos.
    Own(u64, u64, u64),
}

fn issued(alloc: Global) -> Result<AssetRow, AllocError>
    ensures { IfOk result (λ row. AssetParamsInRange row.params × HoldingInRange row.holding) }
{
    Ok(AssetRow {
        params: Some(AssetParams {
            total: 1,
            decimals: 0,
            default_frozen: false,
            unit: Bytes::of(alloc, b"u")?,
            name: Bytes::of(alloc, b"n")?,
            url: Bytes::of(alloc, b"l")?,
            meta: [0; 32],
            manager: NOBODY,
            reserve: NOBODY,
            freeze: NOBODY,
            clawback: NOBODY,
        }),
        holding: None,
    })
}

// The rows of the accounts 3, 4 and 5.
fn users(alloc: Global) -> Result<BTreeMap<Key, Row>, AllocError>
    ensures { IfOk result (λ rows. All (λ e. InRange e.0 e.1) rows.entries) }
{
    let user = AccountRow {
        balance: 2_500_000,
        ..AccountRow::none()
    };
    let mut rows = BTreeMap::new(alloc);
    rows.insert(Key::Account(Address([3; 32])), Row::Account(user))?;
    rows.insert(Key::Account(Address([4; 32])), Row::Account(user))?;
    rows.insert(Key::Account(Address([5; 32])), Row::Account(user))?;
    Ok(rows)
}

/// A work over the accounts 3, 4 and 5, which have 2,500,000 microAlgos each, the account of the
/// application, which has 1,000, and the asset.
pub(crate) fn begin(alloc: Global) -> Result<Work<MapView>, Fail> {
    let special = Special {
        sink: Address([1; 32]),
        pool: Address([2; 32]),
    };
    let view = MapView::new(alloc, users(alloc)?);
    let mut work = Work::new(alloc, view, special, 0, 1);
    let account = AccountRow {
        balance: 1_000,
        ..AccountRow::none()
    };
    work.set(&Key::Account(APP_ACCOUNT), Some(Row::Account(account)))
        .ok()
        .ok_or("an account")?;
    let asset = issued(alloc)?;
    let key = Key::Resource(Address([6; 32]), ASSET);
    work.set(&key, Some(Row::Asset(asset)))
        .ok()
        .ok_or("an asset")?;
    Ok(work)
}

// 0 for 0, else 1.
fn sign(byte: u8) -> u64
    ensures { result ≤ 1 }
{
    if byte == 0 { 0 } else { 1 }
}

// An account that has this of the application.
fn user_account(has: Has) -> AccountRow {
    let made = sign(has.0);
    let opted = sign(has.1);
    AccountRow {
        balance: 2_500_000,
        apps_created: made,
        apps_opted: opted,
        extra_pages: 2 * made,
        uints: made + 3 * opted,
        byte_slices: 2 * made + 4 * opted,
        ..AccountRow::none()
    }
}

// The row of the application, of an account that has this of it.
fn app_row(alloc: Global, has: Has) -> Result<Option<Row>, AllocError> {
    if has == (0, 0) {
        return Ok(None);
    }
    let params = AppParams {
        global_uints: 1,
        global_slices: 2,
        local_uints: 3,
        local_slices: 4,
        extra_pages: 2,
        state: state(alloc, has.0)?,
    };
    let local = Local {
        uints: 3,
        slices: 4,
        state: state(alloc, has.1)?,
    };
    Ok(Some(Row::App(AppRow {
        params: if has.0 == 0 { None } else { Some(params) },
        local: if has.1 == 0 { None } else { Some(local) },
    })))
}

// Whether a work shows this row.
fn shows(work: &mut Work<MapView>, key: &Key, wanted: Option<Row>) -> bool {
    match work.row(key) {
        Ok(row) => row == wanted,
        Err(_) => false,
    }
}

// Whether an account has this of the application, and is counted for it.
fn has(alloc: Global, work: &mut Work<MapView>, byte: u8, wanted: Has) -> Result<bool, AllocError> {
    let who = Address([byte; 32]);
    let account = Some(Row::Account(user_account(wanted)));
    let row = app_row(alloc, wanted)?;
    Ok(shows(work, &Key::Account(who), account) && shows(work, &Key::Resource(who, APP), row))
}

// Whether the account of the application has this.
fn app_has(work: &mut Work<MapView>, wanted: &AccountRow, least: u64) -> bool {
    match work.row(&Key::Account(APP_ACCOUNT)) {
        Ok(Some(Row::Account(account))) => account == *wanted && account.min_balance() == least,
        _ => false,
    }
}

// Whether the box has a value that makes so many bytes with its name, or is not there for 0.
fn box_has(alloc: Global, work: &mut Work<MapView>, bytes: u64) -> Result<bool, Fail> {
    let key = Key::Box(APP, name()?);
    if bytes == 0 {
        return Ok(shows(work, &key, None));
    }
    let value = value(alloc, bytes.saturating_sub(10) as usize)?;
    Ok(shows(work, &key, Some(Row::Box(BoxRow { value }))))
}

// Whether account 4 was paid so much.
fn is_paid(work: &mut Work<MapView>, amount: u64) -> bool {
    match work.row(&Key::Account(Address([4; 32]))) {
        Ok(Some(Row::Account(account))) => account.balance.saturating_sub(2_500_000) == amount,
        _ => false,
    }
}

// Whether the account of the application has these boxes and no asset.
fn has_boxes(
    alloc: Global,
    work: &mut Work<MapView>,
    boxes: u64,
    bytes: u64,
    least: u64,
) -> Result<bool, Fail> {
    let wanted = AccountRow {
        balance: 1_000,
        boxes,
        box_bytes: bytes,
        ..AccountRow::none()
    };
    Ok(app_has(work, &wanted, least) && box_has(alloc, work, bytes)?)
}

// Whether the account of the application has this and no boxes, and account 4 has what it paid.
fn has_own(work: &mut Work<MapView>, balance: u64, held: u64, least: u64) -> bool {
    let wanted = AccountRow {
        balance,
        assets_held: held,
        ..AccountRow::none()
    };
    app_has(work, &wanted, least) && is_paid(work, 1_000u64.saturating_sub(balance))
}

/// Whether this is there.
pub(crate) fn is_shown(
    alloc: Global,
    work: &mut Work<MapView>,
    shown: Shown,
) -> Result<bool, Fail> {
    match shown {
        Shown::Have(three, four) => Ok(
            has(alloc, work, 3, three)?
                && has(alloc, work, 4, four)?
                && has(alloc, work, 5, (0, 0))?,
        ),
        Shown::Boxes(boxes, bytes, least) => has_boxes(alloc, work, boxes, bytes, least),
        Shown::Own(balance, held, least) => Ok(has_own(work, balance, held, least)),
    }
}
