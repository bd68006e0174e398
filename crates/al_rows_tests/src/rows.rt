use al_base::{Address, AssetParams, Bytes, Key};
use al_rows::{
    AccountRow, AppParams, AppRow, AssetRow, BoxRow, Holding, Local, MapView, Row, RowView, Stored,
    StoredView, copy_row, creators_of,
};
use std::alloc::{AllocError, Global};
use std::collections::BTreeMap;
use std::test::*;

// An account alone, one with a box of 10 and 90 bytes, and one with each other thing once.
#[test]
fn minimum_balances(rt: HostRuntime) {
    let alone = AccountRow::none();
    assert_eq!(rt; alone.min_balance(), 100_000);
    let boxed = AccountRow {
        boxes: 1,
        box_bytes: 100,
        ..alone
    };
    assert_eq!(rt; boxed.min_balance(), 142_500);
    let rich = AccountRow {
        assets_held: 1,
        apps_created: 1,
        apps_opted: 1,
        extra_pages: 1,
        uints: 1,
        byte_slices: 1,
        ..alone
    };
    assert_eq!(rt; rich.min_balance(), 578_500);
}

fn params(alloc: Global) -> Result<AssetParams, AllocError> {
    Ok(AssetParams {
        total: 7,
        decimals: 2,
        default_frozen: true,
        unit: Bytes::of(alloc, b"u")?,
        name: Bytes::of(alloc, b"n")?,
        url: Bytes::of(alloc, b"")?,
        meta: [1; 32],
        manager: Address([2; 32]),
        reserve: Address([3; 32]),
        freeze: Address([4; 32]),
        clawback: Address([5; 32]),
    })
}

fn app(alloc: Global) -> Result<AppRow, AllocError> {
    Ok(AppRow {
        params: Some(AppParams {
            global_uints: 1,
            global_slices: 2,
            local_uints: 3,
            local_slices: 4,
            extra_pages: 3,
            state: Bytes::of(alloc, b"g")?,
        }),
        local: Some(Local {
            uints: 5,
            slices: 6,
            state: Bytes::of(alloc, b"l")?,
        }),
    })
}

fn is_copied(alloc: Global, row: Row) -> Result<bool, AllocError> {
    let stored = Stored { row, changed: 3 };
    let copy = stored.copy(alloc)?;
    let row = Some(copy.row);
    Ok(copy_row(alloc, &row)? == Some(stored.row))
}

// A row of each kind, with all of its parts.
#[test]
fn copies(rt: HostRuntime) -> Result<(), Fail> {
    let alloc = rt.alloc();
    assert!(rt; is_copied(alloc, Row::Account(AccountRow::none()))?);
    let asset = AssetRow {
        params: Some(params(alloc)?),
        holding: Some(Holding {
            amount: 1,
            frozen: true,
        }),
    };
    assert!(rt; is_copied(alloc, Row::Asset(asset))?);
    assert!(rt; is_copied(alloc, Row::App(app(alloc)?))?);
    let value = Bytes::of(alloc, b"v")?;
    assert!(rt; is_copied(alloc, Row::Box(BoxRow { value }))?);
    Ok(())
}

// Whether a view shows a row with params under a key, none where it shows no row.
fn has_params<V: RowView>(view: &mut V, key: &Key) -> Option<bool> {
    match view.row(key) {
        Ok(Some(row)) => Some(row.has_params()),
        Ok(None) => None,
        Err(_) => None,
    }
}

// Whether a view shows that there is no row under a key.
fn has_none<V: RowView>(view: &mut V, key: &Key) -> bool {
    match view.row(key) {
        Ok(row) => row.is_none(),
        Err(_) => false,
    }
}

// The creator that a view shows, none where it fails.
fn creator<V: RowView>(view: &mut V, id: u64) -> Option<Option<Address>> {
    match view.creator(id) {
        Ok(who) => Some(who),
        Err(_) => None,
    }
}

// Whether a row with params is shown under the key of an asset, its creator by its id, and nothing
// else.
fn shows<V: RowView>(view: &mut V) -> bool {
    let who = Address([1; 32]);
    if has_params(view, &Key::Resource(who, 5)) != Some(true) {
        return false;
    }
    if !has_none(view, &Key::Account(who)) {
        return false;
    }
    if creator(view, 5) != Some(Some(who)) {
        return false;
    }
    creator(view, 6) == Some(None)
}

#[test]
fn views(rt: HostRuntime) -> Result<(), Fail> {
    let alloc = rt.alloc();
    let key = Key::Resource(Address([1; 32]), 5);
    let row = Row::Asset(AssetRow {
        params: Some(params(alloc)?),
        holding: None,
    });
    let mut stored = BTreeMap::new(alloc);
    stored.insert(
        key,
        Stored {
            row: row.copy(alloc)?,
            changed: 0,
        },
    )?;
    assert!(rt; shows(&mut StoredView::new(alloc, &stored)));
    let creators = creators_of(alloc, &stored)?;
    assert!(rt; shows(&mut StoredView::indexed(alloc, &stored, &creators)));
    let mut rows = BTreeMap::new(alloc);
    rows.insert(key, row)?;
    assert!(rt; shows(&mut MapView::new(alloc, rows)));
    Ok(())
}
