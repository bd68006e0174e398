//! What all accounts of tables have together.
ghost use Rattle.std.specs.Prelude.{◌≡◌, ◌≤◌, None, All, IfOk, IfSome};
ghost use Rattle.al_rows.specs.Above.{IsStored};
ghost use Rattle.al_rows.specs.Limits.{max_balance};
ghost use Rattle.al_tables.specs.Tables.{IsBatch};

use al_base::{Address, Key, Status};
use al_keeper::{Counted, Fault, MemTables, SureTables, TableKeeper};
use al_opening::{StartRefusal, count_totals};
use al_rewards::{Count, Totals};
use al_rows::{AccountRow, Row, Stored};
use al_tables::{Batch, BatchRow, BatchRows};
use sqlite_items::Items;
use std::alloc::{AllocError, Global};
use std::process::Abort;
use std::test::*;

/// The most that an account of these tests has.
const MOST: u64 = 10_000_000_000_000_000;

/// An account that is online, with this balance.
#[tactic(auto, unfolding(al_rows::specs::Rows::is_zero, al_rows::specs::Rows::is_zero_account))]
fn online(number: u16, balance: u64) -> BatchRow
    requires { balance ≤ max_balance }
    ensures { IfSome result.stored (IsStored result.key) }
{
    let [high, low] = number.to_be_bytes();
    let mut address = [0; 32];
    address[0] = high;
    address[1] = low;
    let row = AccountRow {
        status: Status::Online,
        balance,
        ..AccountRow::none()
    };
    BatchRow {
        key: Key::Account(Address(address)),
        stored: Some(Stored {
            row: Row::Account(row),
            changed: 5,
        }),
    }
}

/// The rows of so many accounts with one balance.
fn rows_of(alloc: Global, count: u16, balance: u64) -> Result<BatchRows, AllocError>
    requires { balance ≤ max_balance }
    ensures { IfOk result (All (λ r. IfSome r.stored (IsStored r.key))) }
{
    let mut rows = Items::new(alloc);
    for number in 0..count {
        rows.push(online(number, balance))?;
    }
    Ok(rows)
}

/// A batch of so many accounts with one balance.
fn batch(alloc: Global, count: u16, balance: u64) -> Result<Batch, AllocError>
    requires { balance ≤ max_balance }
    ensures batch { IfOk result IsBatch }
    ensures from { IfOk result (λ b. b.from ≡ None) }
{
    Ok(Batch {
        from: None,
        to: 5,
        rows: rows_of(alloc, count, balance)?,
        creators: Items::new(alloc),
        history: Items::new(alloc),
        levels: Items::new(alloc),
    })
}

/// What the accounts of these tables have at a level, or what is too much.
fn counted<R: Abort, K: TableKeeper>(
    rt: &R,
    tables: &mut Counted<K>,
    level: u64,
) -> Result<Totals, u128> {
    let answer: Result<Totals, StartRefusal<Fault<K>, u8>> = count_totals(tables, level);
    match answer {
        Ok(totals) => Ok(totals),
        Err(StartRefusal::Total { counted }) => Err(counted),
        Err(_) => {
            assert!(rt; false);
            Err(0)
        }
    }
}

/// The totals of accounts that are online.
fn all_online(level: u64, money: u64, units: u64) -> Totals {
    let mut totals = Totals::new(level);
    totals.online = Count { money, units };
    totals
}

#[test]
fn totals_of_pages(rt: HostRuntime) -> Result<(), Fail> {
    for count in [0, 3, 511, 512, 513] {
        let mut tables = Counted::new(SureTables::new(rt.alloc()));
        let all = batch(rt.alloc(), count, 1_500_000)?;
        assert!(rt; tables.commit(&all).is_ok());
        let n = count as u64;
        assert!(rt;
            counted(&rt, &mut tables, 4) == Ok(all_online(4, n * 1_500_004, n)),
            "{count}"
        );
    }
    Ok(())
}

#[test]
fn too_much(rt: HostRuntime) -> Result<(), Fail> {
    let mut tables = Counted::new(SureTables::new(rt.alloc()));
    let all = batch(rt.alloc(), 2, MOST / 2)?;
    assert!(rt; tables.commit(&all).is_ok());
    let half = MOST / 2;
    assert!(rt; counted(&rt, &mut tables, 0) == Ok(all_online(0, MOST, half / 500_000)));
    assert!(rt; counted(&rt, &mut tables, 1) == Err(MOST as u128 + half as u128 / 500_000));
    Ok(())
}

#[test]
fn a_fault(rt: HostRuntime) -> Result<(), Fail> {
    let mut tables = Counted::new(MemTables::new(rt.alloc(), &[1])?);
    let answer: Result<Totals, StartRefusal<Fault<MemTables>, u8>> = count_totals(&mut tables, 0);
    assert!(rt; matches!(answer, Err(StartRefusal::Tables(_))));
    Ok(())
}
