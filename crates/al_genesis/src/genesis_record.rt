//! The genesis record as it stands in bytes.
ghost use Rattle.std.specs.Prelude.{◌≡◌, IsTrue, IfOk};
ghost use Rattle.al_msgpack.specs.Rising.{canonical, are_canonical};
ghost use Rattle.al_record.specs.Columns.{Reads, ReadsOne};
ghost use Rattle.al_genesis.specs.Genesis.{account, row, genesis};

use crate::genesis_fields::{FirstAccount, FirstRow, GenesisRecord};
use al_base::Address;
use al_msgpack::{Entries, Entry, Val, write};
use al_record::{
    COUNT, Column, Content, HASH, ReadError, Record, Shape, array, check, check_fields,
    check_ranges, field, list, listed, map, number, put_map, read_all, text,
};
use al_rows::MAX_BALANCE;
use std::alloc::{AllocError, Global};

const ROW: [Column; 8] = [
    Column("a", Shape::UpTo { most: 2 }),
    Column("b", Shape::UpTo { most: MAX_BALANCE }),
    Column("e", HASH),
    Column("f", HASH),
    Column("g", Shape::Array { len: 64 }),
    Column("h", Shape::Number),
    Column("i", Shape::Number),
    Column("j", Shape::Number),
];

const ACCOUNT: [Column; 2] = [Column("addr", HASH), Column("row", Shape::Map)];

const GENESIS: [Column; 7] = [
    Column("alloc", Shape::List),
    Column("cpi", COUNT),
    Column("fees", HASH),
    Column("id", Shape::Text),
    Column("intv", COUNT),
    Column("rwd", HASH),
    Column("ts", Shape::Number),
];

/// The row of a record, or the first fault.
pub(crate) fn read_row(alloc: Global, entries: &[Entry]) -> Result<FirstRow, ReadError>
    requires { IsTrue (are_canonical entries.now) }
    ensures { Reads row entries.now result }
{
    check(alloc, entries, &ROW)?;
    Ok(FirstRow {
        status: number(entries, "a"),
        balance: number(entries, "b"),
        vote: array(entries, "e"),
        selection: array(entries, "f"),
        sprf: array(entries, "g"),
        first: number(entries, "h"),
        last: number(entries, "i"),
        dilution: number(entries, "j"),
    })
}

/// The record of a row.
fn row_entries(alloc: Global, r: &FirstRow) -> Result<Entries, AllocError>
    ensures { IfOk result (λ es. es ≡ row.write r.now) }
{
    listed(
        alloc,
        &ROW,
        &[
            Content::Number(r.status),
            Content::Number(r.balance),
            Content::Array(&r.vote),
            Content::Array(&r.selection),
            Content::Wide(&r.sprf),
            Content::Number(r.first),
            Content::Number(r.last),
            Content::Number(r.dilution),
        ],
    )
}

impl Record for FirstAccount {
    ghost use Rattle.al_genesis.specs.Genesis.{account};

    ghost format = { account };

    fn read(alloc: Global, entries: &[Entry]) -> Result<FirstAccount, ReadError> {
        check_fields(alloc, entries, &ACCOUNT)?;
        check_ranges(alloc, entries, &ACCOUNT)?;
        let row = read_row(alloc, map(entries, "row"))?;
        Ok(FirstAccount {
            address: Address(array(entries, "addr")),
            row,
        })
    }

    fn write(&self, out: &mut Vec<u8>) -> Result<(), AllocError> {
        let alloc = *out.allocator();
        write(&Val::Map(account_entries(alloc, self)?), out)
    }
}

/// The record of an account.
fn account_entries(alloc: Global, a: &FirstAccount) -> Result<Entries, AllocError>
    ensures { IfOk result (λ es. es ≡ account.write a.now) }
{
    let mut out = listed(alloc, &ACCOUNT[..1], &[Content::Array(&a.address.0)])?;
    put_map(alloc, &mut out, "row", row_entries(alloc, &a.row)?)?;
    Ok(out)
}

/// The fields of a genesis record, or the first fault.
pub(crate) fn read_genesis(alloc: Global, entries: &[Entry]) -> Result<GenesisRecord, ReadError>
    requires { IsTrue (are_canonical entries.now) }
    ensures { Reads genesis entries.now result }
{
    check_fields(alloc, entries, &GENESIS)?;
    let accounts = read_all::<FirstAccount>(alloc, list(entries, "alloc"))?;
    check_ranges(alloc, entries, &GENESIS)?;
    Ok(GenesisRecord {
        accounts,
        catch_interval: number(entries, "cpi"),
        sink: Address(array(entries, "fees")),
        id: text(alloc, entries, "id")?,
        interval: number(entries, "intv"),
        pool: Address(array(entries, "rwd")),
        ts: number(entries, "ts"),
    })
}

/// The same of any value. One that is no map is a Field fault of the empty name.
pub(crate) fn read_value(alloc: Global, v: &Val) -> Result<GenesisRecord, ReadError>
    requires { IsTrue (canonical v.now) }
    ensures { ReadsOne genesis v.now result }
{
    match v {
        Val::Map(entries) => read_genesis(alloc, entries.as_slice()),
        _ => Err(field(alloc, "")),
    }
}
