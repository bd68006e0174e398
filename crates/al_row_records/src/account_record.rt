//! The record of an account row.
ghost use Rattle.std.specs.Prelude.{◌≡◌, ◌++◌, ◌≤◌, map, IsTrue, OnErr, OnOk};
ghost use Rattle.al_msgpack.specs.declared.val.Val.TheVariants as values;
ghost use Rattle.al_msgpack.specs.Spelled.{IsFront, spelled};
ghost use Rattle.al_record.specs.Canonical.{are_canonical};
ghost use Rattle.al_record.specs.Code.{put_of};
ghost use Rattle.al_record.specs.Columns.{Reads, put};
ghost use Rattle.al_row_records.specs.Tables.{account, account_fields, status_number};

use al_base::{Address, Status};
use al_msgpack::Entry;
use al_record::{Column, Content, HASH, ReadError, Shape, array, check, number, write_listed};
use al_rows::{AccountRow, MAX_BALANCE, MAX_COUNT};
use std::alloc::{AllocError, Global};

/// A count of an account.
const FEW: Shape = Shape::UpTo { most: MAX_COUNT };

const ACCOUNT: [Column; 19] = [
    Column("a", Shape::UpTo { most: 2 }),
    Column("b", Shape::UpTo { most: MAX_BALANCE }),
    Column("c", Shape::Number),
    Column("d", HASH),
    Column("e", HASH),
    Column("f", HASH),
    Column("g", Shape::Array { len: 64 }),
    Column("h", Shape::Number),
    Column("i", Shape::Number),
    Column("j", Shape::Number),
    Column("k", FEW),
    Column("l", FEW),
    Column("m", FEW),
    Column("n", FEW),
    Column("o", FEW),
    Column("p", FEW),
    Column("q", FEW),
    Column("r", FEW),
    Column("s", FEW),
];

/// The account row of a record, or the first fault.
pub(crate) fn read_account(alloc: Global, entries: &[Entry]) -> Result<AccountRow, ReadError>
    requires { IsTrue (are_canonical entries.now) }
    ensures { Reads account entries.now result }
{
    check(alloc, entries, &ACCOUNT)?;
    Ok(AccountRow {
        status: status_of(number(entries, "a")),
        balance: number(entries, "b"),
        base: number(entries, "c"),
        auth: Address(array(entries, "d")),
        vote: array(entries, "e"),
        selection: array(entries, "f"),
        sprf: array(entries, "g"),
        first: number(entries, "h"),
        last: number(entries, "i"),
        dilution: number(entries, "j"),
        assets_held: number(entries, "k"),
        assets_created: number(entries, "l"),
        apps_created: number(entries, "m"),
        apps_opted: number(entries, "n"),
        extra_pages: number(entries, "o"),
        uints: number(entries, "p"),
        byte_slices: number(entries, "q"),
        boxes: number(entries, "r"),
        box_bytes: number(entries, "s"),
    })
}

/// The status of a number of at most 2.
fn status_of(n: u64) -> Status
    ensures { n ≤ 2 → status_number result ≡ n }
{
    match n {
        0 => Status::Offline,
        1 => Status::Online,
        _ => Status::NotParticipating,
    }
}

/// The number of a status.
fn status_number(status: Status) -> u64
    ensures { result ≡ status_number status }
{
    match status {
        Status::Offline => 0,
        Status::Online => 1,
        Status::NotParticipating => 2,
    }
}

/// What stands under each name.
fn contents<'a>(r: &'a AccountRow) -> [Content<'a>; 19]
    ensures { map put_of result ≡ map (λ f. put f r.now) account_fields }
{
    [
        Content::Number(status_number(r.status)),
        Content::Number(r.balance),
        Content::Number(r.base),
        Content::Array(&r.auth.0),
        Content::Array(&r.vote),
        Content::Array(&r.selection),
        Content::Wide(&r.sprf),
        Content::Number(r.first),
        Content::Number(r.last),
        Content::Number(r.dilution),
        Content::Number(r.assets_held),
        Content::Number(r.assets_created),
        Content::Number(r.apps_created),
        Content::Number(r.apps_opted),
        Content::Number(r.extra_pages),
        Content::Number(r.uints),
        Content::Number(r.byte_slices),
        Content::Number(r.boxes),
        Content::Number(r.box_bytes),
    ]
}

/// Appends the record of an account row.
pub(crate) fn write_account(r: &AccountRow, out: &mut Vec<u8>) -> Result<(), AllocError>
    ensures bytes { OnOk result (out.new.items ≡ out.old.items ++ spelled (values.Map (account.write r.now))) }
    ensures front { OnErr result (IsFront out.old.items out.new.items) }
{
    write_listed(&ACCOUNT, &contents(r), out)
}
