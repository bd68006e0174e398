//! The record of a row under its key.
ghost use Rattle.std.specs.Prelude.{◌≡◌, ◌++◌, IsTrue, OnErr, OnOk};
ghost use Rattle.al_msgpack.specs.declared.val.Val.TheVariants as values;
ghost use Rattle.al_msgpack.specs.Spelled.{IsFront, spelled};
ghost use Rattle.al_record.specs.Canonical.{are_canonical, canonical};
ghost use Rattle.al_row_records.specs.RowRecords.{ReadsEntries, ReadsResource, ReadsRow, row_written};

use crate::account_record::{read_account, write_account};
use crate::app_record::{read_app, write_app};
use crate::asset_record::{read_asset, write_asset};
use crate::box_record::{read_box, write_box};
use al_base::Key;
use al_msgpack::{Entry, Val};
use al_record::{ReadError, field, number_kind, range};
use al_rows::Row;
use std::alloc::{AllocError, Global};

/// The row of a value under a key, or the first fault.
pub(crate) fn read_row(alloc: Global, key: &Key, v: &Val) -> Result<Row, ReadError>
    requires { IsTrue (canonical v.now) }
    ensures { ReadsRow key.now v.now result }
{
    match v {
        Val::Map(entries) => read_entries(alloc, key, entries.as_slice()),
        _ => Err(field(alloc, "")),
    }
}

/// The row of a record under a key, or the first fault.
fn read_entries(alloc: Global, key: &Key, entries: &[Entry]) -> Result<Row, ReadError>
    requires { IsTrue (are_canonical entries.now) }
    ensures { ReadsEntries key.now entries.now result }
{
    match key {
        Key::Account(_) => Ok(Row::Account(read_account(alloc, entries)?)),
        Key::Resource(_, _) => read_resource(alloc, entries),
        Key::Box(_, _) => Ok(Row::Box(read_box(alloc, entries)?)),
    }
}

/// The asset or application row of a record, or the first fault.
fn read_resource(alloc: Global, entries: &[Entry]) -> Result<Row, ReadError>
    requires { IsTrue (are_canonical entries.now) }
    ensures { ReadsResource entries.now result }
{
    match number_kind(alloc, entries, "x")? {
        1 => Ok(Row::Asset(read_asset(alloc, entries)?)),
        2 => Ok(Row::App(read_app(alloc, entries)?)),
        _ => Err(range(alloc, "x")),
    }
}

/// Appends the record of a row. Where memory is short, a part may stay behind what stood there.
pub(crate) fn write_row(row: &Row, out: &mut Vec<u8>) -> Result<(), AllocError>
    ensures bytes { OnOk result (out.new.items ≡ out.old.items ++ spelled (values.Map (row_written row.now))) }
    ensures front { OnErr result (IsFront out.old.items out.new.items) }
{
    match row {
        Row::Account(r) => write_account(r, out),
        Row::Asset(a) => write_asset(a, out),
        Row::App(a) => write_app(a, out),
        Row::Box(b) => write_box(b, out),
    }
}
