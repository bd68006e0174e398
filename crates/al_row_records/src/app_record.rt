//! The record of an application row. The fields of an absent part are unknown.
ghost use Rattle.std.specs.Prelude.{◌≡◌, ◌++◌, codes, IfOk, IsTrue, Ok, OnErr, OnOk};
ghost use Rattle.al_msgpack.specs.declared.val.Val.TheVariants as values;
ghost use Rattle.al_msgpack.specs.Spelled.{IsFront, spelled};
ghost use Rattle.al_record.specs.Canonical.{are_canonical};
ghost use Rattle.al_record.specs.Columns.{Passes, Reads, first_fault, rules_of};
ghost use Rattle.al_record.specs.Kinds.{number_kind};
ghost use Rattle.al_row_records.specs.Parts.{ShowsPart};
ghost use Rattle.al_row_records.specs.Tables.{app, app_fields, app_params_fields, local_fields};

use al_msgpack::Entry;
use al_record::{Column, Content, ReadError, Shape, bytes, check, flag, number, write_listed};
use al_rows::{AppParams, AppRow, Local};
use std::alloc::{AllocError, Global};

/// A number of a schema.
const SCHEMA: Shape = Shape::UpTo { most: 64 };

/// Extra pages.
const PAGES: Shape = Shape::UpTo { most: 3 };

const STATE: Shape = Shape::Bytes {
    least: 0,
    most: 8192,
};

const BARE: [Column; 1] = [Column("x", Shape::Number)];

const OPTED: [Column; 5] = [
    Column("l", Shape::Flag),
    Column("os", SCHEMA),
    Column("ot", STATE),
    Column("ou", SCHEMA),
    Column("x", Shape::Number),
];

const GIVEN: [Column; 8] = [
    Column("ep", PAGES),
    Column("gs", SCHEMA),
    Column("gu", SCHEMA),
    Column("ls", SCHEMA),
    Column("lu", SCHEMA),
    Column("p", Shape::Flag),
    Column("st", STATE),
    Column("x", Shape::Number),
];

const WHOLE: [Column; 12] = [
    Column("ep", PAGES),
    Column("gs", SCHEMA),
    Column("gu", SCHEMA),
    Column("l", Shape::Flag),
    Column("ls", SCHEMA),
    Column("lu", SCHEMA),
    Column("os", SCHEMA),
    Column("ot", STATE),
    Column("ou", SCHEMA),
    Column("p", Shape::Flag),
    Column("st", STATE),
    Column("x", Shape::Number),
];

/// The application row of a record of this kind, or the first fault.
pub(crate) fn read_app(alloc: Global, entries: &[Entry]) -> Result<AppRow, ReadError>
    requires canonical { IsTrue (are_canonical entries.now) }
    requires kind { number_kind (codes "x") entries.now ≡ Ok 2 }
    ensures { Reads app entries.now result }
{
    let opted = flag(entries, "l");
    let given = flag(entries, "p");
    check_parts(alloc, entries, opted, given)?;
    Ok(AppRow {
        params: params_of(alloc, entries, given)?,
        local: local_of(alloc, entries, opted)?,
    })
}

/// Both passes, over the fields of the parts that are there.
fn check_parts(alloc: Global, entries: &[Entry], opted: bool, given: bool) -> Result<(), ReadError>
    ensures { Passes (first_fault (rules_of (app_fields opted given)) entries.now) result }
{
    match (opted, given) {
        (false, false) => check(alloc, entries, &BARE),
        (true, false) => check(alloc, entries, &OPTED),
        (false, true) => check(alloc, entries, &GIVEN),
        (true, true) => check(alloc, entries, &WHOLE),
    }
}

/// The local state, where it is there.
fn local_of(alloc: Global, entries: &[Entry], opted: bool) -> Result<Option<Local>, AllocError>
    ensures { IfOk result (λ l. ShowsPart local_fields opted l entries.now) }
{
    if !opted {
        return Ok(None);
    }
    Ok(Some(Local {
        uints: number(entries, "ou"),
        slices: number(entries, "os"),
        state: bytes(alloc, entries, "ot")?,
    }))
}

/// The parameters, where they are there.
fn params_of(alloc: Global, entries: &[Entry], given: bool) -> Result<Option<AppParams>, AllocError>
    ensures { IfOk result (λ p. ShowsPart app_params_fields given p entries.now) }
{
    if !given {
        return Ok(None);
    }
    Ok(Some(AppParams {
        global_uints: number(entries, "gu"),
        global_slices: number(entries, "gs"),
        local_uints: number(entries, "lu"),
        local_slices: number(entries, "ls"),
        extra_pages: number(entries, "ep"),
        state: bytes(alloc, entries, "st")?,
    }))
}

/// Appends the record of an application row.
pub(crate) fn write_app(a: &AppRow, out: &mut Vec<u8>) -> Result<(), AllocError>
    ensures bytes { OnOk result (out.new.items ≡ out.old.items ++ spelled (values.Map (app.write a.now))) }
    ensures front { OnErr result (IsFront out.old.items out.new.items) }
{
    match (&a.local, &a.params) {
        (None, None) => write_listed(&BARE, &[Content::Number(2)], out),
        (Some(l), None) => write_local(l, out),
        (None, Some(p)) => write_params(p, out),
        (Some(l), Some(p)) => write_both(l, p, out),
    }
}

/// Appends the record of an application row with a local state alone.
fn write_local(l: &Local, out: &mut Vec<u8>) -> Result<(), AllocError>
    ensures bytes { OnOk result (out.new.items ≡ out.old.items ++ spelled (values.Map (app.write (record { params = None; local = Some l.now })))) }
    ensures front { OnErr result (IsFront out.old.items out.new.items) }
{
    write_listed(
        &OPTED,
        &[
            Content::Flag(true),
            Content::Number(l.slices),
            Content::Bytes(&l.state),
            Content::Number(l.uints),
            Content::Number(2),
        ],
        out,
    )
}

/// Appends the record of an application row with parameters alone.
fn write_params(p: &AppParams, out: &mut Vec<u8>) -> Result<(), AllocError>
    ensures bytes { OnOk result (out.new.items ≡ out.old.items ++ spelled (values.Map (app.write (record { params = Some p.now; local = None })))) }
    ensures front { OnErr result (IsFront out.old.items out.new.items) }
{
    write_listed(
        &GIVEN,
        &[
            Content::Number(p.extra_pages),
            Content::Number(p.global_slices),
            Content::Number(p.global_uints),
            Content::Number(p.local_slices),
            Content::Number(p.local_uints),
            Content::Flag(true),
            Content::Bytes(&p.state),
            Content::Number(2),
        ],
        out,
    )
}

/// Appends the record of an application row with both parts.
fn write_both<'a>(l: &'a Local, p: &'a AppParams, out: &mut Vec<u8>) -> Result<(), AllocError>
    ensures bytes { OnOk result (out.new.items ≡ out.old.items ++ spelled (values.Map (app.write (record { params = Some p.now; local = Some l.now })))) }
    ensures front { OnErr result (IsFront out.old.items out.new.items) }
{
    write_listed(
        &WHOLE,
        &[
            Content::Number(p.extra_pages),
            Content::Number(p.global_slices),
            Content::Number(p.global_uints),
            Content::Flag(true),
            Content::Number(p.local_slices),
            Content::Number(p.local_uints),
            Content::Number(l.slices),
            Content::Bytes(&l.state),
            Content::Number(l.uints),
            Content::Flag(true),
            Content::Bytes(&p.state),
            Content::Number(2),
        ],
        out,
    )
}
