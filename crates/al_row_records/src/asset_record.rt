//! The record of an asset row. The fields of an absent part are unknown.
ghost use Rattle.std.specs.Prelude.{◌≡◌, ◌++◌, codes, IfOk, IsTrue, Ok, OnErr, OnOk};
ghost use Rattle.al_msgpack.specs.declared.val.Val.TheVariants as values;
ghost use Rattle.al_msgpack.specs.Spelled.{IsFront, spelled};
ghost use Rattle.al_bodies.specs.Bodies.{params_fields};
ghost use Rattle.al_record.specs.Canonical.{are_canonical};
ghost use Rattle.al_record.specs.Columns.{Passes, Reads, first_fault, rules_of};
ghost use Rattle.al_record.specs.Kinds.{number_kind};
ghost use Rattle.al_row_records.specs.Parts.{ShowsPart};
ghost use Rattle.al_row_records.specs.Tables.{asset, asset_fields, holding_fields};

use al_base::{Address, AssetParams};
use al_msgpack::Entry;
use al_record::{
    Column, Content, HASH, ReadError, Shape, array, check, flag, number, text, write_listed,
};
use al_rows::{AssetRow, Holding};
use std::alloc::{AllocError, Global};

const BARE: [Column; 1] = [Column("x", Shape::Number)];

const HELD: [Column; 4] = [
    Column("a", Shape::Number),
    Column("h", Shape::Flag),
    Column("x", Shape::Number),
    Column("z", Shape::Flag),
];

const GIVEN: [Column; 13] = [
    Column("am", HASH),
    Column("an", Shape::Text),
    Column("au", Shape::Text),
    Column("c", HASH),
    Column("dc", Shape::Number),
    Column("df", Shape::Flag),
    Column("f", HASH),
    Column("m", HASH),
    Column("p", Shape::Flag),
    Column("r", HASH),
    Column("t", Shape::Number),
    Column("un", Shape::Text),
    Column("x", Shape::Number),
];

const WHOLE: [Column; 16] = [
    Column("a", Shape::Number),
    Column("am", HASH),
    Column("an", Shape::Text),
    Column("au", Shape::Text),
    Column("c", HASH),
    Column("dc", Shape::Number),
    Column("df", Shape::Flag),
    Column("f", HASH),
    Column("h", Shape::Flag),
    Column("m", HASH),
    Column("p", Shape::Flag),
    Column("r", HASH),
    Column("t", Shape::Number),
    Column("un", Shape::Text),
    Column("x", Shape::Number),
    Column("z", Shape::Flag),
];

/// The asset row of a record of this kind, or the first fault.
pub(crate) fn read_asset(alloc: Global, entries: &[Entry]) -> Result<AssetRow, ReadError>
    requires canonical { IsTrue (are_canonical entries.now) }
    requires kind { number_kind (codes "x") entries.now ≡ Ok 1 }
    ensures { Reads asset entries.now result }
{
    let held = flag(entries, "h");
    let given = flag(entries, "p");
    check_parts(alloc, entries, held, given)?;
    Ok(AssetRow {
        params: params_of(alloc, entries, given)?,
        holding: holding_of(entries, held),
    })
}

/// Both passes, over the fields of the parts that are there.
fn check_parts(alloc: Global, entries: &[Entry], held: bool, given: bool) -> Result<(), ReadError>
    ensures { Passes (first_fault (rules_of (asset_fields held given)) entries.now) result }
{
    match (held, given) {
        (false, false) => check(alloc, entries, &BARE),
        (true, false) => check(alloc, entries, &HELD),
        (false, true) => check(alloc, entries, &GIVEN),
        (true, true) => check(alloc, entries, &WHOLE),
    }
}

/// The holding, where it is there.
fn holding_of(entries: &[Entry], held: bool) -> Option<Holding>
    ensures { ShowsPart holding_fields held result entries.now }
{
    if !held {
        return None;
    }
    Some(Holding {
        amount: number(entries, "a"),
        frozen: flag(entries, "z"),
    })
}

/// The parameters, where they are there.
fn params_of(
    alloc: Global,
    entries: &[Entry],
    given: bool,
) -> Result<Option<AssetParams>, AllocError>
    ensures { IfOk result (λ p. ShowsPart params_fields given p entries.now) }
{
    if !given {
        return Ok(None);
    }
    Ok(Some(AssetParams {
        total: number(entries, "t"),
        decimals: number(entries, "dc"),
        default_frozen: flag(entries, "df"),
        unit: text(alloc, entries, "un")?,
        name: text(alloc, entries, "an")?,
        url: text(alloc, entries, "au")?,
        meta: array(entries, "am"),
        manager: Address(array(entries, "m")),
        reserve: Address(array(entries, "r")),
        freeze: Address(array(entries, "f")),
        clawback: Address(array(entries, "c")),
    }))
}

/// Appends the record of an asset row.
pub(crate) fn write_asset(a: &AssetRow, out: &mut Vec<u8>) -> Result<(), AllocError>
    ensures bytes { OnOk result (out.new.items ≡ out.old.items ++ spelled (values.Map (asset.write a.now))) }
    ensures front { OnErr result (IsFront out.old.items out.new.items) }
{
    match (&a.holding, &a.params) {
        (None, None) => write_listed(&BARE, &[Content::Number(1)], out),
        (Some(h), None) => write_holding(h, out),
        (None, Some(p)) => write_params(p, out),
        (Some(h), Some(p)) => write_both(h, p, out),
    }
}

/// Appends the record of an asset row with a holding alone.
fn write_holding(h: &Holding, out: &mut Vec<u8>) -> Result<(), AllocError>
    ensures bytes { OnOk result (out.new.items ≡ out.old.items ++ spelled (values.Map (asset.write (record { params = None; holding = Some h.now })))) }
    ensures front { OnErr result (IsFront out.old.items out.new.items) }
{
    write_listed(
        &HELD,
        &[
            Content::Number(h.amount),
            Content::Flag(true),
            Content::Number(1),
            Content::Flag(h.frozen),
        ],
        out,
    )
}

/// Appends the record of an asset row with parameters alone.
fn write_params(p: &AssetParams, out: &mut Vec<u8>) -> Result<(), AllocError>
    ensures bytes { OnOk result (out.new.items ≡ out.old.items ++ spelled (values.Map (asset.write (record { params = Some p.now; holding = None })))) }
    ensures front { OnErr result (IsFront out.old.items out.new.items) }
{
    write_listed(
        &GIVEN,
        &[
            Content::Array(&p.meta),
            Content::Text(&p.name),
            Content::Text(&p.url),
            Content::Array(&p.clawback.0),
            Content::Number(p.decimals),
            Content::Flag(p.default_frozen),
            Content::Array(&p.freeze.0),
            Content::Array(&p.manager.0),
            Content::Flag(true),
            Content::Array(&p.reserve.0),
            Content::Number(p.total),
            Content::Text(&p.unit),
            Content::Number(1),
        ],
        out,
    )
}

/// Appends the record of an asset row with both parts.
fn write_both(h: &Holding, p: &AssetParams, out: &mut Vec<u8>) -> Result<(), AllocError>
    ensures bytes { OnOk result (out.new.items ≡ out.old.items ++ spelled (values.Map (asset.write (record { params = Some p.now; holding = Some h.now })))) }
    ensures front { OnErr result (IsFront out.old.items out.new.items) }
{
    write_listed(
        &WHOLE,
        &[
            Content::Number(h.amount),
            Content::Array(&p.meta),
            Content::Text(&p.name),
            Content::Text(&p.url),
            Content::Array(&p.clawback.0),
            Content::Number(p.decimals),
            Content::Flag(p.default_frozen),
            Content::Array(&p.freeze.0),
            Content::Flag(true),
            Content::Array(&p.manager.0),
            Content::Flag(true),
            Content::Array(&p.reserve.0),
            Content::Number(p.total),
            Content::Text(&p.unit),
            Content::Number(1),
            Content::Flag(h.frozen),
        ],
        out,
    )
}
