//! The records of effects.
ghost use Rattle.std.specs.Prelude.{◌≡◌, ◌++◌, IsTrue, IfOk, IfErr, None, Ok, OnErr, OnOk, codes};
ghost use Rattle.al_msgpack.specs.declared.val.Val.TheVariants as values;
ghost use Rattle.al_msgpack.specs.Spelled.{IsFront, spelled};
ghost use Rattle.al_record.specs.Columns.{Reads, Fails, bytes_of, entries, value_at};
ghost use Rattle.al_record.specs.Kinds.{number_kind};
ghost use Rattle.al_record.specs.Canonical.{are_canonical};
ghost use Rattle.al_bodies.specs.Effect.{effect, inner_effect, name_fault, put_box, remove_box, whole_name};

use crate::inner::read_inner;
use crate::{Effect, Inner};
use al_base::{Address, BoxName, Bytes};
use al_msgpack::{Entry, write_map_head};
use al_record::{
    Column, Content, HASH, ReadError, Record, Shape, array, bytes, bytes_of, check, check_fields,
    check_ranges, find, map, number, number_kind, range, write_field, write_listed, write_record,
};
use std::alloc::{AllocError, Global};

const STATE: Shape = Shape::Bytes {
    least: 0,
    most: 8192,
};

const CREATE: [Column; 7] = [
    Column("e", Shape::Number),
    Column("ep", Shape::UpTo { most: 3 }),
    Column("lb", Shape::UpTo { most: 64 }),
    Column("lu", Shape::UpTo { most: 64 }),
    Column("nb", Shape::UpTo { most: 64 }),
    Column("nu", Shape::UpTo { most: 64 }),
    Column("st", STATE),
];

const BARE: [Column; 1] = [Column("e", Shape::Number)];

const WITH_STATE: [Column; 2] = [Column("e", Shape::Number), Column("st", STATE)];

const SET_LOCAL: [Column; 3] = [
    Column("ad", HASH),
    Column("e", Shape::Number),
    Column("st", STATE),
];

const PUT_BOX: [Column; 3] = [
    Column("e", Shape::Number),
    Column("n", Shape::Bytes { least: 1, most: 64 }),
    Column(
        "v",
        Shape::Bytes {
            least: 0,
            most: 32768,
        },
    ),
];

const REMOVE_BOX: [Column; 2] = [
    Column("e", Shape::Number),
    Column("n", Shape::Bytes { least: 1, most: 64 }),
];

const INNER: [Column; 2] = [Column("e", Shape::Number), Column("t", Shape::Map)];

fn read_create(alloc: Global, entries: &[Entry]) -> Result<Effect, ReadError>
    requires canonical { IsTrue (are_canonical entries.now) }
    requires kind { number_kind (codes "e") entries.now ≡ Ok 1 }
    ensures { Reads effect entries.now result }
{
    check(alloc, entries, &CREATE)?;
    let state = bytes(alloc, entries, "st")?;
    Ok(Effect::Create {
        global_uints: number(entries, "nu"),
        global_slices: number(entries, "nb"),
        local_uints: number(entries, "lu"),
        local_slices: number(entries, "lb"),
        extra_pages: number(entries, "ep"),
        state,
    })
}

fn read_set_state(alloc: Global, entries: &[Entry]) -> Result<Effect, ReadError>
    requires canonical { IsTrue (are_canonical entries.now) }
    requires kind { number_kind (codes "e") entries.now ≡ Ok 2 }
    ensures { Reads effect entries.now result }
{
    check(alloc, entries, &WITH_STATE)?;
    let state = bytes(alloc, entries, "st")?;
    Ok(Effect::SetState { state })
}

fn read_remove(alloc: Global, entries: &[Entry]) -> Result<Effect, ReadError>
    requires canonical { IsTrue (are_canonical entries.now) }
    requires kind { number_kind (codes "e") entries.now ≡ Ok 3 }
    ensures { Reads effect entries.now result }
{
    check(alloc, entries, &BARE)?;
    Ok(Effect::Remove)
}

fn read_opt_in(alloc: Global, entries: &[Entry]) -> Result<Effect, ReadError>
    requires canonical { IsTrue (are_canonical entries.now) }
    requires kind { number_kind (codes "e") entries.now ≡ Ok 4 }
    ensures { Reads effect entries.now result }
{
    check(alloc, entries, &WITH_STATE)?;
    let state = bytes(alloc, entries, "st")?;
    Ok(Effect::OptIn { state })
}

fn read_set_local(alloc: Global, entries: &[Entry]) -> Result<Effect, ReadError>
    requires canonical { IsTrue (are_canonical entries.now) }
    requires kind { number_kind (codes "e") entries.now ≡ Ok 5 }
    ensures { Reads effect entries.now result }
{
    check(alloc, entries, &SET_LOCAL)?;
    let who = Address(array(entries, "ad"));
    let state = bytes(alloc, entries, "st")?;
    Ok(Effect::SetLocal { who, state })
}

fn read_opt_out(alloc: Global, entries: &[Entry]) -> Result<Effect, ReadError>
    requires canonical { IsTrue (are_canonical entries.now) }
    requires kind { number_kind (codes "e") entries.now ≡ Ok 6 }
    ensures { Reads effect entries.now result }
{
    check(alloc, entries, &BARE)?;
    Ok(Effect::OptOut)
}

/// The name of a box, of 1 to 64 bytes.
#[tactic(auto, using(crate::proofs::Names::whole_is))]
fn box_name(alloc: Global, entries: &[Entry]) -> Result<BoxName, ReadError>
    ensures value { IfOk result (λ n. whole_name n ≡ bytes_of (value_at (codes "n") entries.now)) }
    ensures ok { IfOk result (λ _. name_fault entries.now ≡ None) }
    ensures err { IfErr result (λ e. Fails e (name_fault entries.now)) }
{
    match BoxName::new(bytes_of(find(entries, "n"))) {
        Some(name) => Ok(name),
        None => Err(range(alloc, "n")),
    }
}

fn read_put_box(alloc: Global, entries: &[Entry]) -> Result<Effect, ReadError>
    requires canonical { IsTrue (are_canonical entries.now) }
    requires kind { number_kind (codes "e") entries.now ≡ Ok 7 }
    ensures { Reads effect entries.now result }
{
    check_fields(alloc, entries, &PUT_BOX)?;
    let name = box_name(alloc, entries)?;
    check_ranges(alloc, entries, &PUT_BOX[2..])?;
    let value = bytes(alloc, entries, "v")?;
    Ok(Effect::PutBox { name, value })
}

fn read_remove_box(alloc: Global, entries: &[Entry]) -> Result<Effect, ReadError>
    requires canonical { IsTrue (are_canonical entries.now) }
    requires kind { number_kind (codes "e") entries.now ≡ Ok 8 }
    ensures { Reads effect entries.now result }
{
    check_fields(alloc, entries, &REMOVE_BOX)?;
    let name = box_name(alloc, entries)?;
    Ok(Effect::RemoveBox { name })
}

fn read_inner_effect(alloc: Global, entries: &[Entry]) -> Result<Effect, ReadError>
    requires canonical { IsTrue (are_canonical entries.now) }
    requires kind { number_kind (codes "e") entries.now ≡ Ok 9 }
    ensures { Reads effect entries.now result }
{
    check_fields(alloc, entries, &INNER)?;
    let inner = read_inner(alloc, map(entries, "t"))?;
    Ok(Effect::Inner(inner))
}

impl Record for Effect {
    ghost use Rattle.al_bodies.specs.Effect.{effect};

    ghost format = { effect };

    fn read(alloc: Global, entries: &[Entry]) -> Result<Effect, ReadError> {
        match number_kind(alloc, entries, "e")? {
            1 => read_create(alloc, entries),
            2 => read_set_state(alloc, entries),
            3 => read_remove(alloc, entries),
            4 => read_opt_in(alloc, entries),
            5 => read_set_local(alloc, entries),
            6 => read_opt_out(alloc, entries),
            7 => read_put_box(alloc, entries),
            8 => read_remove_box(alloc, entries),
            9 => read_inner_effect(alloc, entries),
            _ => Err(range(alloc, "e")),
        }
    }

    fn write(&self, out: &mut Vec<u8>) -> Result<(), AllocError> {
        match self {
            Effect::Create {
                global_uints,
                global_slices,
                local_uints,
                local_slices,
                extra_pages,
                state,
            } => write_listed(
                &CREATE,
                &[
                    Content::Number(1),
                    Content::Number(*extra_pages),
                    Content::Number(*local_slices),
                    Content::Number(*local_uints),
                    Content::Number(*global_slices),
                    Content::Number(*global_uints),
                    Content::Bytes(state),
                ],
                out,
            ),
            Effect::SetState { state } => {
                write_listed(
                    &WITH_STATE,
                    &[Content::Number(2), Content::Bytes(state)],
                    out,
                )
            }
            Effect::Remove => write_listed(&BARE, &[Content::Number(3)], out),
            Effect::OptIn { state } => {
                write_listed(
                    &WITH_STATE,
                    &[Content::Number(4), Content::Bytes(state)],
                    out,
                )
            }
            Effect::SetLocal { who, state } => write_listed(
                &SET_LOCAL,
                &[
                    Content::Array(&who.0),
                    Content::Number(5),
                    Content::Bytes(state),
                ],
                out,
            ),
            Effect::OptOut => write_listed(&BARE, &[Content::Number(6)], out),
            Effect::PutBox { name, value } => write_put_box(name, value, out),
            Effect::RemoveBox { name } => write_remove_box(*name, out),
            Effect::Inner(inner) => write_inner_effect(inner, out),
        }
    }
}

#[tactic(auto, using(crate::proofs::Names::whole_is))]
fn write_put_box<'a>(
    name: &'a BoxName,
    value: &'a Bytes,
    out: &mut Vec<u8>,
) -> Result<(), AllocError>
    ensures bytes { OnOk result (out.new.items ≡ out.old.items ++ spelled (values.Map (entries put_box (whole_name name.now, value.now)))) }
    ensures front { OnErr result (IsFront out.old.items out.new.items) }
{
    let _name = *name;
    write_listed(
        &PUT_BOX,
        &[
            Content::Number(7),
            Content::Slice(name.as_slice()),
            Content::Bytes(value),
        ],
        out,
    )
}

#[tactic(auto, using(crate::proofs::Names::whole_is))]
fn write_remove_box(name: BoxName, out: &mut Vec<u8>) -> Result<(), AllocError>
    ensures bytes { OnOk result (out.new.items ≡ out.old.items ++ spelled (values.Map (entries remove_box (whole_name name)))) }
    ensures front { OnErr result (IsFront out.old.items out.new.items) }
{
    write_listed(
        &REMOVE_BOX,
        &[Content::Number(8), Content::Slice(name.as_slice())],
        out,
    )
}

fn write_inner_effect(inner: &Inner, out: &mut Vec<u8>) -> Result<(), AllocError>
    ensures bytes { OnOk result (out.new.items ≡ out.old.items ++ spelled (values.Map (entries inner_effect inner.now))) }
    ensures front { OnErr result (IsFront out.old.items out.new.items) }
{
    write_map_head(2, out)?;
    write_field("e", &Content::Number(9), out)?;
    write_record("t", inner, out)
}
