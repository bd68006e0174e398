//! Calls of applications.
ghost use Rattle.std.specs.Prelude.{◌≡◌, ◌++◌, map, IsTrue, OnErr, OnOk, codes, Ok};
ghost use Rattle.al_msgpack.specs.declared.val.Val.TheVariants as values;
ghost use Rattle.al_msgpack.specs.Spelled.{IsFront, spelled};
ghost use Rattle.al_record.specs.Columns.{Reads, Passes, entries, field_fault, first_fault, heads, put, rules_of};
ghost use Rattle.al_record.specs.Code.{put_of, table_of};
ghost use Rattle.al_record.specs.Kinds.{text_kind};
ghost use Rattle.al_record.specs.Canonical.{are_canonical};
ghost use Rattle.al_bodies.specs.Kept.{others, merged};
ghost use Rattle.al_txn.specs.Txn.{txn, appl_txn, flat_appl, with_group};

use crate::common::common;
use crate::{AppCall, Body, Txn};
use al_base::Hash;
use al_bodies::{is_kept, kept, write_merged};
use al_msgpack::{Entry, write_map_head};
use al_record::{
    ANY_BYTES, Column, Content, Fault, HASH, ReadError, Shape, check_ranges, count_written,
    fitting, number,
};
use std::alloc::{AllocError, Global};

const CALL: [Column; 12] = [
    Column("apid", Shape::Number),
    Column("fee", Shape::Number),
    Column("fv", Shape::Number),
    Column("gen", Shape::Text),
    Column("gh", HASH),
    Column("grp", HASH),
    Column("lv", Shape::Number),
    Column("lx", HASH),
    Column("note", ANY_BYTES),
    Column("rekey", HASH),
    Column("snd", HASH),
    Column("type", Shape::Text),
];

/// A transaction of this type, or the first fault.
pub fn read_call(alloc: Global, entries: &[Entry]) -> Result<Txn, ReadError>
    requires canonical { IsTrue (are_canonical entries.now) }
    requires kind { text_kind (codes "type") entries.now ≡ Ok (codes "appl") }
    ensures { Reads txn entries.now result }
{
    check_call(alloc, entries)?;
    let app = number(entries, "apid");
    let rest = kept(alloc, entries)?;
    let body = Body::App(AppCall { app, rest });
    Ok(common(alloc, entries, body)?)
}

/// Both passes over the fields that are not kept.
fn check_call(alloc: Global, entries: &[Entry]) -> Result<(), ReadError>
    ensures { Passes (first_fault (rules_of appl_txn) (others entries.now)) result }
{
    check_others(alloc, entries)?;
    check_ranges(alloc, entries, &CALL)
}

fn check_others(alloc: Global, entries: &[Entry]) -> Result<(), ReadError>
    ensures { Passes (field_fault (heads (rules_of appl_txn)) (others entries.now)) result }
{
    for e in entries {
        if !is_kept(e.key.as_slice()) && !fitting(e, &CALL) {
            let name = e.key.copy(alloc)?;
            return Err(ReadError::Fault(Fault::Field { name }));
        }
    }
    Ok(())
}

/// Appends the record of a transaction of this type, with this group.
pub fn write_call<'a>(
    t: &'a Txn,
    group: &'a Hash,
    a: &'a AppCall,
    out: &mut Vec<u8>,
) -> Result<(), AllocError>
    ensures bytes { OnOk result (out.new.items ≡ out.old.items ++ spelled (values.Map (merged a.now.rest (entries appl_txn (with_group group.now t.now, a.now))))) }
    ensures front { OnErr result (IsFront out.old.items out.new.items) }
{
    let contents = contents(t, group, a.app);
    let rest = a.rest.as_slice();
    write_map_head(rest.len() + count_written(&contents), out)?;
    write_merged(rest, &CALL, &contents, out)
}

/// What stands under each name that is not kept.
fn contents<'a>(t: &'a Txn, group: &'a Hash, app: u64) -> [Content<'a>; 12]
    ensures { map put_of result ≡ map (λ f. put f (with_group group.now t.now, app)) flat_appl }
{
    [
        Content::Number(app),
        Content::Number(t.fee),
        Content::Number(t.first),
        Content::Text(&t.genesis_id),
        Content::Array(&t.genesis_hash),
        Content::Array(group),
        Content::Number(t.last),
        Content::Array(&t.lease),
        Content::Bytes(&t.note),
        Content::Array(&t.rekey.0),
        Content::Array(&t.sender.0),
        Content::Word("appl"),
    ]
}
