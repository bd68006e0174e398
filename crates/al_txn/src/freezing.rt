//! Holdings frozen, or no longer.
ghost use Rattle.std.specs.Prelude.{◌≡◌, ◌++◌, IsTrue, OnErr, OnOk, codes, Ok};
ghost use Rattle.al_msgpack.specs.declared.val.Val.TheVariants as values;
ghost use Rattle.al_msgpack.specs.Spelled.{IsFront, spelled};
ghost use Rattle.al_record.specs.Columns.{Reads, entries};
ghost use Rattle.al_record.specs.Kinds.{text_kind};
ghost use Rattle.al_record.specs.Canonical.{are_canonical};
ghost use Rattle.al_txn.specs.Txn.{txn, afrz_txn, with_group};

use crate::common::common;
use crate::{Body, Freeze, Txn};
use al_base::Hash;
use al_bodies::freeze_of;
use al_msgpack::Entry;
use al_record::{ANY_BYTES, Column, Content, HASH, ReadError, Shape, check, write_listed};
use std::alloc::{AllocError, Global};

const FREEZE: [Column; 14] = [
    Column("afrz", Shape::Flag),
    Column("fadd", HASH),
    Column("faid", Shape::Number),
    Column("fee", Shape::Number),
    Column("fv", Shape::Number),
    Column("gen", Shape::Text),
    Column("gh", HASH),
    Column("grp", HASH),
    Column("lv", Shape::Number),
    Column("lx", HASH),
    Column("note", ANY_BYTES),
    Column("rekey", HASH),
    Column("snd", HASH),
    Column("type", Shape::Text),
];

/// A transaction of this type, or the first fault.
pub fn read_freeze(alloc: Global, entries: &[Entry]) -> Result<Txn, ReadError>
    requires canonical { IsTrue (are_canonical entries.now) }
    requires kind { text_kind (codes "type") entries.now ≡ Ok (codes "afrz") }
    ensures { Reads txn entries.now result }
{
    check(alloc, entries, &FREEZE)?;
    let body = Body::Freeze(freeze_of(entries));
    Ok(common(alloc, entries, body)?)
}

/// Appends the record of a transaction of this type, with this group.
pub fn write_freeze<'a>(
    t: &'a Txn,
    group: &'a Hash,
    f: &'a Freeze,
    out: &mut Vec<u8>,
) -> Result<(), AllocError>
    ensures bytes { OnOk result (out.new.items ≡ out.old.items ++ spelled (values.Map (entries afrz_txn (with_group group.now t.now, f.now)))) }
    ensures front { OnErr result (IsFront out.old.items out.new.items) }
{
    write_listed(
        &FREEZE,
        &[
            Content::Flag(f.frozen),
            Content::Array(&f.account.0),
            Content::Number(f.asset),
            Content::Number(t.fee),
            Content::Number(t.first),
            Content::Text(&t.genesis_id),
            Content::Array(&t.genesis_hash),
            Content::Array(group),
            Content::Number(t.last),
            Content::Array(&t.lease),
            Content::Bytes(&t.note),
            Content::Array(&t.rekey.0),
            Content::Array(&t.sender.0),
            Content::Word("afrz"),
        ],
        out,
    )
}
