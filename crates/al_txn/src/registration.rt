//! Registrations of keys.
ghost use Rattle.std.specs.Prelude.{◌≡◌, ◌++◌, IsTrue, OnErr, OnOk, codes, Ok};
ghost use Rattle.al_msgpack.specs.declared.val.Val.TheVariants as values;
ghost use Rattle.al_msgpack.specs.Spelled.{IsFront, spelled};
ghost use Rattle.al_record.specs.Columns.{Reads, entries};
ghost use Rattle.al_record.specs.Kinds.{text_kind};
ghost use Rattle.al_record.specs.Canonical.{are_canonical};
ghost use Rattle.al_txn.specs.Txn.{txn, keyreg_txn, with_group};

use crate::common::common;
use crate::{Body, KeyReg, Txn};
use al_base::Hash;
use al_bodies::keyreg_of;
use al_msgpack::Entry;
use al_record::{ANY_BYTES, Column, Content, HASH, ReadError, Shape, check, write_listed};
use std::alloc::{AllocError, Global};

const KEYREG: [Column; 18] = [
    Column("fee", Shape::Number),
    Column("fv", Shape::Number),
    Column("gen", Shape::Text),
    Column("gh", HASH),
    Column("grp", HASH),
    Column("lv", Shape::Number),
    Column("lx", HASH),
    Column("nonpart", Shape::Flag),
    Column("note", ANY_BYTES),
    Column("rekey", HASH),
    Column("selkey", HASH),
    Column("snd", HASH),
    Column("sprfkey", Shape::Array { len: 64 }),
    Column("type", Shape::Text),
    Column("votefst", Shape::Number),
    Column("votekd", Shape::Number),
    Column("votekey", HASH),
    Column("votelst", Shape::Number),
];

/// A transaction of this type, or the first fault.
pub fn read_keyreg(alloc: Global, entries: &[Entry]) -> Result<Txn, ReadError>
    requires canonical { IsTrue (are_canonical entries.now) }
    requires kind { text_kind (codes "type") entries.now ≡ Ok (codes "keyreg") }
    ensures { Reads txn entries.now result }
{
    check(alloc, entries, &KEYREG)?;
    let body = Body::KeyReg(keyreg_of(entries));
    Ok(common(alloc, entries, body)?)
}

/// Appends the record of a transaction of this type, with this group.
pub fn write_keyreg<'a>(
    t: &'a Txn,
    group: &'a Hash,
    k: &'a KeyReg,
    out: &mut Vec<u8>,
) -> Result<(), AllocError>
    ensures bytes { OnOk result (out.new.items ≡ out.old.items ++ spelled (values.Map (entries keyreg_txn (with_group group.now t.now, k.now)))) }
    ensures front { OnErr result (IsFront out.old.items out.new.items) }
{
    write_listed(
        &KEYREG,
        &[
            Content::Number(t.fee),
            Content::Number(t.first),
            Content::Text(&t.genesis_id),
            Content::Array(&t.genesis_hash),
            Content::Array(group),
            Content::Number(t.last),
            Content::Array(&t.lease),
            Content::Flag(k.nonpart),
            Content::Bytes(&t.note),
            Content::Array(&t.rekey.0),
            Content::Array(&k.selection),
            Content::Array(&t.sender.0),
            Content::Wide(&k.sprf),
            Content::Word("keyreg"),
            Content::Number(k.first),
            Content::Number(k.dilution),
            Content::Array(&k.vote),
            Content::Number(k.last),
        ],
        out,
    )
}
