//! Payments.
ghost use Rattle.std.specs.Prelude.{◌≡◌, ◌++◌, IsTrue, OnErr, OnOk, codes, Ok};
ghost use Rattle.al_msgpack.specs.declared.val.Val.TheVariants as values;
ghost use Rattle.al_msgpack.specs.Spelled.{IsFront, spelled};
ghost use Rattle.al_record.specs.Columns.{Reads, entries};
ghost use Rattle.al_record.specs.Kinds.{text_kind};
ghost use Rattle.al_record.specs.Canonical.{are_canonical};
ghost use Rattle.al_txn.specs.Txn.{txn, pay_txn, with_group};

use crate::common::common;
use crate::{Body, Pay, Txn};
use al_base::Hash;
use al_bodies::pay_of;
use al_msgpack::Entry;
use al_record::{ANY_BYTES, Column, Content, HASH, ReadError, Shape, check, write_listed};
use std::alloc::{AllocError, Global};

const PAY: [Column; 14] = [
    Column("amt", Shape::Number),
    Column("close", HASH),
    Column("fee", Shape::Number),
    Column("fv", Shape::Number),
    Column("gen", Shape::Text),
    Column("gh", HASH),
    Column("grp", HASH),
    Column("lv", Shape::Number),
    Column("lx", HASH),
    Column("note", ANY_BYTES),
    Column("rcv", HASH),
    Column("rekey", HASH),
    Column("snd", HASH),
    Column("type", Shape::Text),
];

/// A transaction of this type, or the first fault.
pub fn read_pay(alloc: Global, entries: &[Entry]) -> Result<Txn, ReadError>
    requires canonical { IsTrue (are_canonical entries.now) }
    requires kind { text_kind (codes "type") entries.now ≡ Ok (codes "pay") }
    ensures { Reads txn entries.now result }
{
    check(alloc, entries, &PAY)?;
    let body = Body::Pay(pay_of(entries));
    Ok(common(alloc, entries, body)?)
}

/// Appends the record of a transaction of this type, with this group.
pub fn write_pay<'a>(
    t: &'a Txn,
    group: &'a Hash,
    p: &'a Pay,
    out: &mut Vec<u8>,
) -> Result<(), AllocError>
    ensures bytes { OnOk result (out.new.items ≡ out.old.items ++ spelled (values.Map (entries pay_txn (with_group group.now t.now, p.now)))) }
    ensures front { OnErr result (IsFront out.old.items out.new.items) }
{
    write_listed(
        &PAY,
        &[
            Content::Number(p.amount),
            Content::Array(&p.close.0),
            Content::Number(t.fee),
            Content::Number(t.first),
            Content::Text(&t.genesis_id),
            Content::Array(&t.genesis_hash),
            Content::Array(group),
            Content::Number(t.last),
            Content::Array(&t.lease),
            Content::Bytes(&t.note),
            Content::Array(&p.receiver.0),
            Content::Array(&t.rekey.0),
            Content::Array(&t.sender.0),
            Content::Word("pay"),
        ],
        out,
    )
}
