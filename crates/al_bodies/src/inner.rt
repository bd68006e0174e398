//! Inner transactions: a type and that type's own fields.
ghost use Rattle.std.specs.Prelude.{◌≡◌, IsTrue, codes, Ok};
ghost use Rattle.al_record.specs.Columns.{Reads};
ghost use Rattle.al_record.specs.Kinds.{text_kind};
ghost use Rattle.al_record.specs.Canonical.{are_canonical};
ghost use Rattle.al_bodies.specs.Effect.{inner_txn};

use crate::Inner;
use crate::body_record::{move_of, pay_of};
use al_msgpack::Entry;
use al_record::{
    Column, Content, HASH, InnerRecord, ReadError, Record, Shape, check, range, text_kind,
    write_listed,
};
use std::alloc::{AllocError, Global};

const INNER_PAY: [Column; 4] = [
    Column("amt", Shape::Number),
    Column("close", HASH),
    Column("rcv", HASH),
    Column("type", Shape::Text),
];

const INNER_MOVE: [Column; 6] = [
    Column("aamt", Shape::Number),
    Column("aclose", HASH),
    Column("arcv", HASH),
    Column("asnd", HASH),
    Column("type", Shape::Text),
    Column("xaid", Shape::Number),
];

/// The inner transaction of a record, or the first fault.
pub fn read_inner(alloc: Global, entries: &[Entry]) -> Result<Inner, ReadError>
    requires { IsTrue (are_canonical entries.now) }
    ensures { Reads inner_txn entries.now result }
{
    match text_kind(alloc, entries, "type")? {
        b"pay" => read_inner_pay(alloc, entries),
        b"axfer" => read_inner_move(alloc, entries),
        _ => Err(range(alloc, "type")),
    }
}

impl Record for Inner {
    ghost use Rattle.al_bodies.specs.Effect.{inner_txn};

    ghost format = { inner_txn };

    fn read(alloc: Global, entries: &[Entry]) -> Result<Inner, ReadError> {
        read_inner(alloc, entries)
    }

    fn write(&self, out: &mut Vec<u8>) -> Result<(), AllocError> {
        match self {
            Inner::Pay(p) => write_listed(
                &INNER_PAY,
                &[
                    Content::Number(p.amount),
                    Content::Array(&p.close.0),
                    Content::Array(&p.receiver.0),
                    Content::Word("pay"),
                ],
                out,
            ),
            Inner::Move(m) => write_listed(
                &INNER_MOVE,
                &[
                    Content::Number(m.amount),
                    Content::Array(&m.close.0),
                    Content::Array(&m.receiver.0),
                    Content::Array(&m.source.0),
                    Content::Word("axfer"),
                    Content::Number(m.asset),
                ],
                out,
            ),
        }
    }
}

impl InnerRecord for Inner {
    fn is_empty(&self) -> bool {
        false
    }
}

fn read_inner_pay(alloc: Global, entries: &[Entry]) -> Result<Inner, ReadError>
    requires canonical { IsTrue (are_canonical entries.now) }
    requires kind { text_kind (codes "type") entries.now ≡ Ok (codes "pay") }
    ensures { Reads inner_txn entries.now result }
{
    check(alloc, entries, &INNER_PAY)?;
    Ok(Inner::Pay(pay_of(entries)))
}

fn read_inner_move(alloc: Global, entries: &[Entry]) -> Result<Inner, ReadError>
    requires canonical { IsTrue (are_canonical entries.now) }
    requires kind { text_kind (codes "type") entries.now ≡ Ok (codes "axfer") }
    ensures { Reads inner_txn entries.now result }
{
    check(alloc, entries, &INNER_MOVE)?;
    Ok(Inner::Move(move_of(entries)))
}
