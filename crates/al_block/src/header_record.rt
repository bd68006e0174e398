//! The record of a header.
ghost use Rattle.std.specs.Prelude.{◌≡◌, map, IsTrue};
ghost use Rattle.al_record.specs.Columns.{Reads, put};
ghost use Rattle.al_record.specs.Code.{put_of};
ghost use Rattle.al_record.specs.Canonical.{are_canonical};
ghost use Rattle.al_block.specs.Header.{header, header_fields};

use crate::Header;
use al_base::Address;
use al_msgpack::Entry;
use al_record::{
    COUNT, Column, Content, HASH, InnerRecord, ReadError, Record, Shape, addresses, array, check,
    count_written, number, write_listed,
};
use std::alloc::{AllocError, Global};

const HEADER: [Column; 13] = [
    Column("earn", Shape::Number),
    Column("exp", Shape::Addresses { most: 32 }),
    Column("fees", HASH),
    Column("frac", Shape::Number),
    Column("gh", HASH),
    Column("prev", HASH),
    Column("rate", Shape::Number),
    Column("rnd", COUNT),
    Column("rwcalr", Shape::Number),
    Column("rwd", HASH),
    Column("tc", COUNT),
    Column("ts", Shape::Number),
    Column("txn", HASH),
];

/// The header of a record, or the first fault.
pub fn read_header(alloc: Global, entries: &[Entry]) -> Result<Header, ReadError>
    requires { IsTrue (are_canonical entries.now) }
    ensures { Reads header entries.now result }
{
    check(alloc, entries, &HEADER)?;
    Ok(Header {
        round: number(entries, "rnd"),
        prev: array(entries, "prev"),
        ts: number(entries, "ts"),
        genesis_hash: array(entries, "gh"),
        sink: Address(array(entries, "fees")),
        pool: Address(array(entries, "rwd")),
        level: number(entries, "earn"),
        rate: number(entries, "rate"),
        residue: number(entries, "frac"),
        recalc: number(entries, "rwcalr"),
        counter: number(entries, "tc"),
        payset: array(entries, "txn"),
        expired: addresses(alloc, entries, "exp")?,
    })
}

/// What stands under each name.
fn contents<'a>(h: &'a Header) -> [Content<'a>; 13]
    ensures { map put_of result ≡ map (λ f. put f h.now) header_fields }
{
    [
        Content::Number(h.level),
        Content::Addresses(h.expired.as_slice()),
        Content::Array(&h.sink.0),
        Content::Number(h.residue),
        Content::Array(&h.genesis_hash),
        Content::Array(&h.prev),
        Content::Number(h.rate),
        Content::Number(h.round),
        Content::Number(h.recalc),
        Content::Array(&h.pool.0),
        Content::Number(h.counter),
        Content::Number(h.ts),
        Content::Array(&h.payset),
    ]
}

impl Record for Header {
    ghost use Rattle.al_block.specs.Header.{header};

    ghost format = { header };

    fn read(alloc: Global, entries: &[Entry]) -> Result<Header, ReadError> {
        read_header(alloc, entries)
    }

    fn write(&self, out: &mut Vec<u8>) -> Result<(), AllocError> {
        write_listed(&HEADER, &contents(self), out)
    }
}

impl InnerRecord for Header {
    fn is_empty(&self) -> bool {
        count_written(&contents(self)) == 0
    }
}
