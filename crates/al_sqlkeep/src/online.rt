//! The spelling of what consensus knows of an account that is online: its fields under the names
//! that they have in an account's row, without those that are zero.
ghost use Rattle.std.specs.Prelude.{◌≡◌, ◌++◌, ◌<◌, ◌^◌, length, map, IfOk, IsTrue, OnErr, OnOk};
ghost use Rattle.al_msgpack.specs.declared.val.Val.TheVariants as values;
ghost use Rattle.al_msgpack.specs.Spelled.{IsFront, spelled};
ghost use Rattle.al_record.specs.Canonical.{are_canonical, canonical};
ghost use Rattle.al_record.specs.Code.{put_of};
ghost use Rattle.al_record.specs.Columns.{Reads, ReadsOne, put};
ghost use Rattle.al_sqlkeep.specs.Online.{IsOnline, online, online_fields};

use crate::trouble::Trouble;
use al_base::OnlineData;
use al_msgpack::{Entry, Val, decode};
use al_record::{
    Column, Content, HASH, ReadError, Shape, array, check, field, number, write_listed,
};
use al_rows::MAX_BALANCE;
use std::alloc::{AllocError, Global};

const ONLINE: [Column; 7] = [
    Column("b", Shape::UpTo { most: MAX_BALANCE }),
    Column("c", Shape::Number),
    Column("e", HASH),
    Column("f", HASH),
    Column("h", Shape::Number),
    Column("i", Shape::Number),
    Column("j", Shape::Number),
];

/// The data that the bytes spell.
pub(crate) fn decode_online(alloc: Global, input: &[u8]) -> Result<OnlineData, Trouble>
    requires { length input.now < 2 ^ 31 }
    ensures { IfOk result (IsOnline input.now) }
{
    let v = decode(alloc, input)?;
    Ok(read_value(alloc, &v)?)
}

/// The data of a value, or the first fault.
fn read_value(alloc: Global, v: &Val) -> Result<OnlineData, ReadError>
    requires { IsTrue (canonical v.now) }
    ensures { ReadsOne online v.now result }
{
    match v {
        Val::Map(entries) => read_online(alloc, entries.as_slice()),
        _ => Err(field(alloc, "")),
    }
}

/// The data of a record, or the first fault.
fn read_online(alloc: Global, entries: &[Entry]) -> Result<OnlineData, ReadError>
    requires { IsTrue (are_canonical entries.now) }
    ensures { Reads online entries.now result }
{
    check(alloc, entries, &ONLINE)?;
    Ok(OnlineData {
        balance: number(entries, "b"),
        base: number(entries, "c"),
        vote: array(entries, "e"),
        selection: array(entries, "f"),
        first: number(entries, "h"),
        last: number(entries, "i"),
        dilution: number(entries, "j"),
    })
}

/// What stands under each name.
fn contents<'a>(d: &'a OnlineData) -> [Content<'a>; 7]
    ensures { map put_of result ≡ map (λ f. put f d.now) online_fields }
{
    [
        Content::Number(d.balance),
        Content::Number(d.base),
        Content::Array(&d.vote),
        Content::Array(&d.selection),
        Content::Number(d.first),
        Content::Number(d.last),
        Content::Number(d.dilution),
    ]
}

/// Appends the spelling of the data. Where memory is short, a part may stay behind what stood there.
pub(crate) fn encode_online(d: &OnlineData, out: &mut Vec<u8>) -> Result<(), AllocError>
    ensures bytes { OnOk result (out.new.items ≡ out.old.items ++ spelled (values.Map (online.write d.now))) }
    ensures front { OnErr result (IsFront out.old.items out.new.items) }
{
    write_listed(&ONLINE, &contents(d), out)
}
