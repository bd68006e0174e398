//! Assets created, reconfigured or destroyed.
ghost use Rattle.std.specs.Prelude.{◌≡◌, ◌++◌, map, IsTrue, OnErr, OnOk, codes, Ok};
ghost use Rattle.al_msgpack.specs.declared.val.Val.TheVariants as values;
ghost use Rattle.al_msgpack.specs.Spelled.{IsFront, spelled};
ghost use Rattle.al_record.specs.Columns.{Reads, entries, put};
ghost use Rattle.al_record.specs.Code.{put_of};
ghost use Rattle.al_record.specs.Kinds.{text_kind};
ghost use Rattle.al_record.specs.Canonical.{are_canonical};
ghost use Rattle.al_txn.specs.Txn.{txn, acfg_txn, flat_acfg, with_group};

use crate::common::common;
use crate::{Body, Config, Txn};
use al_base::Hash;
use al_bodies::{count_params, read_params, write_params};
use al_msgpack::{Entry, write_map_head};
use al_record::{
    ANY_BYTES, Column, Content, HASH, ReadError, Shape, check_fields, check_ranges, count_written,
    map, number, write_fields,
};
use std::alloc::{AllocError, Global};

const CONFIG: [Column; 13] = [
    Column("apar", Shape::Map),
    Column("caid", Shape::Number),
    Column("fee", Shape::Number),
    Column("fv", Shape::Number),
    Column("gen", Shape::Text),
    Column("gh", HASH),
    Column("grp", HASH),
    Column("lv", Shape::Number),
    Column("lx", HASH),
    Column("note", ANY_BYTES),
    Column("rekey", HASH),
    Column("snd", HASH),
    Column("type", Shape::Text),
];

/// A transaction of this type, or the first fault.
pub fn read_config(alloc: Global, entries: &[Entry]) -> Result<Txn, ReadError>
    requires canonical { IsTrue (are_canonical entries.now) }
    requires kind { text_kind (codes "type") entries.now ≡ Ok (codes "acfg") }
    ensures { Reads txn entries.now result }
{
    check_fields(alloc, entries, &CONFIG)?;
    let params = read_params(alloc, map(entries, "apar"))?;
    check_ranges(alloc, entries, &CONFIG[1..])?;
    let asset = number(entries, "caid");
    let body = Body::Config(Config { asset, params });
    Ok(common(alloc, entries, body)?)
}

/// Appends the record of a transaction of this type, with this group.
pub fn write_config<'a>(
    t: &'a Txn,
    group: &'a Hash,
    c: &'a Config,
    out: &mut Vec<u8>,
) -> Result<(), AllocError>
    ensures bytes { OnOk result (out.new.items ≡ out.old.items ++ spelled (values.Map (entries acfg_txn (with_group group.now t.now, c.now)))) }
    ensures front { OnErr result (IsFront out.old.items out.new.items) }
{
    let contents = contents(t, group, c.asset);
    write_map_head(count_params(&c.params) + count_written(&contents), out)?;
    write_params("apar", &c.params, out)?;
    write_fields(&CONFIG[1..], &contents, out)
}

/// What stands under each name behind the parameters.
fn contents<'a>(t: &'a Txn, group: &'a Hash, asset: u64) -> [Content<'a>; 12]
    ensures { map put_of result ≡ map (λ f. put f (with_group group.now t.now, asset)) flat_acfg }
{
    [
        Content::Number(asset),
        Content::Number(t.fee),
        Content::Number(t.first),
        Content::Text(&t.genesis_id),
        Content::Array(&t.genesis_hash),
        Content::Array(group),
        Content::Number(t.last),
        Content::Array(&t.lease),
        Content::Bytes(&t.note),
        Content::Array(&t.rekey.0),
        Content::Array(&t.sender.0),
        Content::Word("acfg"),
    ]
}
