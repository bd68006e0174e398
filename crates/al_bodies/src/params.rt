//! The parameters of assets.
ghost use Rattle.std.specs.Prelude.{◌≡◌, ◌++◌, ◌∷◌, [], map, IsTrue, OnErr, OnOk};
ghost use Rattle.al_msgpack.specs.Spelled.{IsFront, entries_spelled};
ghost use Rattle.al_record.specs.Columns.{Reads, map_put, put, with_entry};
ghost use Rattle.al_record.specs.Code.{count_some, put_of};
ghost use Rattle.al_record.specs.Canonical.{are_canonical};
ghost use Rattle.al_bodies.specs.Bodies.{asset_params, params_fields};

use al_base::{Address, AssetParams};
use al_msgpack::Entry;
use al_record::{
    Column, Content, HASH, ReadError, Shape, array, check, count_written, flag, number, text,
    write_inner,
};
use std::alloc::{AllocError, Global};

const PARAMS: [Column; 11] = [
    Column("am", HASH),
    Column("an", Shape::Text),
    Column("au", Shape::Text),
    Column("c", HASH),
    Column("dc", Shape::Number),
    Column("df", Shape::Flag),
    Column("f", HASH),
    Column("m", HASH),
    Column("r", HASH),
    Column("t", Shape::Number),
    Column("un", Shape::Text),
];

/// The parameters of an asset, or the first fault of their record.
pub fn read_params(alloc: Global, entries: &[Entry]) -> Result<AssetParams, ReadError>
    requires { IsTrue (are_canonical entries.now) }
    ensures { Reads asset_params entries.now result }
{
    check(alloc, entries, &PARAMS)?;
    Ok(AssetParams {
        total: number(entries, "t"),
        decimals: number(entries, "dc"),
        default_frozen: flag(entries, "df"),
        unit: text(alloc, entries, "un")?,
        name: text(alloc, entries, "an")?,
        url: text(alloc, entries, "au")?,
        meta: array(entries, "am"),
        manager: Address(array(entries, "m")),
        reserve: Address(array(entries, "r")),
        freeze: Address(array(entries, "f")),
        clawback: Address(array(entries, "c")),
    })
}

/// What stands under each name.
fn contents<'a>(p: &'a AssetParams) -> [Content<'a>; 11]
    ensures { map put_of result ≡ map (λ f. put f p.now) params_fields }
{
    [
        Content::Array(&p.meta),
        Content::Text(&p.name),
        Content::Text(&p.url),
        Content::Array(&p.clawback.0),
        Content::Number(p.decimals),
        Content::Flag(p.default_frozen),
        Content::Array(&p.freeze.0),
        Content::Array(&p.manager.0),
        Content::Array(&p.reserve.0),
        Content::Number(p.total),
        Content::Text(&p.unit),
    ]
}

/// How many fields the parameters take in an outer record: none where all are zero.
pub fn count_params(p: &AssetParams) -> usize
    ensures { result ≡ count_some (map_put (asset_params.write p.now) ∷ []) }
{
    if count_written(&contents(p)) == 0 {
        return 0;
    }
    1
}

/// Appends the field of an asset's parameters, unless they are zero.
pub fn write_params(name: &str, p: &AssetParams, out: &mut Vec<u8>) -> Result<(), AllocError>
    ensures bytes { OnOk result (out.new.items ≡ out.old.items ++ entries_spelled (with_entry name.now (map_put (asset_params.write p.now)) [])) }
    ensures front { OnErr result (IsFront out.old.items out.new.items) }
{
    write_inner(name, &PARAMS, &contents(p), out)
}
