//! The record of what a catchpoint says of itself.
ghost use Rattle.std.specs.Prelude.{◌≡◌, ◌++◌, ℕ, List, map, IfOk, OnErr, OnOk};
ghost use Rattle.al_msgpack.specs.declared.val.Val.TheVariants as values;
ghost use Rattle.al_msgpack.specs.Spelled.{spelled};
ghost use Rattle.al_record.specs.Code.{put_of};
ghost use Rattle.al_record.specs.Columns.{put};
ghost use Rattle.al_rewards.specs.Record.{totals, totals_fields};
ghost use Rattle.al_catch.specs.Decoding.{Holds};
ghost use Rattle.al_catch.specs.Records.{info};

use al_msgpack::{Entries, Entry, Val, write};
use al_record::{
    Column, Content, ReadError, Record, Shape, check_fields, encode_record, listed, map, number,
    put_map,
};
use al_rewards::Totals;
use std::alloc::{AllocError, Global};

/// What a catchpoint says of itself.
#[derive(Clone, Copy, Debug, PartialEq, Eq)]
pub struct CatchInfo {
    /// How many chunks of rows there are.
    pub chunks: u64,
    /// The round whose rows they are.
    pub round: u64,
    /// The totals after that round.
    pub totals: Totals,
}

const INFO: [Column; 3] = [
    Column("c", Shape::Number),
    Column("d", Shape::Number),
    Column("t", Shape::Map),
];

const TOTALS: [Column; 7] = [
    Column("fm", Shape::Number),
    Column("fu", Shape::Number),
    Column("l", Shape::Number),
    Column("nm", Shape::Number),
    Column("nu", Shape::Number),
    Column("pm", Shape::Number),
    Column("pu", Shape::Number),
];

impl Record for CatchInfo {
    ghost format = { info };

    fn read(alloc: Global, entries: &[Entry]) -> Result<CatchInfo, ReadError> {
        check_fields(alloc, entries, &INFO)?;
        let totals = Totals::read(alloc, map(entries, "t"))?;
        Ok(CatchInfo {
            chunks: number(entries, "c"),
            round: number(entries, "d"),
            totals,
        })
    }

    fn write(&self, out: &mut Vec<u8>) -> Result<(), AllocError> {
        let alloc = *out.allocator();
        write(&Val::Map(info_entries(alloc, self)?), out)
    }
}

/// The record.
fn info_entries(alloc: Global, i: &CatchInfo) -> Result<Entries, AllocError>
    ensures { IfOk result (λ es. es ≡ info.write i.now) }
{
    let mut out = listed(
        alloc,
        &INFO[..2],
        &[Content::Number(i.chunks), Content::Number(i.round)],
    )?;
    put_map(alloc, &mut out, "t", totals_entries(alloc, &i.totals)?)?;
    Ok(out)
}

/// The record of the totals.
fn totals_entries(alloc: Global, t: &Totals) -> Result<Entries, AllocError>
    ensures { IfOk result (λ es. es ≡ totals.write t.now) }
{
    listed(alloc, &TOTALS, &contents(t))
}

/// What stands under each name of the totals.
fn contents<'a>(t: &'a Totals) -> [Content<'a>; 7]
    ensures { map put_of result ≡ map (λ f. put f t.now) totals_fields }
{
    [
        Content::Number(t.offline.money),
        Content::Number(t.offline.units),
        Content::Number(t.level),
        Content::Number(t.online.money),
        Content::Number(t.online.units),
        Content::Number(t.apart.money),
        Content::Number(t.apart.units),
    ]
}

/// Appends the spelling of the record: the number of chunks `c`, the round of their rows `d` and
/// the totals `t`, each exactly where it is not zero. Nothing is appended where memory is short.
pub fn encode_info(i: &CatchInfo, out: &mut Vec<u8>) -> Result<(), AllocError>
    ensures bytes { OnOk result (out.new.items ≡ out.old.items ++ spelled (values.Map (info.write i.now))) }
    // The bytes that it was decoded from.
    ensures back { (input : List ℕ) → Holds info input i.now → OnOk result (out.new.items ≡ out.old.items ++ input) }
    ensures err { OnErr result (out.new.items ≡ out.old.items) }
{
    encode_record(i, out)
}
