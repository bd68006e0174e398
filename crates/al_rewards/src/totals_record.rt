//! The record of totals.
ghost use Rattle.std.specs.Prelude.{◌≡◌, ◌++◌, ℕ, List, map, OnErr, OnOk};
ghost use Rattle.al_msgpack.specs.declared.val.Val.TheVariants as values;
ghost use Rattle.al_msgpack.specs.Spelled.{spelled};
ghost use Rattle.al_record.specs.Columns.{put};
ghost use Rattle.al_record.specs.Code.{put_of};
ghost use Rattle.al_rewards.specs.Record.{SpellsOneTotals, SpellsTotals, totals, totals_fields};

use crate::{Count, Totals};
use al_msgpack::Entry;
use al_record::{
    Column, Content, ReadError, Record, Shape, check, encode_record, number, write_listed,
};
use std::alloc::{AllocError, Global};

/// Money and units of the accounts that are offline, the level, and the same of those that are
/// online and of those that do not participate.
const TOTALS: [Column; 7] = [
    Column("fm", Shape::Number),
    Column("fu", Shape::Number),
    Column("l", Shape::Number),
    Column("nm", Shape::Number),
    Column("nu", Shape::Number),
    Column("pm", Shape::Number),
    Column("pu", Shape::Number),
];

impl Record for Totals {
    ghost use Rattle.al_rewards.specs.Record.{totals};

    ghost format = { totals };

    fn read(alloc: Global, entries: &[Entry]) -> Result<Totals, ReadError> {
        check(alloc, entries, &TOTALS)?;
        Ok(Totals {
            level: number(entries, "l"),
            online: Count {
                money: number(entries, "nm"),
                units: number(entries, "nu"),
            },
            offline: Count {
                money: number(entries, "fm"),
                units: number(entries, "fu"),
            },
            apart: Count {
                money: number(entries, "pm"),
                units: number(entries, "pu"),
            },
        })
    }

    fn write(&self, out: &mut Vec<u8>) -> Result<(), AllocError> {
        write_listed(&TOTALS, &contents(self), out)
    }
}

/// What stands under each name.
fn contents<'a>(t: &'a Totals) -> [Content<'a>; 7]
    ensures { map put_of result ≡ map (λ f. put f t.now) totals_fields }
{
    [
        Content::Number(t.offline.money),
        Content::Number(t.offline.units),
        Content::Number(t.level),
        Content::Number(t.online.money),
        Content::Number(t.online.units),
        Content::Number(t.apart.money),
        Content::Number(t.apart.units),
    ]
}

/// Appends the spelling of the totals' record, which has the fields `fm` and `fu` (money and units
/// of the accounts that are offline), `l` (the level), `nm` and `nu` (online), `pm` and `pu` (not
/// participating), each exactly where it is not zero. Nothing is appended where memory is short.
pub fn encode_totals(t: &Totals, out: &mut Vec<u8>) -> Result<(), AllocError>
    ensures bytes { OnOk result (out.new.items ≡ out.old.items ++ spelled (values.Map (totals.write t.now))) }
    ensures back { (input : List ℕ) → SpellsTotals t.now input → OnOk result (out.new.items ≡ out.old.items ++ input) }
    ensures spells { SpellsTotals t.now (spelled (values.Map (totals.write t.now))) }
    ensures err { OnErr result (out.new.items ≡ out.old.items) }
{
    append(*t, out)
}

fn append(t: Totals, out: &mut Vec<u8>) -> Result<(), AllocError>
    ensures bytes { OnOk result (out.new.items ≡ out.old.items ++ spelled (values.Map (totals.write t))) }
    ensures spells { SpellsTotals t (spelled (values.Map (totals.write t))) }
    ensures err { OnErr result (out.new.items ≡ out.old.items) }
{
    encode_record(&t, out)
}

/// Bytes spell the record of at most one value of totals.
pub fn totals_laws()
    ensures once { SpellsOneTotals }
{}
