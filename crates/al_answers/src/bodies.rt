//! The bodies of answers.
ghost use Rattle.std.specs.Prelude.{◌≡◌, ◌^◌, ◌<◌, codes, IfOk, string_bytes};
ghost use Rattle.serde_json.specs.Data.{no_members, object, put};
ghost use Rattle.serde_json.specs.View.{members_view, view};
ghost use Rattle.serde_json.specs.Written.{compact_text};
ghost use Rattle.al_answers.specs.Answers.{IsSound, body_of, circulation_of, online_of, refused_of, rounds_of, shown_at, standing_of, sum_of, supply_of};
ghost use Rattle.al_answers.specs.Json.{address_of, fields, hex_of, members_of, put_fields};

use crate::account::account;
use crate::answer::{Answer, ErrorName, More};
use crate::objects::{Members, Shown, put_nested, put_table, table};
use crate::resources::{app, asset};
use al_base::{Address, Bytes, Hash};
use al_rewards::Totals;
use serde_json::{Map, Value};
use std::alloc::{AllocError, Global};

fn rounds(alloc: Global, front: u64, round: u64) -> Result<Members, AllocError>
    ensures { IfOk result (λ m. members_view m.entries ≡ members_of (fields (rounds_of front round))) }
{
    let lines = [
        ("front", Shown::Whole(front)),
        ("round", Shown::Whole(round)),
    ];
    table(alloc, &lines)
}

// An object under a name, beside the front and the round.
fn shown_at(
    alloc: Global,
    name: &str,
    inner: Members,
    front: u64,
    round: u64,
) -> Result<Members, AllocError>
    ensures { IfOk result (λ m. members_view m.entries ≡ put_fields (fields (rounds_of front round)) (put name.now (object (members_view inner.entries)) no_members)) }
{
    let lines = [
        ("front", Shown::Whole(front)),
        ("round", Shown::Whole(round)),
    ];
    let mut map = Map::new(alloc);
    put_nested(alloc, &mut map, name, inner)?;
    put_table(alloc, &mut map, &lines)?;
    Ok(map)
}

fn box_value(alloc: Global, front: u64, round: u64, value: &Bytes) -> Result<Members, AllocError>
    ensures { IfOk result (λ m. members_view m.entries ≡ members_of (fields (shown_at (codes "box") (hex_of value.now) front round))) }
{
    let lines = [
        ("box", Shown::Hex(value.as_slice())),
        ("front", Shown::Whole(front)),
        ("round", Shown::Whole(round)),
    ];
    table(alloc, &lines)
}

fn creator(alloc: Global, front: u64, round: u64, address: &Address) -> Result<Members, AllocError>
    ensures { IfOk result (λ m. members_view m.entries ≡ members_of (fields (shown_at (codes "creator") (address_of address.now) front round))) }
{
    let lines = [
        ("creator", Shown::Address(address)),
        ("front", Shown::Whole(front)),
        ("round", Shown::Whole(round)),
    ];
    table(alloc, &lines)
}

fn online(
    alloc: Global,
    stake: u64,
    first: u64,
    last: u64,
    dilution: u64,
) -> Result<Members, AllocError>
    ensures { IfOk result (λ m. members_view m.entries ≡ members_of (fields (online_of stake first last dilution))) }
{
    let lines = [
        ("first", Shown::Whole(first)),
        ("key_dilution", Shown::Whole(dilution)),
        ("last", Shown::Whole(last)),
        ("stake", Shown::Whole(stake)),
    ];
    table(alloc, &lines)
}

fn circulation(
    alloc: Global,
    front: u64,
    round: u64,
    vote: u64,
    money: u64,
) -> Result<Members, AllocError>
    ensures { IfOk result (λ m. members_view m.entries ≡ members_of (fields (circulation_of front round vote money))) }
{
    let lines = [
        ("circulation", Shown::Whole(money)),
        ("front", Shown::Whole(front)),
        ("round", Shown::Whole(round)),
        ("vote", Shown::Whole(vote)),
    ];
    table(alloc, &lines)
}

fn supply(alloc: Global, t: &Totals) -> Result<Members, AllocError>
    requires { sum_of t.now < 2 ^ 64 }
    ensures { IfOk result (λ m. members_view m.entries ≡ members_of (fields (supply_of t.now))) }
{
    let sum = t.online.money + t.offline.money + t.apart.money;
    let lines = [
        ("not_participating", Shown::Whole(t.apart.money)),
        ("offline", Shown::Whole(t.offline.money)),
        ("online", Shown::Whole(t.online.money)),
        ("sum", Shown::Whole(sum)),
    ];
    table(alloc, &lines)
}

fn standing(alloc: Global, front: u64, floor: u64, hash: &Hash) -> Result<Members, AllocError>
    ensures { IfOk result (λ m. members_view m.entries ≡ members_of (fields (standing_of front floor hash.now))) }
{
    let lines = [
        ("floor", Shown::Whole(floor)),
        ("front", Shown::Whole(front)),
        ("hash", Shown::Hash(hash)),
    ];
    table(alloc, &lines)
}

fn refused(alloc: Global, error: ErrorName, m: &More) -> Result<Members, AllocError>
    ensures { IfOk result (λ v. members_view v.entries ≡ members_of (fields (refused_of error m.now))) }
{
    let lines = [
        ("at", Shown::IfKnown(m.at)),
        ("error", Shown::Text(error.text())),
        ("field", Shown::FieldIfKnown(m.field)),
        ("floor", Shown::IfKnown(m.floor)),
        ("front", Shown::IfKnown(m.front)),
        ("has", Shown::IfKnown(m.has)),
        ("id", Shown::IfKnown(m.id)),
        ("kept", Shown::HashIfKnown(&m.kept)),
        ("name", Shown::HexIfKnown(&m.name)),
        ("needs", Shown::IfKnown(m.needs)),
        ("next", Shown::IfKnown(m.next)),
        ("place", Shown::IfKnown(m.place)),
        ("round", Shown::IfKnown(m.round)),
        ("rule", Shown::IfKnown(m.rule)),
        ("until", Shown::IfKnown(m.until)),
        ("who", Shown::AddressIfKnown(&m.who)),
    ];
    table(alloc, &lines)
}

fn body(alloc: Global, a: &Answer) -> Result<Members, AllocError>
    requires { IsSound a.now }
    ensures { IfOk result (λ m. members_view m.entries ≡ members_of (fields (body_of a.now))) }
{
    match a {
        Answer::Taken { front, round } => rounds(alloc, *front, *round),
        Answer::Account {
            front,
            round,
            level,
            row,
        } => shown_at(
            alloc,
            "account",
            account(alloc, *level, row)?,
            *front,
            *round,
        ),
        Answer::Asset { front, round, row } => {
            shown_at(alloc, "asset", asset(alloc, row)?, *front, *round)
        }
        Answer::App { front, round, row } => {
            shown_at(alloc, "app", app(alloc, row)?, *front, *round)
        }
        Answer::BoxOf {
            front,
            round,
            value,
        } => box_value(alloc, *front, *round, value),
        Answer::Creator {
            front,
            round,
            address,
        } => creator(alloc, *front, *round, address),
        Answer::Online {
            front,
            round,
            stake,
            first,
            last,
            dilution,
        } => shown_at(
            alloc,
            "online",
            online(alloc, *stake, *first, *last, *dilution)?,
            *front,
            *round,
        ),
        Answer::Circulation {
            front,
            round,
            vote,
            money,
        } => circulation(alloc, *front, *round, *vote, *money),
        Answer::Supply {
            front,
            round,
            totals,
        } => shown_at(alloc, "supply", supply(alloc, totals)?, *front, *round),
        Answer::Standing { front, floor, hash } => standing(alloc, *front, *floor, hash),
        Answer::Refused {
            status: _,
            error,
            more,
        } => refused(alloc, *error, more),
    }
}

fn body_value(alloc: Global, a: &Answer) -> Result<Value, AllocError>
    requires { IsSound a.now }
    ensures { IfOk result (λ v. view v ≡ object (members_of (fields (body_of a.now)))) }
{
    Ok(Value::Object(body(alloc, a)?))
}

/// The text of an answer's body.
pub(crate) fn body_text(alloc: Global, a: &Answer) -> Result<String, AllocError>
    requires { IsSound a.now }
    ensures { IfOk result (λ text. string_bytes text ≡ compact_text (object (members_of (fields (body_of a.now))))) }
{
    let value = body_value(alloc, a)?;
    value.to_string(alloc)
}
