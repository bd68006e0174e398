//! The account object.
ghost use Rattle.std.specs.Prelude.{◌≡◌, codes, IfOk, OnOk};
ghost use Rattle.serde_json.specs.View.{members_view};
ghost use Rattle.al_rows.specs.Rows.{CountsInRange};
ghost use Rattle.al_answers.specs.Json.{fields, members_of, put_json};
ghost use Rattle.al_answers.specs.Objects.{account_of, pending_of, status_text, vote_of, voting};

use crate::objects::{Members, Shown, put_nested, table};
use al_base::Status;
use al_rewards::{Share, pending};
use al_rows::AccountRow;
use std::alloc::{AllocError, Global};

// The rewards that the account has earned at this level.
fn pending_of(level: u64, r: &AccountRow) -> u64
    ensures { result ≡ pending_of level r.now }
{
    let share = Share {
        status: r.status,
        balance: r.balance,
        base: r.base,
    };
    pending(&share, level)
}

fn status_text(status: Status) -> &'static str
    ensures { result.now ≡ status_text status }
{
    match status {
        Status::Offline => "Offline",
        Status::Online => "Online",
        Status::NotParticipating => "Not Participating",
    }
}

// The keys of an account that is online.
fn voting(alloc: Global, r: &AccountRow) -> Result<Members, AllocError>
    ensures { IfOk result (λ m. members_view m.entries ≡ members_of (fields (voting r.now))) }
{
    let lines = [
        ("dilution", Shown::Whole(r.dilution)),
        ("first", Shown::Whole(r.first)),
        ("last", Shown::Whole(r.last)),
        ("selection", Shown::Hex(&r.selection)),
        ("sprf", Shown::Hex(&r.sprf)),
        ("vote", Shown::Hex(&r.vote)),
    ];
    table(alloc, &lines)
}

fn put_vote(alloc: Global, map: &mut Members, r: &AccountRow) -> Result<(), AllocError>
    ensures { OnOk result (members_view map.new.entries ≡ put_json (codes "vote") (vote_of r.now.status r.now) (members_view map.old.entries)) }
{
    match r.status {
        Status::Online => put_nested(alloc, map, "vote", voting(alloc, r)?),
        Status::Offline => Ok(()),
        Status::NotParticipating => Ok(()),
    }
}

/// The account object, at a reward level.
pub(crate) fn account(alloc: Global, level: u64, r: &AccountRow) -> Result<Members, AllocError>
    requires { CountsInRange r.now }
    ensures { IfOk result (λ m. members_view m.entries ≡ members_of (fields (account_of level r.now))) }
{
    let lines = [
        ("apps_created", Shown::UnlessZero(r.apps_created)),
        ("apps_opted", Shown::UnlessZero(r.apps_opted)),
        ("assets_created", Shown::UnlessZero(r.assets_created)),
        ("assets_held", Shown::UnlessZero(r.assets_held)),
        ("auth", Shown::UnlessNobody(&r.auth)),
        ("balance", Shown::UnlessZero(r.balance)),
        ("base", Shown::UnlessZero(r.base)),
        ("box_bytes", Shown::UnlessZero(r.box_bytes)),
        ("boxes", Shown::UnlessZero(r.boxes)),
        ("byte_slices", Shown::UnlessZero(r.byte_slices)),
        ("extra_pages", Shown::UnlessZero(r.extra_pages)),
        ("min", Shown::Whole(r.min_balance())),
        ("pending", Shown::UnlessZero(pending_of(level, r))),
        ("status", Shown::Text(status_text(r.status))),
        ("uints", Shown::UnlessZero(r.uints)),
    ];
    let mut map = table(alloc, &lines)?;
    put_vote(alloc, &mut map, r)?;
    Ok(map)
}
