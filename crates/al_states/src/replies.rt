//! The answers to look-ups and posted bytes, by what came of them.
ghost use Rattle.std.specs.Prelude.{◌≡◌, Some, IfOk};
ghost use Rattle.al_answers.specs.Answers.{nothing};
ghost use Rattle.al_answers.specs.declared.answer.Answer.TheVariants as answers;
ghost use Rattle.al_answers.specs.declared.answer.ErrorName.TheVariants as errors;
ghost use Rattle.al_states.specs.Accepting.{accept_answer, eval_answer, refusal_answer};
ghost use Rattle.al_states.specs.Replies.{app_of, asset_of, box_of, broken_at, form_answer, misspelled, no_row, not_expired, short, undecodable, wrong_header};
ghost use Rattle.al_states.specs.Showing.{IsShown, IsUnshown, account_shown, app_shown, asset_shown, box_shown, circulation_shown, creator_shown, stake_shown, status_shown, supply_shown};

use crate::{
    AcceptRefusal, Accepted, CirculationAnswer, CreatorAnswer, LookRefusal, RowAnswer, StakeAnswer,
    StatusAnswer, SupplyAnswer,
};
use al_answers::{Answer, ErrorName, More};
use al_block::{BlockFault, Field};
use al_eval::EvalRefusal;
use al_moves::Rule;
use al_msgpack::DecodeFault;
use al_routes::FormFault;
use al_rows::{Never, Row};
use std::alloc::{AllocError, Global};

// ---- look-ups

fn unshown(refusal: LookRefusal) -> Result<Answer, AllocError>
    ensures { IfOk result (IsUnshown refusal) }
{
    let (error, front) = match refusal {
        LookRefusal::TooNew { front } => (ErrorName::TooNew, front),
        LookRefusal::BelowLookback { front } => (ErrorName::BelowLookback, front),
        LookRefusal::Memory => return Err(AllocError),
    };
    Ok(Answer::refused(error, More::at_front(front)))
}

fn no_row(front: u64, round: u64) -> Answer
    ensures { result ≡ no_row front round }
{
    let more = More {
        round: Some(round),
        ..More::at_front(front)
    };
    Answer::refused(ErrorName::NoRow, more)
}

// The account that a row is, at the reward level of its round.
pub(crate) fn account_answer(look: Result<RowAnswer<'_>, LookRefusal>) -> Result<Answer, AllocError>
    ensures { IfOk result (IsShown account_shown look.entry) }
{
    match look {
        Ok(shown) => match shown.row {
            Some(Row::Account(row)) => Ok(Answer::Account {
                front: shown.front,
                round: shown.round,
                level: shown.level,
                row: *row,
            }),
            _ => Ok(no_row(shown.front, shown.round)),
        },
        Err(refusal) => unshown(refusal),
    }
}

// What an account has of an asset, by a row.
fn asset_of(front: u64, round: u64, row: Row) -> Answer
    ensures { result ≡ asset_of front round row }
{
    match row {
        Row::Asset(row) => Answer::Asset { front, round, row },
        _ => no_row(front, round),
    }
}

pub(crate) fn asset_answer(
    alloc: Global,
    look: Result<RowAnswer<'_>, LookRefusal>,
) -> Result<Answer, AllocError>
    ensures { IfOk result (IsShown asset_shown look.entry) }
{
    match look {
        Ok(shown) => match shown.row {
            Some(row) => Ok(asset_of(shown.front, shown.round, row.copy(alloc)?)),
            None => Ok(no_row(shown.front, shown.round)),
        },
        Err(refusal) => unshown(refusal),
    }
}

// What an account has of an application, by a row.
fn app_of(front: u64, round: u64, row: Row) -> Answer
    ensures { result ≡ app_of front round row }
{
    match row {
        Row::App(row) => Answer::App { front, round, row },
        _ => no_row(front, round),
    }
}

pub(crate) fn app_answer(
    alloc: Global,
    look: Result<RowAnswer<'_>, LookRefusal>,
) -> Result<Answer, AllocError>
    ensures { IfOk result (IsShown app_shown look.entry) }
{
    match look {
        Ok(shown) => match shown.row {
            Some(row) => Ok(app_of(shown.front, shown.round, row.copy(alloc)?)),
            None => Ok(no_row(shown.front, shown.round)),
        },
        Err(refusal) => unshown(refusal),
    }
}

// The value of a box, by a row.
fn box_of(front: u64, round: u64, row: Row) -> Answer
    ensures { result ≡ box_of front round row }
{
    match row {
        Row::Box(row) => Answer::BoxOf {
            front,
            round,
            value: row.value,
        },
        _ => no_row(front, round),
    }
}

pub(crate) fn box_answer(
    alloc: Global,
    look: Result<RowAnswer<'_>, LookRefusal>,
) -> Result<Answer, AllocError>
    ensures { IfOk result (IsShown box_shown look.entry) }
{
    match look {
        Ok(shown) => match shown.row {
            Some(row) => Ok(box_of(shown.front, shown.round, row.copy(alloc)?)),
            None => Ok(no_row(shown.front, shown.round)),
        },
        Err(refusal) => unshown(refusal),
    }
}

pub(crate) fn creator_answer(look: Result<CreatorAnswer, LookRefusal>) -> Result<Answer, AllocError>
    ensures { IfOk result (IsShown creator_shown look) }
{
    match look {
        Ok(shown) => match shown.address {
            Some(address) => Ok(Answer::Creator {
                front: shown.front,
                round: shown.round,
                address,
            }),
            None => Ok(no_row(shown.front, shown.round)),
        },
        Err(refusal) => unshown(refusal),
    }
}

pub(crate) fn supply_answer(look: Result<SupplyAnswer, LookRefusal>) -> Result<Answer, AllocError>
    ensures { IfOk result (IsShown supply_shown look) }
{
    match look {
        Ok(shown) => Ok(Answer::Supply {
            front: shown.front,
            round: shown.round,
            totals: shown.totals,
        }),
        Err(refusal) => unshown(refusal),
    }
}

pub(crate) fn stake_answer(look: Result<StakeAnswer, LookRefusal>) -> Result<Answer, AllocError>
    ensures { IfOk result (IsShown stake_shown look) }
{
    match look {
        Ok(shown) => match shown.stake {
            Some(stake) => Ok(Answer::Online {
                front: shown.front,
                round: shown.round,
                stake: stake.stake,
                first: stake.first,
                last: stake.last,
                dilution: stake.dilution,
            }),
            None => Ok(no_row(shown.front, shown.round)),
        },
        Err(refusal) => unshown(refusal),
    }
}

pub(crate) fn circulation_answer(
    look: Result<CirculationAnswer, LookRefusal>,
) -> Result<Answer, AllocError>
    ensures { IfOk result (IsShown circulation_shown look) }
{
    match look {
        Ok(shown) => Ok(Answer::Circulation {
            front: shown.front,
            round: shown.round,
            vote: shown.vote,
            money: shown.money,
        }),
        Err(refusal) => unshown(refusal),
    }
}

pub(crate) fn status_answer(shown: StatusAnswer) -> Answer
    ensures { result ≡ status_shown shown }
{
    let hash = shown.hash;
    Answer::Standing {
        front: shown.front,
        floor: shown.floor,
        hash,
    }
}

// ---- requests that ask nothing

pub(crate) fn form_answer(fault: FormFault) -> Answer
    ensures { result ≡ form_answer fault }
{
    let error = match fault {
        FormFault::BadAddress => ErrorName::BadAddress,
        FormFault::BadId => ErrorName::BadId,
        FormFault::BadBox => ErrorName::BadBox,
        FormFault::BadQuery => ErrorName::BadQuery,
        FormFault::NoRoute => ErrorName::NoRoute,
        FormFault::Method => ErrorName::Method,
        FormFault::Memory => ErrorName::Memory,
    };
    Answer::refused(error, More::nothing())
}

// ---- posted bytes

// What comes of posted bytes is answered so.
pub(crate) fn accept_answer(accepted: Result<Accepted, AcceptRefusal>) -> Answer
    ensures { result ≡ accept_answer accepted }
{
    match accepted {
        Ok(accepted) => Answer::Taken {
            front: accepted.front,
            round: accepted.round,
        },
        Err(refusal) => refusal_answer(refusal),
    }
}

fn refusal_answer(refusal: AcceptRefusal) -> Answer
    ensures { result ≡ refusal_answer refusal }
{
    match refusal {
        AcceptRefusal::Undecodable(fault) => undecodable(fault),
        AcceptRefusal::WrongRound { next, front } => wrong_round(next, front),
        AcceptRefusal::Fork { kept, front } => {
            Answer::refused(ErrorName::Fork, More::kept(front, kept))
        }
        AcceptRefusal::WrongPrev { kept, front } => {
            Answer::refused(ErrorName::WrongPrev, More::kept(front, kept))
        }
        AcceptRefusal::Eval { refusal, front } => eval_answer(front, refusal),
        AcceptRefusal::Memory => Answer::memory(),
    }
}

// What posted bytes are answered that spell no block.
fn undecodable(fault: BlockFault) -> Answer
    ensures { result ≡ undecodable fault }
{
    match fault {
        BlockFault::Decode(fault) => misspelled(fault),
        BlockFault::Field { name } => Answer::refused(ErrorName::Field, More::named(name)),
        BlockFault::Range { name } => Answer::refused(ErrorName::Range, More::named(name)),
        BlockFault::Memory => Answer::memory(),
    }
}

fn misspelled(fault: DecodeFault) -> Answer
    ensures { result ≡ misspelled fault }
{
    match fault {
        DecodeFault::Truncated { at } => {
            Answer::refused(ErrorName::Truncated, More::at_byte(at as u64))
        }
        DecodeFault::Malformed { at } => {
            Answer::refused(ErrorName::Malformed, More::at_byte(at as u64))
        }
        DecodeFault::Trailing { at } => {
            Answer::refused(ErrorName::Trailing, More::at_byte(at as u64))
        }
        DecodeFault::Memory => Answer::memory(),
    }
}

fn wrong_round(next: u64, front: u64) -> Answer
    ensures { result ≡ answers.Refused 409 errors.WrongRound (record nothing { front = Some front; next = Some next }) }
{
    let more = More {
        next: Some(next),
        ..More::at_front(front)
    };
    Answer::refused(ErrorName::WrongRound, more)
}

// What a block is answered that the step refuses.
fn eval_answer(front: u64, refusal: EvalRefusal<Never>) -> Answer
    ensures { result ≡ eval_answer front refusal }
{
    match refusal {
        EvalRefusal::Broken { place, rule } => broken(front, place, &rule),
        EvalRefusal::Header { field } => wrong_header(front, field),
        EvalRefusal::PoolShort { .. } => short(front),
        EvalRefusal::Expired { place } => not_expired(front, place),
        EvalRefusal::View(never) => match never {},
        EvalRefusal::Memory => Answer::memory(),
    }
}

fn wrong_header(front: u64, field: Field) -> Answer
    ensures { result ≡ wrong_header front field }
{
    let more = More {
        field: Some(field),
        ..More::at_front(front)
    };
    Answer::refused(ErrorName::Header, more)
}

fn short(front: u64) -> Answer
    ensures { result ≡ short front }
{
    Answer::refused(ErrorName::PoolShort, More::at_front(front))
}

fn not_expired(front: u64, place: usize) -> Answer
    ensures { result ≡ not_expired front place }
{
    let more = More {
        place: Some(place as u64),
        ..More::at_front(front)
    };
    Answer::refused(ErrorName::Expired, more)
}

// The refusal by a rule.
fn broken(front: u64, place: usize, rule: &Rule) -> Answer
    ensures { result ≡ broken_at front place rule.now }
{
    let who = if rule.number == 42 { None } else { rule.who };
    let more = More {
        place: Some(place as u64),
        rule: Some(rule.number),
        has: rule.has,
        needs: rule.needs,
        until: rule.until,
        id: rule.id,
        who,
        ..More::at_front(front)
    };
    Answer::refused(ErrorName::Broken, more)
}
