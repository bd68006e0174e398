//! What the pool pays at the start of a block.
ghost use Rattle.std.specs.Prelude.{◌≡◌, ◌≤◌, ◌<◌, ◌-◌, ◌^◌, true, IfOk};
ghost use Rattle.al_rows.specs.Rows.{AccountInRange, account};
ghost use Rattle.al_eval.specs.Answers.{Runs, Sees};
ghost use Rattle.al_eval.specs.Pool.{owed_by, pool_paid, rewards_due, rewards_of};

use crate::{Before, EvalRefusal};
use al_base::{Address, Key};
use al_block::Header;
use al_moves::{Stop, Work};
use al_rewards::RewardsState;
use al_rows::{AccountRow, Row, RowView, account_in};

// The microAlgos that the pool keeps.
const LEAST_POOL: u128 = 100_000;

// The account of the pool, a missing one being the zero row.
fn pool_account<V: RowView>(
    work: &mut Work<V>,
    pool: &Address,
) -> Result<AccountRow, EvalRefusal<V::Fault>>
    ensures sees { Sees V.tells work.old work.new result }
    ensures value { V.tells ≡ true → IfOk result (λ r. r ≡ account work.old.now pool.now) }
    ensures range { IfOk result (λ r. AccountInRange r) }
{
    match work.row(&Key::Account(*pool)) {
        Ok(row) => Ok(account_in(&row)),
        Err(Stop::View(fault)) => Err(EvalRefusal::View(fault)),
        Err(Stop::Memory) => Err(EvalRefusal::Memory),
        Err(Stop::Rule(_)) => unreachable!(),
    }
}

// What a header says of rewards.
fn rewards_of(h: &Header) -> RewardsState
    ensures { result ≡ rewards_of h.now }
{
    RewardsState {
        level: h.level,
        rate: h.rate,
        residue: h.residue,
        recalc: h.recalc,
    }
}

/// The rewards that are due in a round, by the units and the pool's balance before it.
pub fn rewards_due<V: RowView>(
    work: &mut Work<V>,
    before: &Before,
    round: u64,
    units: u64,
) -> Result<RewardsState, EvalRefusal<V::Fault>>
    requires { round ≤ 2 ^ 62 }
    ensures sees { Sees V.tells work.old work.new result }
    ensures value { V.tells ≡ true → IfOk result (λ d. d ≡ rewards_due before.now round units work.old.now) }
{
    let pool = pool_account(work, &before.chain.special.pool)?;
    Ok(rewards_of(&before.header).next(round, before.chain.interval, pool.balance, units))
}

/// What all units earn, in microAlgos, by how much the level rises.
pub fn owed_by(before: &Before, units: u64, h: &Header) -> u128
    ensures value { result ≡ owed_by before.now units h.now }
    ensures bound { result < 2 ^ 128 - 2 ^ 64 }
{
    u128::from(units) * u128::from(h.level.saturating_sub(before.header.level))
}

/// The pool pays what is owed, and keeps its least.
#[tactic(auto, unfolding(crate::specs::Pool::pool_paid))]
pub fn pay_pool<V: RowView>(
    work: &mut Work<V>,
    pool: &Address,
    owed: u128,
) -> Result<(), EvalRefusal<V::Fault>>
    requires { owed < 2 ^ 128 - 2 ^ 64 }
    ensures { Runs V.tells (pool_paid pool.now owed work.old.now) work.old work.new result }
{
    let row = pool_account(work, pool)?;
    if u128::from(row.balance) < owed + LEAST_POOL {
        return Err(EvalRefusal::PoolShort {
            pool: row.balance,
            owed,
        });
    }
    let balance = row.balance - owed as u64;
    let rest = Row::Account(AccountRow { balance, ..row });
    match work.set(&Key::Account(*pool), Some(rest)) {
        Ok(()) => Ok(()),
        Err(Stop::View(fault)) => Err(EvalRefusal::View(fault)),
        Err(Stop::Memory) => Err(EvalRefusal::Memory),
        Err(Stop::Rule(_)) => unreachable!(),
    }
}
