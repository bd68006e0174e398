//! The accounts that a header lists as expired.
ghost use Rattle.al_moves.specs.Keys as keys;
ghost use Rattle.al_eval.specs.Answers.{Runs};
ghost use Rattle.al_eval.specs.Expiry.{all_expired, or_refused};

use crate::EvalRefusal;
use al_base::{Address, Addresses};
use al_moves::{Stop, Work};
use al_rows::RowView;

// The account at a place of the list goes offline, where its keys have expired.
fn expire_at<V: RowView>(
    work: &mut Work<V>,
    place: usize,
    who: &Address,
) -> Result<(), EvalRefusal<V::Fault>>
    ensures { Runs V.tells (or_refused place (keys.expired work.old.round who.now work.old.now)) work.old work.new result }
{
    match work.expire(who) {
        Ok(true) => Ok(()),
        Ok(false) => Err(EvalRefusal::Expired { place }),
        Err(Stop::View(fault)) => Err(EvalRefusal::View(fault)),
        Err(Stop::Memory) => Err(EvalRefusal::Memory),
        Err(Stop::Rule(_)) => unreachable!(),
    }
}

/// The accounts of a list go offline one after another, where the keys of each have expired.
pub fn expire_all<V: RowView>(
    work: &mut Work<V>,
    accounts: &Addresses,
) -> Result<(), EvalRefusal<V::Fault>>
    ensures { Runs V.tells (all_expired work.old.round 0 accounts.now work.old.now) work.old work.new result }
{
    for (place, who) in accounts.as_slice().iter().enumerate() {
        expire_at(work, place, who)?;
    }
    Ok(())
}
