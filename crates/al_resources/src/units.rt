//! Units that move between holdings.
ghost use Rattle.al_overlay.specs.Work.{Does};
ghost use Rattle.al_resources.specs.Assets.{give_units, given_from, moved_units, take_units, taken_by};
ghost use Rattle.al_resources.specs.Finds.{AssetInRange};

use crate::held::{asset, set_asset};
use al_base::Address;
use al_moves::{Rule, Stop, Work};
use al_rows::{AssetRow, Holding, RowView};

// The same as `give_units` of what an account has.
fn give_from<V: RowView>(
    work: &mut Work<V>,
    thawed: bool,
    id: u64,
    from: &Address,
    amount: u64,
    asset: AssetRow,
) -> Result<(), Stop<V::Fault>>
    requires { AssetInRange asset }
    ensures { Does V.tells (given_from thawed id from.now amount asset asset.holding work.old.now) work.old work.new result }
{
    let Some(holding) = asset.holding else {
        return Err(Stop::Rule(Rule::of_account(50, from)));
    };
    if !thawed && holding.frozen {
        return Err(Stop::Rule(Rule::of_account(51, from)));
    }
    if holding.amount < amount {
        return Err(Stop::Rule(Rule::too_few(52, holding.amount, amount)));
    }
    let rest = Holding {
        amount: holding.amount - amount,
        ..holding
    };
    set_asset(
        work,
        from,
        id,
        AssetRow {
            holding: Some(rest),
            ..asset
        },
    )
}

// A holding gives units.
#[tactic(auto, unfolding(crate::specs::Assets::give_units))]
fn give_units<V: RowView>(
    work: &mut Work<V>,
    thawed: bool,
    id: u64,
    from: &Address,
    amount: u64,
) -> Result<(), Stop<V::Fault>>
    ensures { Does V.tells (give_units thawed id from.now amount work.old.now) work.old work.new result }
{
    let asset = asset(work, from, id)?;
    give_from(work, thawed, id, from, amount, asset)
}

// The same as `take_units` of what an account has.
fn take_by<V: RowView>(
    work: &mut Work<V>,
    thawed: bool,
    id: u64,
    to: &Address,
    amount: u64,
    asset: AssetRow,
) -> Result<(), Stop<V::Fault>>
    requires { AssetInRange asset }
    ensures { Does V.tells (taken_by thawed id to.now amount asset asset.holding work.old.now) work.old work.new result }
{
    let Some(holding) = asset.holding else {
        return Err(Stop::Rule(Rule::of_account(50, to)));
    };
    if !thawed && holding.frozen {
        return Err(Stop::Rule(Rule::of_account(51, to)));
    }
    let Some(sum) = holding.amount.checked_add(amount) else {
        return Err(Stop::Rule(Rule::of_account(53, to)));
    };
    let more = Holding {
        amount: sum,
        ..holding
    };
    set_asset(
        work,
        to,
        id,
        AssetRow {
            holding: Some(more),
            ..asset
        },
    )
}

// A holding takes units in.
#[tactic(auto, unfolding(crate::specs::Assets::take_units))]
fn take_units<V: RowView>(
    work: &mut Work<V>,
    thawed: bool,
    id: u64,
    to: &Address,
    amount: u64,
) -> Result<(), Stop<V::Fault>>
    ensures { Does V.tells (take_units thawed id to.now amount work.old.now) work.old work.new result }
{
    let asset = asset(work, to, id)?;
    take_by(work, thawed, id, to, amount, asset)
}

/// Moves units of an asset from one holding to another; where it is thawed, no freeze stops them.
/// No units ask nothing of either.
///
/// Rules, at the giver first: 50, which keeps the account: it has no holding; 51, which keeps the
/// account: its holding is frozen; 52, which keeps what it holds and the amount, in base units:
/// the giver holds too little; 53, which keeps the account: the receiver would hold more than 64
/// bits say; 65: a count of an account would pass 2^40.
#[tactic(auto, unfolding(crate::specs::Assets::moved_units))]
pub fn move_units<V: RowView>(
    work: &mut Work<V>,
    thawed: bool,
    id: u64,
    from: &Address,
    to: &Address,
    amount: u64,
) -> Result<(), Stop<V::Fault>>
    ensures { Does V.tells (moved_units thawed id from.now to.now amount work.old.now) work.old work.new result }
{
    if amount == 0 {
        return Ok(());
    }
    give_units(work, thawed, id, from, amount)?;
    take_units(work, thawed, id, to, amount)
}
