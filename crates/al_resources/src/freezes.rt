//! Holdings frozen, or no longer.
ghost use Rattle.al_overlay.specs.Work.{Does, DoesWhere, HasOneCreator};
ghost use Rattle.al_resources.specs.Assets.{frozen, frozen_as};
ghost use Rattle.al_resources.specs.Finds.{AssetInRange, frozen_by};

use crate::Issued;
use crate::held::{asset, controls, find_asset, set_asset};
use al_base::Address;
use al_moves::{Rule, Stop, Work};
use al_rows::{AssetRow, Holding, RowView};
use al_txn::Freeze;

// The holding of what an account has is frozen, or no longer.
fn freeze_as<V: RowView>(
    work: &mut Work<V>,
    freeze: &Freeze,
    asset: AssetRow,
) -> Result<(), Stop<V::Fault>>
    requires { AssetInRange asset }
    ensures { Does V.tells (frozen_as freeze.now asset asset.holding work.old.now) work.old work.new result }
{
    let Some(holding) = asset.holding else {
        return Err(Stop::Rule(Rule::of_account(50, &freeze.account)));
    };
    let holding = Holding {
        frozen: freeze.frozen,
        ..holding
    };
    set_asset(
        work,
        &freeze.account,
        freeze.asset,
        AssetRow {
            holding: Some(holding),
            ..asset
        },
    )
}

// The same, where the asset is there.
fn freeze_by<V: RowView>(
    work: &mut Work<V>,
    who: &Address,
    freeze: &Freeze,
    issued: &Issued,
) -> Result<(), Stop<V::Fault>>
    ensures { Does V.tells (frozen_by who.now freeze.now issued.now work.old.now) work.old work.new result }
{
    if !controls(who, &issued.params.freeze) {
        return Err(Stop::Rule(Rule::plain(55)));
    }
    let asset = asset(work, &freeze.account, freeze.asset)?;
    freeze_as(work, freeze, asset)
}

/// The body of a freeze by `who`: a holding is frozen from then on, or no longer.
///
/// The asset is `freeze.asset`. What the call does, and which rule refuses it, is said where at
/// most one address had the asset's parameters before the block, as in every sound state, and the
/// view tells its rows.
///
/// Rules, with what each keeps:
/// - 46, the id: there is no such asset.
/// - 55, nothing: the sender is not the freeze address, or that is zero.
/// - 50, the account: it has no holding.
///
/// A failed view and want of memory are passed on. After a stop the work is of no more use.
#[tactic(auto, unfolding(crate::specs::Assets::frozen))]
pub fn freeze<V: RowView>(
    work: &mut Work<V>,
    who: &Address,
    freeze: &Freeze,
) -> Result<(), Stop<V::Fault>>
    ensures { DoesWhere V.tells (HasOneCreator work.old.block freeze.now.asset) (frozen who.now freeze.now work.old.now) work.old work.new result }
{
    let issued = find_asset(work, freeze.asset)?;
    freeze_by(work, who, freeze, &issued)
}
