//! Units sent, clawed back and closed.
ghost use Rattle.std.specs.Prelude.{◌≡◌, true, IfOk};
ghost use Rattle.al_overlay.specs.Rules.{then_do};
ghost use Rattle.al_overlay.specs.Work.{Does, DoesWhere, HasOneCreator, Looks};
ghost use Rattle.al_resources.specs.Assets.{clawed_back, closed_from, closed_units, issued, opted, opted_in, opts_in, sent, transferred};
ghost use Rattle.al_resources.specs.Finds.{clawed_by, closed_as};

use crate::Issued;
use crate::held::{
    NO_ADDRESS, asset, controls, find_asset, holding, is_creator, remove_holding, set_asset,
};
use crate::units::move_units;
use al_base::Address;
use al_moves::{Rule, Stop, Work};
use al_rows::{AssetRow, Holding, RowView};
use al_txn::AssetMove;

// Whether this is a transfer of nothing to oneself by an account without a holding.
fn opts_in<V: RowView>(
    work: &mut Work<V>,
    who: &Address,
    asset_move: &AssetMove,
) -> Result<bool, Stop<V::Fault>>
    ensures looks { Looks V.tells work.old work.new result }
    ensures value { V.tells ≡ true → IfOk result (λ b. b ≡ opts_in who.now asset_move.now work.old.now) }
{
    if asset_move.amount != 0 || asset_move.receiver != *who {
        return Ok(false);
    }
    let held = holding(work, who, asset_move.asset)?;
    Ok(held.is_none())
}

// An account gets a holding of nothing, frozen as the asset says.
#[tactic(auto, unfolding(crate::specs::Assets::opted))]
fn opt<V: RowView>(
    work: &mut Work<V>,
    who: &Address,
    id: u64,
    issued: &Issued,
) -> Result<(), Stop<V::Fault>>
    ensures { Does V.tells (opted who.now id issued.now work.old.now) work.old work.new result }
{
    let asset = asset(work, who, id)?;
    let holding = Holding {
        amount: 0,
        frozen: issued.params.default_frozen,
    };
    set_asset(
        work,
        who,
        id,
        AssetRow {
            holding: Some(holding),
            ..asset
        },
    )
}

// The same, where the asset is there.
fn opt_existing<V: RowView>(
    work: &mut Work<V>,
    who: &Address,
    id: u64,
) -> Result<(), Stop<V::Fault>>
    ensures { DoesWhere V.tells (HasOneCreator work.old.block id) (then_do (issued id work.old.now) (λ a. opted who.now id a work.old.now)) work.old work.new result }
{
    let issued = find_asset(work, id)?;
    opt(work, who, id, &issued)
}

// A transfer opts in where it does.
#[tactic(auto, unfolding(crate::specs::Assets::opted_in))]
fn opt_in<V: RowView>(
    work: &mut Work<V>,
    who: &Address,
    asset_move: &AssetMove,
) -> Result<(), Stop<V::Fault>>
    ensures { DoesWhere V.tells (HasOneCreator work.old.block asset_move.now.asset) (opted_in who.now asset_move.now work.old.now) work.old work.new result }
{
    if !opts_in(work, who, asset_move)? {
        return Ok(());
    }
    opt_existing(work, who, asset_move.asset)
}

// A holding of an asset with this creator is closed: its whole rest moves, no freeze stopping it
// where the receiver is the creator, and then it goes.
fn close_as<V: RowView>(
    work: &mut Work<V>,
    who: &Address,
    id: u64,
    to: &Address,
    holding: Holding,
    creator: Option<Address>,
) -> Result<(), Stop<V::Fault>>
    ensures { Does V.tells (closed_as who.now id to.now holding creator work.old.now) work.old work.new result }
{
    if is_creator(who, creator) {
        return Err(Stop::Rule(Rule::plain(54)));
    }
    if holding.amount != 0 && *to == *who {
        return Err(Stop::Rule(Rule::plain(54)));
    }
    move_units(work, is_creator(to, creator), id, who, to, holding.amount)?;
    remove_holding(work, who, id)
}

// The same, where the holding may be there.
fn close_from<V: RowView>(
    work: &mut Work<V>,
    who: &Address,
    id: u64,
    to: &Address,
    held: Option<Holding>,
) -> Result<(), Stop<V::Fault>>
    ensures { DoesWhere V.tells (HasOneCreator work.old.block id) (closed_from who.now id to.now held work.old.now) work.old work.new result }
{
    let Some(holding) = held else {
        return Err(Stop::Rule(Rule::of_account(50, who)));
    };
    let creator = work.creator(id)?;
    close_as(work, who, id, to, holding, creator)
}

// A close address that is not zero takes the rest.
#[tactic(auto, unfolding(crate::specs::Assets::closed_units))]
fn close_units<V: RowView>(
    work: &mut Work<V>,
    who: &Address,
    asset_move: &AssetMove,
) -> Result<(), Stop<V::Fault>>
    ensures { DoesWhere V.tells (HasOneCreator work.old.block asset_move.now.asset) (closed_units who.now asset_move.now work.old.now) work.old work.new result }
{
    if asset_move.close == NO_ADDRESS {
        return Ok(());
    }
    let held = holding(work, who, asset_move.asset)?;
    close_from(work, who, asset_move.asset, &asset_move.close, held)
}

// An account sends units of its own.
#[tactic(auto, unfolding(crate::specs::Assets::sent))]
fn send<V: RowView>(
    work: &mut Work<V>,
    who: &Address,
    asset_move: &AssetMove,
) -> Result<(), Stop<V::Fault>>
    ensures { DoesWhere V.tells (HasOneCreator work.old.block asset_move.now.asset) (sent who.now asset_move.now work.old.now) work.old work.new result }
{
    opt_in(work, who, asset_move)?;
    move_units(
        work,
        false,
        asset_move.asset,
        who,
        &asset_move.receiver,
        asset_move.amount,
    )?;
    close_units(work, who, asset_move)
}

// Units of an asset that is there are clawed back.
fn claw<V: RowView>(
    work: &mut Work<V>,
    who: &Address,
    asset_move: &AssetMove,
    issued: &Issued,
) -> Result<(), Stop<V::Fault>>
    ensures { Does V.tells (clawed_by who.now asset_move.now issued.now work.old.now) work.old work.new result }
{
    if !controls(who, &issued.params.clawback) {
        return Err(Stop::Rule(Rule::plain(49)));
    }
    move_units(
        work,
        true,
        asset_move.asset,
        &asset_move.source,
        &asset_move.receiver,
        asset_move.amount,
    )
}

// The clawback address of an asset takes units from a holding.
#[tactic(auto, unfolding(crate::specs::Assets::clawed_back))]
fn claw_back<V: RowView>(
    work: &mut Work<V>,
    who: &Address,
    asset_move: &AssetMove,
) -> Result<(), Stop<V::Fault>>
    ensures { DoesWhere V.tells (HasOneCreator work.old.block asset_move.now.asset) (clawed_back who.now asset_move.now work.old.now) work.old work.new result }
{
    let issued = find_asset(work, asset_move.asset)?;
    claw(work, who, asset_move, &issued)
}

/// The body of a transfer by `who`, in base units: a clawback where its source is not zero. Else
/// the sender opts in where it transfers nothing to itself and has no holding, the amount moves,
/// and a close address that is not zero takes the whole rest, whereupon the sender's holding goes.
///
/// The asset is `asset_move.asset`. What the call does, and which rule refuses it, is said where at
/// most one address had the asset's parameters before the block, as in every sound state, and the
/// view tells its rows.
///
/// Rules, with what each keeps:
/// - 46, the id: the sender opts in, or claws back, and there is no such asset.
/// - 49, nothing: the sender of a clawback is not the clawback address, or that is zero.
/// - 50, the account: the giver or the receiver of an amount that is not 0, or a sender that
///   closes, has no holding.
/// - 51, the account: the holding of the giver or the receiver is frozen. A clawback passes over a
///   freeze, and so does a close to the creator.
/// - 52, what the giver holds and the amount: it holds too little.
/// - 53, the account: the receiver would hold more than 64 bits say.
/// - 54, nothing: the creator closes its holding, or a rest that is not 0 is closed to the sender
///   itself.
/// - 65, the account: one of its counts would pass 2^40.
///
/// A failed view and want of memory are passed on. After a stop the work is of no more use.
#[tactic(auto, unfolding(crate::specs::Assets::transferred))]
pub fn transfer<V: RowView>(
    work: &mut Work<V>,
    who: &Address,
    asset_move: &AssetMove,
) -> Result<(), Stop<V::Fault>>
    ensures { DoesWhere V.tells (HasOneCreator work.old.block asset_move.now.asset) (transferred who.now asset_move.now work.old.now) work.old work.new result }
{
    if asset_move.source == NO_ADDRESS {
        return send(work, who, asset_move);
    }
    claw_back(work, who, asset_move)
}
