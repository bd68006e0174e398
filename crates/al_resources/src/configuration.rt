//! Assets created, configured and destroyed.
ghost use Rattle.std.specs.Prelude.{◌≡◌, Some, IfOk};
ghost use Rattle.al_rows.specs.Rows.{AssetParamsInRange, asset_params_eq};
ghost use Rattle.al_overlay.specs.Work.{Does, DoesWhere, HasOneCreator};
ghost use Rattle.al_resources.specs.Assets.{configured, created, destroyed, managed, no_params, reconfigured, renewed, renewed_params};

use crate::Issued;
use crate::held::{NO_ADDRESS, amount_in, controls, find_asset, holding, set_asset};
use al_base::{Address, AssetParams, Bytes};
use al_moves::{Rule, Stop, Work};
use al_rows::{AssetRow, Holding, RowView};
use al_txn::Config;
use std::alloc::{AllocError, Global};

// Equal parameters.
fn copy_params(alloc: Global, params: &AssetParams) -> Result<AssetParams, AllocError>
    ensures same { IfOk result (λ p. p ≡ params.now) }
    ensures range { IfOk result (λ p. AssetParamsInRange (Some p)) }
{
    // Read by themselves, the numbers are known to have 64 bits.
    let total = params.total;
    let decimals = params.decimals;
    Ok(AssetParams {
        total,
        decimals,
        default_frozen: params.default_frozen,
        unit: params.unit.copy(alloc)?,
        name: params.name.copy(alloc)?,
        url: params.url.copy(alloc)?,
        meta: params.meta,
        manager: params.manager,
        reserve: params.reserve,
        freeze: params.freeze,
        clawback: params.clawback,
    })
}

// The sender gets the parameters and holds all units.
#[tactic(auto, unfolding(crate::specs::Assets::created))]
fn create<V: RowView>(
    alloc: Global,
    work: &mut Work<V>,
    who: &Address,
    params: &AssetParams,
    next: u64,
) -> Result<(), Stop<V::Fault>>
    ensures { Does V.tells (created who.now params.now next work.old.now) work.old work.new result }
{
    let params = copy_params(alloc, params)?;
    let holding = Holding {
        amount: params.total,
        frozen: false,
    };
    set_asset(
        work,
        who,
        next,
        AssetRow {
            params: Some(params),
            holding: Some(holding),
        },
    )
}

// The creator, who holds all units, has nothing of the asset any more.
#[tactic(auto, unfolding(crate::specs::Assets::destroyed))]
fn destroy<V: RowView>(work: &mut Work<V>, id: u64, issued: &Issued) -> Result<(), Stop<V::Fault>>
    ensures { Does V.tells (destroyed id issued.now work.old.now) work.old work.new result }
{
    let held = amount_in(holding(work, &issued.creator, id)?);
    let total = issued.params.total;
    if held != total {
        return Err(Stop::Rule(Rule::too_few(48, held, total)));
    }
    work.put_resource(&issued.creator, id, None)
}

// An address that may act takes the new value, unless it was given up.
fn renewed(old: Address, new: Address) -> Address
    ensures { result ≡ renewed old new }
{
    if old == NO_ADDRESS { old } else { new }
}

// The parameters with their addresses renewed.
fn renewed_params(old: AssetParams, new: &AssetParams) -> AssetParams
    ensures { result ≡ renewed_params old new.now }
{
    AssetParams {
        manager: renewed(old.manager, new.manager),
        reserve: renewed(old.reserve, new.reserve),
        freeze: renewed(old.freeze, new.freeze),
        clawback: renewed(old.clawback, new.clawback),
        ..old
    }
}

// An asset's addresses are renewed.
#[tactic(auto, unfolding(crate::specs::Assets::reconfigured))]
fn reconfigure<V: RowView>(
    work: &mut Work<V>,
    id: u64,
    issued: Issued,
    params: &AssetParams,
) -> Result<(), Stop<V::Fault>>
    requires { AssetParamsInRange (Some issued.params) }
    ensures { Does V.tells (reconfigured id issued params.now work.old.now) work.old work.new result }
{
    let Issued {
        creator,
        params: old,
    } = issued;
    let holding = holding(work, &creator, id)?;
    set_asset(
        work,
        &creator,
        id,
        AssetRow {
            params: Some(renewed_params(old, params)),
            holding,
        },
    )
}

// Parameters that are all zero.
fn no_params(alloc: Global) -> AssetParams
    ensures { result ≡ no_params }
{
    AssetParams {
        total: 0,
        decimals: 0,
        default_frozen: false,
        unit: Bytes::from_vec(Vec::new(alloc)),
        name: Bytes::from_vec(Vec::new(alloc)),
        url: Bytes::from_vec(Vec::new(alloc)),
        meta: [0; 32],
        manager: NO_ADDRESS,
        reserve: NO_ADDRESS,
        freeze: NO_ADDRESS,
        clawback: NO_ADDRESS,
    }
}

// Whether parameters are all zero.
fn are_zero(alloc: Global, params: &AssetParams) -> bool
    ensures { result ≡ asset_params_eq params.now no_params }
{
    *params == no_params(alloc)
}

// The manager of an asset configures it, or destroys it by parameters that are all zero.
#[tactic(auto, unfolding(crate::specs::Assets::managed))]
fn manage<V: RowView>(
    alloc: Global,
    work: &mut Work<V>,
    who: &Address,
    config: &Config,
    issued: Issued,
) -> Result<(), Stop<V::Fault>>
    requires { AssetParamsInRange (Some issued.params) }
    ensures { Does V.tells (managed who.now config.now.asset config.now.params issued work.old.now) work.old work.new result }
{
    if !controls(who, &issued.params.manager) {
        return Err(Stop::Rule(Rule::plain(47)));
    }
    if are_zero(alloc, &config.params) {
        return destroy(work, config.asset, &issued);
    }
    reconfigure(work, config.asset, issued, &config.params)
}

/// The body of a configuration by `who`. Where `config.asset` is 0, an asset is created with the
/// number `next`: the sender gets the parameters, and holds all units, unfrozen. Else that asset is
/// destroyed where the parameters are all zero: its creator has nothing of it any more. By other
/// parameters each of its four addresses that is not zero takes the new value; all else stays.
///
/// What the call does, and which rule refuses it, is said where at most one address had the asset's
/// parameters before the block, as in every sound state, and the view tells its rows.
///
/// Rules, with what each keeps:
/// - 46, the id: there is no such asset.
/// - 47, nothing: the sender is not its manager, or that is zero.
/// - 48, what the creator holds and the total, in base units: they differ, and the asset would be
///   destroyed.
/// - 65, the account: one of its counts would pass 2^40.
///
/// A failed view and want of memory are passed on. After a stop the work is of no more use.
#[tactic(auto, unfolding(crate::specs::Assets::configured))]
pub fn configure<V: RowView>(
    alloc: Global,
    work: &mut Work<V>,
    who: &Address,
    config: &Config,
    next: u64,
) -> Result<(), Stop<V::Fault>>
    ensures { DoesWhere V.tells (HasOneCreator work.old.block config.now.asset) (configured who.now config.now next work.old.now) work.old work.new result }
{
    if config.asset == 0 {
        return create(alloc, work, who, &config.params, next);
    }
    let issued = find_asset(work, config.asset)?;
    manage(alloc, work, who, config, issued)
}
