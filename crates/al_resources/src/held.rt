//! What accounts have of assets, and which assets there are.
ghost use Rattle.std.specs.Prelude.{◌≡◌, ⊤, Some, true, IfOk};
ghost use Rattle.al_rows.specs.Rows.{AssetParamsInRange, HoldingInRange};
ghost use Rattle.al_overlay.specs.Work.{Does, HasOneCreator, Looks};
ghost use Rattle.al_resources.specs.Assets.{amount_in, asset, asset_in, controls, is_creator, issued, issued_by, set_asset, without_holding};
ghost use Rattle.al_resources.specs.Finds.{AssetInRange, Finds};

use crate::Issued;
use al_base::{Address, Key};
use al_moves::{Rule, Stop, Work};
use al_rows::{AssetRow, Holding, Row, RowView};

/// The zero address, which is nobody.
pub const NO_ADDRESS: Address = Address([0; 32]);

// What a row says of an asset; a row of another kind says nothing.
fn asset_in(row: Option<Row>) -> AssetRow
    ensures { result ≡ asset_in row }
{
    match row {
        Some(Row::Asset(asset)) => asset,
        _ => AssetRow {
            params: None,
            holding: None,
        },
    }
}

/// What an account has of an asset: neither part where it has nothing of it.
pub fn asset<V: RowView>(
    work: &mut Work<V>,
    who: &Address,
    id: u64,
) -> Result<AssetRow, Stop<V::Fault>>
    ensures looks { Looks V.tells work.old work.new result }
    ensures value { V.tells ≡ true → IfOk result (λ a. a ≡ asset work.old.now who.now id) }
    ensures range { IfOk result (λ a. AssetInRange a) }
{
    let row = work.row(&Key::Resource(*who, id))?;
    Ok(asset_in(row))
}

/// What an account holds of an asset.
pub fn holding<V: RowView>(
    work: &mut Work<V>,
    who: &Address,
    id: u64,
) -> Result<Option<Holding>, Stop<V::Fault>>
    ensures looks { Looks V.tells work.old work.new result }
    ensures value { V.tells ≡ true → IfOk result (λ h. h ≡ (asset work.old.now who.now id).holding) }
    ensures range { IfOk result HoldingInRange }
{
    let row = asset(work, who, id)?;
    Ok(row.holding)
}

/// How many base units a holding has that may be there.
pub fn amount_in(holding: Option<Holding>) -> u64
    ensures { result ≡ amount_in holding }
{
    match holding {
        Some(holding) => holding.amount,
        None => 0,
    }
}

/// Makes this what an account has of an asset, and moves the account's counts. Rule 65: a count
/// would pass 2^40.
pub fn set_asset<V: RowView>(
    work: &mut Work<V>,
    who: &Address,
    id: u64,
    asset: AssetRow,
) -> Result<(), Stop<V::Fault>>
    requires { AssetInRange asset }
    ensures { Does V.tells (set_asset who.now id asset work.old.now) work.old work.new result }
{
    work.put_resource(who, id, Some(Row::Asset(asset)))
}

/// The holding of an account goes.
#[tactic(auto, unfolding(crate::specs::Assets::without_holding))]
pub fn remove_holding<V: RowView>(
    work: &mut Work<V>,
    who: &Address,
    id: u64,
) -> Result<(), Stop<V::Fault>>
    ensures { Does V.tells (without_holding who.now id work.old.now) work.old work.new result }
{
    let asset = asset(work, who, id)?;
    set_asset(
        work,
        who,
        id,
        AssetRow {
            holding: None,
            ..asset
        },
    )
}

// The asset of an account that has its parameters.
fn issued_by<V: RowView>(
    work: &mut Work<V>,
    id: u64,
    creator: Address,
) -> Result<Issued, Stop<V::Fault>>
    ensures finds { Finds V.tells ⊤ (issued_by id creator (asset work.old.now creator id).params) work.old work.new result }
    ensures range { IfOk result (λ a. AssetParamsInRange (Some a.params)) }
{
    let row = asset(work, &creator, id)?;
    match row.params {
        Some(params) => Ok(Issued { creator, params }),
        None => Err(Stop::Rule(Rule::of_id(46, id))),
    }
}

/// The asset with its creator and parameters. Rule 46, which keeps the id: there is no such asset.
/// Nothing is said of the answer where two addresses had its parameters before the block.
#[tactic(auto, unfolding(crate::specs::Assets::issued))]
pub fn find_asset<V: RowView>(work: &mut Work<V>, id: u64) -> Result<Issued, Stop<V::Fault>>
    ensures finds { Finds V.tells (HasOneCreator work.old.block id) (issued id work.old.now) work.old work.new result }
    ensures range { IfOk result (λ a. AssetParamsInRange (Some a.params)) }
{
    match work.creator(id)? {
        Some(creator) => issued_by(work, id, creator),
        None => Err(Stop::Rule(Rule::of_id(46, id))),
    }
}

/// Whether an account is the one that may act for an asset, which is nobody where it is zero.
pub fn controls(who: &Address, address: &Address) -> bool
    ensures { result ≡ controls who.now address.now }
{
    *address != NO_ADDRESS && *address == *who
}

/// Whether an account created an asset.
pub fn is_creator(who: &Address, creator: Option<Address>) -> bool
    ensures { result ≡ is_creator who.now creator }
{
    match creator {
        Some(creator) => creator == *who,
        None => false,
    }
}
