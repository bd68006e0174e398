//! The objects of assets and applications.
ghost use Rattle.std.specs.Prelude.{◌≡◌, IfOk};
ghost use Rattle.serde_json.specs.View.{members_view};
ghost use Rattle.al_answers.specs.Json.{fields, members_of};
ghost use Rattle.al_answers.specs.Objects.{app_of, app_params_of, asset_of, asset_params_of, holding_of, local_of};

use crate::objects::{Members, Shown, put_nested, table};
use al_base::AssetParams;
use al_rows::{AppParams, AppRow, AssetRow, Holding, Local};
use serde_json::Map;
use std::alloc::{AllocError, Global};

fn held(alloc: Global, h: &Holding) -> Result<Members, AllocError>
    ensures { IfOk result (λ m. members_view m.entries ≡ members_of (fields (holding_of h.now))) }
{
    let lines = [
        ("amount", Shown::Whole(h.amount)),
        ("frozen", Shown::Flag(h.frozen)),
    ];
    table(alloc, &lines)
}

fn asset_params(alloc: Global, p: &AssetParams) -> Result<Members, AllocError>
    ensures { IfOk result (λ m. members_view m.entries ≡ members_of (fields (asset_params_of p.now))) }
{
    let lines = [
        ("clawback", Shown::UnlessNobody(&p.clawback)),
        ("decimals", Shown::UnlessZero(p.decimals)),
        ("default_frozen", Shown::UnlessFalse(p.default_frozen)),
        ("freeze", Shown::UnlessNobody(&p.freeze)),
        ("manager", Shown::UnlessNobody(&p.manager)),
        ("meta", Shown::UnlessAllZero(&p.meta)),
        ("name", Shown::UnlessEmpty(&p.name)),
        ("reserve", Shown::UnlessNobody(&p.reserve)),
        ("total", Shown::UnlessZero(p.total)),
        ("unit", Shown::UnlessEmpty(&p.unit)),
        ("url", Shown::UnlessEmpty(&p.url)),
    ];
    table(alloc, &lines)
}

/// The object of what an account has of an asset.
pub(crate) fn asset(alloc: Global, row: &AssetRow) -> Result<Members, AllocError>
    ensures { IfOk result (λ m. members_view m.entries ≡ members_of (fields (asset_of row.now))) }
{
    let mut map = Map::new(alloc);
    if let Some(h) = &row.holding {
        put_nested(alloc, &mut map, "holding", held(alloc, h)?)?;
    }
    if let Some(p) = &row.params {
        put_nested(alloc, &mut map, "params", asset_params(alloc, p)?)?;
    }
    Ok(map)
}

fn local_state(alloc: Global, l: &Local) -> Result<Members, AllocError>
    ensures { IfOk result (λ m. members_view m.entries ≡ members_of (fields (local_of l.now))) }
{
    let lines = [
        ("slices", Shown::UnlessZero(l.slices)),
        ("state", Shown::UnlessEmpty(&l.state)),
        ("uints", Shown::UnlessZero(l.uints)),
    ];
    table(alloc, &lines)
}

fn app_params(alloc: Global, p: &AppParams) -> Result<Members, AllocError>
    ensures { IfOk result (λ m. members_view m.entries ≡ members_of (fields (app_params_of p.now))) }
{
    let lines = [
        ("extra_pages", Shown::UnlessZero(p.extra_pages)),
        ("global_slices", Shown::UnlessZero(p.global_slices)),
        ("global_uints", Shown::UnlessZero(p.global_uints)),
        ("local_slices", Shown::UnlessZero(p.local_slices)),
        ("local_uints", Shown::UnlessZero(p.local_uints)),
        ("state", Shown::UnlessEmpty(&p.state)),
    ];
    table(alloc, &lines)
}

/// The object of what an account has of an application.
pub(crate) fn app(alloc: Global, row: &AppRow) -> Result<Members, AllocError>
    ensures { IfOk result (λ m. members_view m.entries ≡ members_of (fields (app_of row.now))) }
{
    let mut map = Map::new(alloc);
    if let Some(l) = &row.local {
        put_nested(alloc, &mut map, "local", local_state(alloc, l)?)?;
    }
    if let Some(p) = &row.params {
        put_nested(alloc, &mut map, "params", app_params(alloc, p)?)?;
    }
    Ok(map)
}
