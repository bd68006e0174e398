//! The numbers of a block, which have 64 bits.
ghost use Rattle.std.specs.Prelude.{◌<◌, ◌^◌, All, Some};
ghost use Rattle.al_rows.specs.Rows.{AssetParamsInRange};
ghost use Rattle.al_bodies.specs.Ranges.{EffectInRange};
ghost use Rattle.al_eval.specs.Body.{IsItemInRange, IsNumbered};

use al_base::AssetParams;
use al_txn::{Body, Item};

// A number has 64 bits. It does nothing when it runs.
fn number_fits(_n: u64)
    ensures { _n < 2 ^ 64 }
{}

// The numbers of parameters have 64 bits.
fn params_fit(params: &AssetParams)
    ensures { AssetParamsInRange (Some params.now) }
{
    number_fits(params.total);
    number_fits(params.decimals);
}

// The numbers of what a body creates have 64 bits.
fn body_fits(body: &Body)
    ensures { IsNumbered body.now }
{
    match body {
        Body::Config(config) => params_fit(&config.params),
        Body::Pay(_) | Body::KeyReg(_) | Body::Move(_) | Body::Freeze(_) | Body::App(_) => {}
    }
}

/// The numbers of what each transaction creates have 64 bits, as every number does, beside effects
/// in the ranges of their records.
pub fn numbers_fit(items: &[Item])
    requires { All (λ i. All EffectInRange i.effects) items.now }
    ensures { All IsItemInRange items.now }
{
    for item in items {
        body_fits(&item.txn.body);
    }
}
