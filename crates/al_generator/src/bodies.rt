//! What the transactions do, in full.
ghost use Rattle.std.specs.Prelude.{◌≡◌, ◌≤◌, ◌^◌, ◌∷◌, [], IfOk};
ghost use Rattle.al_generator.specs.Items.{asset_of, body_of, box_name, call, effects_of, offline, online, opt_in, payment};

use crate::turns::{Action, Made};
use al_base::{Address, AssetParams, BoxName, Bytes};
use al_bodies::{AppCall, AssetMove, Body, Config, Effect, Effects, KeyReg, Pay};
use al_msgpack::Entries;
use std::alloc::{AllocError, Global};

const NO_ADDRESS: Address = Address([0; 32]);

// A payment.
fn payment(receiver: Address, amount: u64) -> Pay
    ensures { result ≡ payment receiver amount }
{
    Pay {
        receiver,
        amount,
        close: NO_ADDRESS,
    }
}

/// No bytes.
pub(crate) fn nothing(alloc: Global) -> Bytes
    ensures { result ≡ [] }
{
    Bytes::from_vec(Vec::new(alloc))
}

// A new asset.
fn asset_of(alloc: Global, manager: Address) -> AssetParams
    ensures { result ≡ asset_of manager }
{
    AssetParams {
        total: 1_000_000,
        decimals: 0,
        default_frozen: false,
        unit: nothing(alloc),
        name: nothing(alloc),
        url: nothing(alloc),
        meta: [0; 32],
        manager,
        reserve: NO_ADDRESS,
        freeze: NO_ADDRESS,
        clawback: NO_ADDRESS,
    }
}

// A transfer of nothing to its sender.
fn opt_in(who: Address, asset: u64) -> AssetMove
    ensures { result ≡ opt_in who asset }
{
    AssetMove {
        asset,
        amount: 0,
        source: NO_ADDRESS,
        receiver: who,
        close: NO_ADDRESS,
    }
}

// A registration of keys from a round on.
fn online(round: u64) -> KeyReg
    requires { round ≤ 2 ^ 62 }
    ensures { result ≡ online round }
{
    KeyReg {
        vote: [7; 32],
        selection: [8; 32],
        sprf: [0; 64],
        first: round,
        last: round + 1_000,
        dilution: 1_000,
        nonpart: false,
    }
}

// A registration of no keys.
fn offline() -> KeyReg
    ensures { result ≡ offline }
{
    KeyReg {
        vote: [0; 32],
        selection: [0; 32],
        sprf: [0; 64],
        first: 0,
        last: 0,
        dilution: 0,
        nonpart: false,
    }
}

// A call of an application, 0 to create one.
fn call(alloc: Global, app: u64) -> AppCall
    ensures { result ≡ call app }
{
    AppCall {
        app,
        rest: Entries::new(alloc),
    }
}

/// What a transaction of a round does.
pub(crate) fn body_of(alloc: Global, round: u64, made: &Made) -> Body
    requires { round ≤ 2 ^ 62 }
    ensures { result ≡ body_of round made.now.sender made.now.action }
{
    match made.action {
        Action::Pay { receiver, amount } => Body::Pay(payment(receiver, amount)),
        Action::CreateAsset => Body::Config(Config {
            asset: 0,
            params: asset_of(alloc, made.sender),
        }),
        Action::OptIn { asset } => Body::Move(opt_in(made.sender, asset)),
        Action::GoOnline => Body::KeyReg(online(round)),
        Action::GoOffline => Body::KeyReg(offline()),
        Action::CreateApp => Body::App(call(alloc, 0)),
        Action::PutBox { app, name: _ } => Body::App(call(alloc, app)),
    }
}

// A number as the name of a box.
#[tactic(auto, unfolding(al_base::specs::Keys::number_bytes))]
fn box_name(number: u64) -> BoxName
    ensures { result ≡ box_name number }
{
    match BoxName::new(&number.to_be_bytes()) {
        Some(name) => name,
        None => unreachable!(),
    }
}

// The effects of a call that does one thing.
fn one(alloc: Global, effect: Effect) -> Result<Effects, AllocError>
    ensures { IfOk result (λ effects. effects ≡ effect ∷ []) }
{
    let mut effects = Effects::new(alloc);
    effects.push(effect)?;
    Ok(effects)
}

/// What the call of an application does.
pub(crate) fn effects_of(alloc: Global, action: Action) -> Result<Effects, AllocError>
    ensures { IfOk result (λ effects. effects ≡ effects_of action) }
{
    match action {
        Action::CreateApp => one(
            alloc,
            Effect::Create {
                global_uints: 0,
                global_slices: 0,
                local_uints: 0,
                local_slices: 0,
                extra_pages: 0,
                state: nothing(alloc),
            },
        ),
        Action::PutBox { app: _, name } => {
            let value = Bytes::of(alloc, &[42; 32])?;
            let name = box_name(name);
            one(alloc, Effect::PutBox { name, value })
        }
        _ => Ok(Effects::new(alloc)),
    }
}
