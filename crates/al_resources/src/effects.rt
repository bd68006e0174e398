//! What a call of an application does, by the effects that stand beside it.
ghost use Rattle.std.specs.Prelude.{◌≡◌, All};
ghost use Rattle.al_bodies.specs.Ranges.{EffectInRange};
ghost use Rattle.al_moves.specs.Resources.{app_account};
ghost use Rattle.al_overlay.specs.Work.{DoesWhere, HasOneCreator};
ghost use Rattle.al_resources.specs.Effects.{EffectAsksOne, EffectsAskOne, InnerAsksOne, called, called_with, effect_done, effects_done, inner_done, inner_sent};

use crate::apps::{create, find_app, opt_in, opt_out, remove, set_local, set_state};
use crate::boxes::{put_box, remove_box};
use crate::transfers::transfer;
use al_base::Address;
use al_digest::{Prefix, digest};
use al_moves::{Stop, Work};
use al_rows::{AppParams, RowView};
use al_txn::{AppCall, Effect, Effects, Inner};
use std::alloc::Global;

// The account of an application.
#[tactic(auto, unfolding(al_base::specs::Keys::number_bytes))]
fn app_account(id: u64) -> Address
    ensures { result ≡ app_account id }
{
    Address(digest(Prefix::App, &id.to_be_bytes()))
}

// The body of a transaction of an application's own account, which pays no fee.
fn do_inner<V: RowView>(
    work: &mut Work<V>,
    who: &Address,
    inner: &Inner,
) -> Result<(), Stop<V::Fault>>
    ensures { DoesWhere V.tells (InnerAsksOne work.old.block inner.now) (inner_done work.old.level who.now inner.now work.old.now) work.old work.new result }
{
    match inner {
        Inner::Pay(pay) => work.pay(who, pay),
        Inner::Move(asset_move) => transfer(work, who, asset_move),
    }
}

// A payment or a transfer by the account of an application that is there.
#[tactic(auto, unfolding(crate::specs::Effects::inner_sent))]
fn send_inner<V: RowView>(work: &mut Work<V>, id: u64, inner: &Inner) -> Result<(), Stop<V::Fault>>
    ensures { DoesWhere V.tells (HasOneCreator work.old.block id × InnerAsksOne work.old.block inner.now) (inner_sent work.old.level id inner.now work.old.now) work.old work.new result }
{
    find_app(work, id)?;
    do_inner(work, &app_account(id), inner)
}

// What one effect of a call by a sender does to an application.
fn do_effect<V: RowView>(
    alloc: Global,
    work: &mut Work<V>,
    who: &Address,
    id: u64,
    effect: &Effect,
) -> Result<(), Stop<V::Fault>>
    requires { EffectInRange effect.now }
    ensures { DoesWhere V.tells (HasOneCreator work.old.block id × EffectAsksOne work.old.block effect.now) (effect_done work.old.level who.now id effect.now work.old.now) work.old work.new result }
{
    match effect {
        Effect::Create {
            global_uints,
            global_slices,
            local_uints,
            local_slices,
            extra_pages,
            state,
        } => {
            let params = AppParams {
                global_uints: *global_uints,
                global_slices: *global_slices,
                local_uints: *local_uints,
                local_slices: *local_slices,
                extra_pages: *extra_pages,
                state: state.copy(alloc)?,
            };
            create(work, who, id, params)
        }
        Effect::SetState { state } => set_state(alloc, work, id, state),
        Effect::Remove => remove(work, id),
        Effect::OptIn { state } => opt_in(alloc, work, who, id, state),
        Effect::SetLocal { who: whose, state } => set_local(alloc, work, whose, id, state),
        Effect::OptOut => opt_out(work, who, id),
        Effect::PutBox { name, value } => put_box(alloc, work, id, name, value),
        Effect::RemoveBox { name } => remove_box(work, id, name),
        Effect::Inner(inner) => send_inner(work, id, inner),
    }
}

// Effects one after another.
fn do_effects<V: RowView>(
    alloc: Global,
    work: &mut Work<V>,
    who: &Address,
    id: u64,
    effects: &[Effect],
) -> Result<(), Stop<V::Fault>>
    requires { All EffectInRange effects.now }
    ensures { DoesWhere V.tells (EffectsAskOne work.old.block id effects.now) (effects_done work.old.level who.now id effects.now work.old.now) work.old work.new result }
{
    for effect in effects {
        do_effect(alloc, work, who, id, effect)?;
    }
    Ok(())
}

// The application of a call: the one that it names, or the one that it creates.
fn called(call: &AppCall, next: u64) -> u64
    ensures { result ≡ called call.now next }
{
    if call.app == 0 { next } else { call.app }
}

/// The body of a call of an application by `who`: its effects, in order. Each is on the application
/// `call.app`, or, where that is 0, on the one that effect 1 creates, which has the number `next`:
///
/// - 1 creates it: the sender gets the parameters.
/// - 2 sets its global state.
/// - 3 removes its parameters from the creator, whoever sends the call.
/// - 4 opts the sender in: it gets a local state with the local schema of the parameters.
/// - 5 sets the local state of an account that has one.
/// - 6 takes the sender's local state away, also where there are no parameters any more.
/// - 7 puts a box, in place of one of that name.
/// - 8 takes a box away.
/// - 9 is a payment or a transfer by the account of the application, as the body of such a
///   transaction.
///
/// The counts of accounts follow their rows. No fee is taken, and minimum balances are not looked at.
///
/// The effects are in the ranges of their records: schema numbers of at most 64, at most 3 extra
/// pages, states of at most 8,192 bytes, and values of boxes of at most 32,768.
///
/// What the call does, and which rule refuses it, is said where before the block at most one address
/// had the parameters of the application, and so of the asset of each transfer, as in every sound
/// state, and the view tells its rows.
///
/// Rules, with what each keeps:
/// - 60, the id: there is no such application, at each effect but 1 and 6.
/// - 61, nothing: the sender has a local state already, at effect 4.
/// - 62, the account: it has no local state, at effects 5 and 6.
/// - 63, nothing: there is no such box, at effect 8.
/// - 65, the account: one of its counts would pass 2^40.
/// - 40, 41 and 43 as in a payment, and 46 and 49 to 54 as in a transfer of units, at effect 9.
///
/// A failed view and want of memory are passed on. After a stop the work is of no more use.
#[tactic(auto, unfolding(crate::specs::Effects::called_with))]
pub fn apply_effects<V: RowView>(
    alloc: Global,
    work: &mut Work<V>,
    who: &Address,
    call: &AppCall,
    effects: &Effects,
    next: u64,
) -> Result<(), Stop<V::Fault>>
    requires { All EffectInRange effects.now }
    ensures { DoesWhere V.tells (EffectsAskOne work.old.block (called call.now next) effects.now) (called_with work.old.level who.now call.now effects.now next work.old.now) work.old work.new result }
{
    do_effects(alloc, work, who, called(call, next), effects.as_slice())
}
