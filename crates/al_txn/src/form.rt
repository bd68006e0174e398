//! The rules on a transaction's form, which need nothing but its entry of the payset and its chain.
ghost use Rattle.std.specs.Prelude.{◌≡◌, ◌+◌, nat_lt};
ghost use Rattle.std.specs.List.{list_any};
ghost use Rattle.al_txn.specs.Form.{all_keys, body_tests, call_tests, common_tests, creates, first_broken, form_fault, freeze_tests, is_barred, is_given, is_ill_inner, is_misplaced, keyreg_tests, move_tests, config_tests, no_keys, number_in};

use crate::{AssetMove, Body, Chain, Config, Effect, Freeze, Inner, Item, KeyReg, Txn};
use al_base::Address;

const NO_ADDRESS: Address = Address([0; 32]);

/// The first form rule that an entry breaks.
#[derive(Clone, Copy, Debug, PartialEq, Eq)]
pub struct Ill {
    /// Its number.
    pub number: u64,
}

/// Whether an entry keeps the form rules 1 to 24, its effects among them; else the first that it
/// breaks. The rules on a transaction follow the Algorand ledger specification.
pub fn well_formed(item: &Item, chain: &Chain) -> Result<(), Ill>
    ensures { number_in result ≡ form_fault item.now chain.now }
{
    if let Some(number) = common_fault(&item.txn, chain) {
        return Err(Ill { number });
    }
    if let Some(number) = body_fault(item) {
        return Err(Ill { number });
    }
    Ok(())
}

// The first broken rule of those that all transactions have.
#[tactic(auto, unfolding(crate::specs::Form::common_tests))]
fn common_fault(txn: &Txn, chain: &Chain) -> Option<u64>
    ensures { result ≡ first_broken (common_tests txn.now chain.now) }
{
    if txn.sender == NO_ADDRESS {
        return Some(1);
    }
    if txn.sender == chain.special.pool {
        return Some(2);
    }
    if txn.first > txn.last {
        return Some(3);
    }
    if txn.last - txn.first > 1_000 {
        return Some(4);
    }
    if txn.note.len() > 1_024 {
        return Some(5);
    }
    if txn.genesis_hash != chain.hash {
        return Some(6);
    }
    if txn.genesis_id.len() != 0 && txn.genesis_id != chain.id {
        return Some(7);
    }
    if txn.sender == chain.special.sink && is_barred(&chain.special.pool, &txn.body) {
        return Some(8);
    }
    None
}

// Whether the fee sink may not do this.
fn is_barred(pool: &Address, body: &Body) -> bool
    ensures { result ≡ is_barred pool.now body.now }
{
    match body {
        Body::KeyReg(_) => true,
        Body::Pay(p) => p.receiver != *pool || is_given(&p.close),
        Body::Config(_) | Body::Move(_) | Body::Freeze(_) | Body::App(_) => false,
    }
}

// Whether an address is given: it is not zero.
fn is_given(who: &Address) -> bool
    ensures { result ≡ is_given who.now }
{
    *who != NO_ADDRESS
}

// The first broken rule of those of the body and of the effects beside it.
#[tactic(auto, unfolding(crate::specs::Form::body_tests))]
fn body_fault(item: &Item) -> Option<u64>
    ensures { result ≡ first_broken (body_tests item.now) }
{
    match &item.txn.body {
        Body::Pay(p) => {
            if p.close == item.txn.sender {
                Some(9)
            } else {
                None
            }
        }
        Body::KeyReg(k) => keyreg_fault(k, item.txn.last),
        Body::Config(c) => config_fault(c),
        Body::Move(m) => move_fault(m),
        Body::Freeze(f) => freeze_fault(f),
        Body::App(a) => call_fault(a.app, item.effects.as_slice()),
    }
}

// Whether no key is given.
fn no_keys(k: &KeyReg) -> bool
    ensures { result ≡ no_keys k.now }
{
    k.vote == [0; 32] && k.selection == [0; 32] && k.dilution == 0
}

// Whether all keys are given.
fn all_keys(k: &KeyReg) -> bool
    ensures { result ≡ all_keys k.now }
{
    k.vote != [0; 32] && k.selection != [0; 32] && k.dilution != 0
}

// Whether a round is more than one above another.
fn is_past_next(round: u64, last: u64) -> bool
    ensures { result ≡ nat_lt (last + 1) round }
{
    match last.checked_add(1) {
        Some(next) => next < round,
        None => false,
    }
}

// The first broken rule of a key registration that is valid up to a round.
#[tactic(auto, unfolding(crate::specs::Form::keyreg_tests))]
fn keyreg_fault(k: &KeyReg, last: u64) -> Option<u64>
    ensures { result ≡ first_broken (keyreg_tests k.now last) }
{
    let without = no_keys(k);
    let with = all_keys(k);
    if k.first > k.last || k.last - k.first > 16_777_215 {
        return Some(10);
    }
    if !(without || with) {
        return Some(11);
    }
    if without && (k.first != 0 || k.last != 0 || k.sprf != [0; 64]) {
        return Some(12);
    }
    if with && k.nonpart {
        return Some(13);
    }
    if with && is_past_next(k.first, last) {
        return Some(14);
    }
    None
}

// The first broken rule of a configuration of an asset.
#[tactic(auto, unfolding(crate::specs::Form::config_tests))]
fn config_fault(c: &Config) -> Option<u64>
    ensures { result ≡ first_broken (config_tests c.now) }
{
    if c.params.decimals > 19 {
        return Some(17);
    }
    if c.params.unit.len() > 8 {
        return Some(18);
    }
    if c.params.name.len() > 32 {
        return Some(19);
    }
    if c.params.url.len() > 96 {
        return Some(20);
    }
    None
}

// The first broken rule of a transfer of an asset.
#[tactic(auto, unfolding(crate::specs::Form::move_tests))]
fn move_fault(m: &AssetMove) -> Option<u64>
    ensures { result ≡ first_broken (move_tests m.now) }
{
    if m.asset == 0 {
        return Some(15);
    }
    if is_given(&m.source) && is_given(&m.close) {
        return Some(16);
    }
    None
}

// The first broken rule of a freeze.
#[tactic(auto, unfolding(crate::specs::Form::freeze_tests))]
fn freeze_fault(f: &Freeze) -> Option<u64>
    ensures { result ≡ first_broken (freeze_tests f.now) }
{
    if f.asset == 0 {
        return Some(21);
    }
    if !is_given(&f.account) {
        return Some(22);
    }
    None
}

// Whether an effect creates an application.
fn creates(effect: &Effect) -> bool
    ensures { result ≡ creates effect.now }
{
    match effect {
        Effect::Create { .. } => true,
        _ => false,
    }
}

// Whether one of some effects creates an application.
fn any_creates(effects: &[Effect]) -> bool
    ensures { result ≡ list_any creates effects.now }
{
    effects.iter().any(|effect| creates(effect))
}

// Of a call of this application, 0 for none: whether an effect that creates one stands behind the
// first, or where one is called; or none is called, and the first creates none.
fn is_misplaced(app: u64, effects: &[Effect]) -> bool
    ensures { result ≡ is_misplaced app effects.now }
{
    let Some((first, rest)) = effects.split_first() else {
        return false;
    };
    let starts = creates(first);
    any_creates(rest) || (starts && app != 0) || (app == 0 && !starts)
}

// Whether an effect is an inner transaction that breaks a rule of a transfer.
fn is_ill_inner(effect: &Effect) -> bool
    ensures { result ≡ is_ill_inner effect.now }
{
    match effect {
        Effect::Inner(Inner::Move(m)) => move_fault(m).is_some(),
        _ => false,
    }
}

// Whether one of some effects is such an inner transaction.
fn any_ill_inner(effects: &[Effect]) -> bool
    ensures { result ≡ list_any is_ill_inner effects.now }
{
    effects.iter().any(|effect| is_ill_inner(effect))
}

// The first broken rule of a call of this application, 0 for none, and of its effects.
#[tactic(auto, unfolding(crate::specs::Form::call_tests))]
fn call_fault(app: u64, effects: &[Effect]) -> Option<u64>
    ensures { result ≡ first_broken (call_tests app effects.now) }
{
    if is_misplaced(app, effects) {
        return Some(23);
    }
    if any_ill_inner(effects) {
        return Some(24);
    }
    None
}
