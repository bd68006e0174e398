// Calls of an application over a work.
ghost use Rattle.std.specs.Prelude.{◌≡◌, ◌≤◌, All, IfOk, length};
ghost use Rattle.al_bodies.specs.Ranges.{EffectInRange};

use al_base::{Address, BoxName, Bytes};
use al_moves::{Rule, Stop, Work};
use al_msgpack::Entries;
use al_resources::apply_effects;
use al_rows::MapView;
use al_txn::{AppCall, AssetMove, Effect, Effects, Inner, Pay};
use std::alloc::{AllocError, Global};
use std::test::*;

/// The application of the tests.
pub(crate) const APP: u64 = 7;

/// An asset, which account 6 created.
pub(crate) const ASSET: u64 = 9;

/// The account of application 7: the SHA-512/256 of `appID` and the number in 8 bytes.
pub(crate) const APP_ACCOUNT: Address = Address([
    0x7c, 0x38, 0xd0, 0xb0, 0x6b, 0x89, 0x2b, 0x58, 0xd2, 0x14, 0x2d, 0xfe, 0x22, 0x92, 0x93, 0x51,
    0x02, 0x22, 0x25, 0xd0, 0xee, 0x22, 0x41, 0x7a, 0x59, 0x07, 0x09, 0x85, 0x38, 0xaa, 0x3b, 0xb5,
]);

pub(crate) const NOBODY: Address = Address([0; 32]);

/// An effect. Accounts are named by their byte, and states are of one byte.
#[derive(Clone, Copy)]
pub(crate) enum Step {
    /// Creates the application, with a global state.
    Create(u8),
    /// Sets the global state.
    Set(u8),
    Remove,
    /// The sender opts in, with a local state.
    OptIn(u8),
    /// Sets the local state of an account.
    SetLocal(u8, u8),
    OptOut,
    /// Puts the box with a value of so many bytes.
    Put(usize),
    /// Takes the box away.
    Take,
    /// The account of the application pays an account so many microAlgos.
    Pay(u8, u64),
    /// It sends an account so many units of the asset.
    Send(u8, u64),
    /// It opts in to the asset.
    Hold,
}

/// How a call ends: well, or by the rule with this number.
#[derive(Clone, Copy)]
pub(crate) enum End {
    Done,
    /// The rule keeps nothing.
    Plain(u64),
    /// The rule keeps an id.
    OfId(u64, u64),
    /// The rule keeps an account.
    OfAccount(u64, u8),
    /// The rule keeps the account of the application.
    OfApp(u64),
    /// Rule 40: the account of the application has so much, and needs so much.
    Lacks(u64, u64),
}

/// A state of one byte.
pub(crate) fn state(alloc: Global, byte: u8) -> Result<Bytes, AllocError>
    ensures { IfOk result (λ b. length b ≡ 1) }
{
    Bytes::of(alloc, &[byte])
}

/// The value of the box, of at most 100 bytes.
pub(crate) fn value(alloc: Global, len: usize) -> Result<Bytes, AllocError>
    ensures { IfOk result (λ b. length b ≤ 100) }
{
    let bytes = [77; 100];
    Bytes::of(alloc, &bytes[..len.min(100)])
}

/// The name of the box, of 10 bytes.
pub(crate) fn name() -> Result<BoxName, Fail> {
    Ok(BoxName::new(b"ten-letter").ok_or("a name")?)
}

// The creation of an application with 1 number and 2 byte slices of its own, 3 and 4 for each
// account, and 2 extra pages.
fn creation(state: Bytes) -> Effect
    requires { length state ≤ 8192 }
    ensures { EffectInRange result }
{
    Effect::Create {
        global_uints: 1,
        global_slices: 2,
        local_uints: 3,
        local_slices: 4,
        extra_pages: 2,
        state,
    }
}

fn payment(to: u8, amount: u64) -> Effect
    ensures { EffectInRange result }
{
    Effect::Inner(Inner::Pay(Pay {
        receiver: Address([to; 32]),
        amount,
        close: NOBODY,
    }))
}

fn moved(receiver: Address, amount: u64) -> Effect
    ensures { EffectInRange result }
{
    Effect::Inner(Inner::Move(AssetMove {
        asset: ASSET,
        amount,
        source: NOBODY,
        receiver,
        close: NOBODY,
    }))
}

fn effect(alloc: Global, step: Step) -> Result<Effect, Fail>
    ensures { IfOk result (λ e. EffectInRange e) }
{
    match step {
        Step::Create(byte) => Ok(creation(state(alloc, byte)?)),
        Step::Set(byte) => Ok(Effect::SetState {
            state: state(alloc, byte)?,
        }),
        Step::Remove => Ok(Effect::Remove),
        Step::OptIn(byte) => Ok(Effect::OptIn {
            state: state(alloc, byte)?,
        }),
        Step::SetLocal(who, byte) => Ok(Effect::SetLocal {
            who: Address([who; 32]),
            state: state(alloc, byte)?,
        }),
        Step::OptOut => Ok(Effect::OptOut),
        Step::Put(len) => Ok(Effect::PutBox {
            name: name()?,
            value: value(alloc, len)?,
        }),
        Step::Take => Ok(Effect::RemoveBox { name: name()? }),
        Step::Pay(to, amount) => Ok(payment(to, amount)),
        Step::Send(to, amount) => Ok(moved(Address([to; 32]), amount)),
        Step::Hold => Ok(moved(APP_ACCOUNT, 0)),
    }
}

fn effects_of(alloc: Global, steps: &[Step]) -> Result<Effects, Fail>
    ensures { IfOk result (λ es. All EffectInRange es) }
{
    let mut effects = Effects::new(alloc);
    for step in steps {
        effects.push(effect(alloc, *step)?)?;
    }
    Ok(effects)
}

/// The rule that a call of an account breaks. It is on an application, or, where that is 0, on the
/// one that it creates, which has number 7.
pub(crate) fn call(
    alloc: Global,
    work: &mut Work<MapView>,
    who: u8,
    app: u64,
    steps: &[Step],
) -> Result<Option<Rule>, Fail> {
    let next = if app == 0 { APP } else { 1_000 };
    let call = AppCall {
        app,
        rest: Entries::new(alloc),
    };
    let effects = effects_of(alloc, steps)?;
    match apply_effects(alloc, work, &Address([who; 32]), &call, &effects, next) {
        Ok(()) => Ok(None),
        Err(Stop::Rule(rule)) => Ok(Some(rule)),
        Err(_) => Err(Fail::from("another stop")),
    }
}

/// The rule of an end.
pub(crate) fn rule_of(end: End) -> Option<Rule> {
    match end {
        End::Done => None,
        End::Plain(number) => Some(Rule::plain(number)),
        End::OfId(number, id) => Some(Rule::of_id(number, id)),
        End::OfAccount(number, who) => Some(Rule::of_account(number, &Address([who; 32]))),
        End::OfApp(number) => Some(Rule::of_account(number, &APP_ACCOUNT)),
        End::Lacks(has, needs) => Some(Rule::too_little(40, has, needs, &APP_ACCOUNT)),
    }
}
