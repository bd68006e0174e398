//! What a transaction does, by its type.
ghost use Rattle.std.specs.Prelude.{IsTrue};
ghost use Rattle.al_msgpack.specs.Rising.{are_canonical};
ghost use Rattle.al_bodies.specs.Kept.{are_kept};

use al_base::{Address, AssetParams, Hash};
use al_msgpack::Entries;

/// A payment.
#[derive(Clone, Copy, Debug, PartialEq, Eq)]
pub struct Pay {
    /// Who receives the amount.
    pub receiver: Address,
    /// How many microAlgos move.
    pub amount: u64,
    /// Who receives the whole rest, which closes the sender's account; zero is nobody.
    pub close: Address,
}

/// A registration of keys, or of going offline.
#[derive(Clone, Copy, Debug, PartialEq, Eq)]
pub struct KeyReg {
    /// The voting key; zero where keys are not registered.
    pub vote: Hash,
    /// The selection key; zero where keys are not registered.
    pub selection: Hash,
    /// The state proof key; may be zero.
    pub sprf: [u8; 64],
    /// The first round that the keys vote in.
    pub first: u64,
    /// The last round that the keys vote in.
    pub last: u64,
    /// The dilution of the keys; zero where keys are not registered.
    pub dilution: u64,
    /// Whether the account takes part no more, for good.
    pub nonpart: bool,
}

/// An asset created, reconfigured or destroyed.
#[derive(Debug, Drop, PartialEq, Eq)]
pub struct Config {
    /// The asset; 0 to create one.
    pub asset: u64,
    /// Its parameters; all zero to destroy it.
    pub params: AssetParams,
}

/// Units of an asset that move.
#[derive(Clone, Copy, Debug, PartialEq, Eq)]
pub struct AssetMove {
    /// The asset.
    pub asset: u64,
    /// How many base units move.
    pub amount: u64,
    /// Whose units a clawback takes; zero for the sender's own.
    pub source: Address,
    /// Who receives the amount.
    pub receiver: Address,
    /// Who receives the whole rest, which closes the sender's holding; zero is nobody.
    pub close: Address,
}

/// A holding frozen, or no longer.
#[derive(Clone, Copy, Debug, PartialEq, Eq)]
pub struct Freeze {
    /// Whose holding.
    pub account: Address,
    /// Of which asset.
    pub asset: u64,
    /// Whether it is frozen from now on.
    pub frozen: bool,
}

/// A call of an application. What it does stands in the effects beside it.
#[derive(Debug, Drop)]
pub struct AppCall {
    /// The application; 0 to create one.
    pub app: u64,
    /// The other application fields, as they stand: with keys that rise at each level.
    pub rest: Entries,
    ghost kept: { IsTrue (are_kept rest) },
    ghost rising: { IsTrue (are_canonical rest) },
}

/// What a transaction does.
#[derive(Debug, Drop)]
pub enum Body {
    Pay(Pay),
    KeyReg(KeyReg),
    Config(Config),
    Move(AssetMove),
    Freeze(Freeze),
    App(AppCall),
}
