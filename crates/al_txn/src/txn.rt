//! Transactions.
use crate::{Body, Effects};
use al_base::{Address, Bytes, Hash};

/// A transaction.
#[derive(Debug, Drop)]
pub struct Txn {
    /// Who sends it.
    pub sender: Address,
    /// The fee in microAlgos.
    pub fee: u64,
    /// The first round that it may stand in.
    pub first: u64,
    /// The last round that it may stand in.
    pub last: u64,
    /// The chain's id, or nothing.
    pub genesis_id: Bytes,
    /// The chain's genesis hash.
    pub genesis_hash: Hash,
    /// A note, of any bytes.
    pub note: Bytes,
    /// The lease; zero for none.
    pub lease: Hash,
    /// The new auth address; zero for no change.
    pub rekey: Address,
    /// The group; zero for none.
    pub group: Hash,
    /// What it does.
    pub body: Body,
}

/// An entry of a payset: a transaction, and the effects of a call.
#[derive(Debug, Drop)]
pub struct Item {
    pub txn: Txn,
    pub effects: Effects,
}

/// A list of entries.
pub type Items = sqlite_items::Items<Item>;
