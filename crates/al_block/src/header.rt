//! The header of a block.
ghost use Rattle.std.specs.Prelude.{◌≡◌, IfOk};

use al_base::{Address, Addresses, Hash};
use std::alloc::{AllocError, Global};

/// The header of a block.
#[derive(Debug, Drop)]
pub struct Header {
    /// The round, at most 2^62.
    pub round: u64,
    /// The hash of the block before.
    pub prev: Hash,
    /// The time, in seconds.
    pub ts: u64,
    /// The genesis hash of the chain.
    pub genesis_hash: Hash,
    /// The fee sink.
    pub sink: Address,
    /// The rewards pool.
    pub pool: Address,
    /// The reward level: microAlgos that a unit has earned since the genesis.
    pub level: u64,
    /// The reward rate: microAlgos of a round for all units.
    pub rate: u64,
    /// What is left over of earlier rates, in microAlgos.
    pub residue: u64,
    /// The round at which the rate is computed anew.
    pub recalc: u64,
    /// How many transactions the chain has, inner ones included; at most 2^62.
    pub counter: u64,
    /// The digest of the payset.
    pub payset: Hash,
    /// The accounts whose keys have expired.
    pub expired: Addresses,
}

impl Header {
    /// An equal header.
    pub fn copy(&self, alloc: Global) -> Result<Header, AllocError>
        ensures { IfOk result (λ h. h ≡ self.now) }
    {
        Ok(Header {
            round: self.round,
            prev: self.prev,
            ts: self.ts,
            genesis_hash: self.genesis_hash,
            sink: self.sink,
            pool: self.pool,
            level: self.level,
            rate: self.rate,
            residue: self.residue,
            recalc: self.recalc,
            counter: self.counter,
            payset: self.payset,
            expired: self.expired.copy(alloc)?,
        })
    }
}

/// A field of a header.
#[derive(Clone, Copy, Debug, PartialEq, Eq)]
pub enum Field {
    Rnd,
    Prev,
    Gh,
    Ts,
    Fees,
    Rwd,
    Rate,
    Rwcalr,
    Frac,
    Earn,
    Txn,
    Tc,
}
