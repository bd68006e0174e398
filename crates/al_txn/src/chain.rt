//! What is fixed of a chain from its genesis on.
ghost use Rattle.std.specs.Prelude.{◌≡◌, ◌≤◌, ◌^◌, IfOk};

use al_base::{Bytes, Hash, Special};
use std::alloc::{AllocError, Global};

/// What is fixed of a chain from its genesis on.
#[derive(Debug, Drop)]
pub struct Chain {
    /// The fee sink and the rewards pool.
    pub special: Special,
    /// The genesis hash.
    pub hash: Hash,
    /// The chain's id, of any bytes.
    pub id: Bytes,
    /// How many rounds a reward rate lasts, from 1 to 2^62.
    pub interval: u64,
    /// Each round that is a multiple of this is a catchpoint's; 0 for none. At most 2^62.
    pub catch_interval: u64,
    ghost interval_some: { 1 ≤ interval },
    ghost interval_most: { interval ≤ 2 ^ 62 },
    ghost catch_interval_most: { catch_interval ≤ 2 ^ 62 },
}

impl Chain {
    /// An equal value.
    pub fn copy(&self, alloc: Global) -> Result<Chain, AllocError>
        ensures { IfOk result (λ c. c ≡ self.now) }
    {
        Ok(Chain {
            special: self.special,
            hash: self.hash,
            id: self.id.copy(alloc)?,
            interval: self.interval,
            catch_interval: self.catch_interval,
        })
    }
}
