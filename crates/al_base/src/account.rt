//! The status of accounts, and the two special ones.
use crate::Address;

/// Whether an account takes part in agreement.
#[derive(Clone, Copy, Debug, PartialEq, Eq)]
pub enum Status {
    /// It earns rewards, and does not vote.
    Offline,
    /// It earns rewards, and votes with its keys.
    Online,
    /// It neither earns rewards nor votes.
    NotParticipating,
}

/// The two special accounts of a chain.
#[derive(Clone, Copy, Debug, PartialEq, Eq)]
pub struct Special {
    /// The fee sink, which every fee goes to.
    pub sink: Address,
    /// The rewards pool, which rewards come from.
    pub pool: Address,
}
