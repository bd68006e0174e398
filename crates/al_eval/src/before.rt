//! What a step begins with, and what it answers.
use al_base::Hash;
use al_block::{Field, Header};
use al_moves::Rule;
use al_rewards::Totals;
use al_txn::Chain;

/// What a step knows of the state before, beside its rows and transactions.
#[derive(Debug, Drop)]
pub struct Before {
    /// What is fixed of the chain.
    pub chain: Chain,
    /// The header of the last block.
    pub header: Header,
    /// The hash of that header.
    pub hash: Hash,
    /// The money and units of all accounts after that block.
    pub totals: Totals,
}

/// Why a block is refused, or could not be judged.
#[derive(Drop)]
pub enum EvalRefusal<F> {
    /// The transaction at a place, counted from 0, breaks a rule.
    Broken { place: usize, rule: Rule },
    /// A header field is not what is due.
    Header { field: Field },
    /// The pool would keep less than 100,000 microAlgos if it paid what is owed.
    PoolShort { pool: u64, owed: u128 },
    /// The account at a place of the list of those expired, counted from 0, is not online, or its
    /// last round is 0 or not below the block's.
    Expired { place: usize },
    /// The view has failed.
    View(F),
    /// There is no memory.
    Memory,
}
