//! Why a ledger is not opened.
use al_base::Hash;

/// Why keepers open no ledger, over the faults of the keeper of the tables and of the blocks.
#[derive(Drop)]
pub enum StartRefusal<F, G> {
    /// The keeper of the tables has failed.
    Tables(F),
    /// The keeper of the blocks has failed.
    Blocks(G),
    /// Blocks are missing between the tables and the chain: the tables' round, and the first and the
    /// last kept block.
    Gap {
        tables: Option<u64>,
        first: Option<u64>,
        last: Option<u64>,
    },
    /// The kept block of this round spells none, has another round, or does not apply.
    BadBlock {
        round: u64,
    },
    /// The first kept block that is read is of a chain with this genesis hash, which is not the
    /// genesis's.
    OtherGenesis {
        kept: Hash,
    },
    /// The accounts of the tables have more than 10^16 microAlgos together.
    Total {
        counted: u128,
    },
    /// There is no memory.
    Memory,
}
