//! What comes of posted bytes.
ghost use Rattle.std.specs.Prelude.{◌≡◌};
ghost use Rattle.al_ledger.specs.Accepting.{outer_fault, outer_refusal};

use al_base::Hash;
use al_block::BlockFault;
use al_eval::EvalRefusal;
use al_msgpack::DecodeFault;
use al_rows::Never;

/// A block that stands in the chain.
#[derive(Clone, Copy, Debug, PartialEq, Eq)]
pub struct Accepted {
    /// The last round.
    pub front: u64,
    /// The round of this block.
    pub round: u64,
}

/// Why posted bytes are refused, over the faults of the keepers of the tables and of the blocks. No
/// fault or refusal inside says that there is no memory.
#[derive(Drop)]
pub enum AcceptRefusal<F, G> {
    /// They spell no block.
    Undecodable(BlockFault),
    /// The block's round is neither kept nor the next one.
    WrongRound {
        next: u64,
        front: u64,
    },
    /// Another block of its round is kept, with this hash of its header.
    Fork {
        kept: Hash,
        front: u64,
    },
    /// It does not continue the last block, whose header has this hash.
    WrongPrev {
        kept: Hash,
        front: u64,
    },
    /// It breaks a rule, or its header is not what is due.
    Eval {
        refusal: EvalRefusal<Never>,
        front: u64,
    },
    /// The keeper of the tables has failed.
    Keeper {
        fault: F,
        front: u64,
    },
    /// The keeper of the blocks has failed.
    Blocks {
        fault: G,
        front: u64,
    },
    /// There is no memory.
    Memory,
}

// The refusal of bytes that spell no block.
pub(crate) fn undecodable<F, G>(fault: BlockFault) -> AcceptRefusal<F, G>
    ensures { result ≡ outer_fault fault }
{
    match fault {
        BlockFault::Memory | BlockFault::Decode(DecodeFault::Memory) => AcceptRefusal::Memory,
        fault => AcceptRefusal::Undecodable(fault),
    }
}

// The refusal of a block by the step.
pub(crate) fn unfit<F, G>(front: u64, refusal: EvalRefusal<F>) -> AcceptRefusal<F, G>
    ensures { result ≡ outer_refusal front refusal }
{
    let refusal = match refusal {
        EvalRefusal::Memory => return AcceptRefusal::Memory,
        EvalRefusal::View(fault) => return AcceptRefusal::Keeper { fault, front },
        EvalRefusal::Broken { place, rule } => EvalRefusal::Broken { place, rule },
        EvalRefusal::Header { field } => EvalRefusal::Header { field },
        EvalRefusal::PoolShort { pool, owed } => EvalRefusal::PoolShort { pool, owed },
        EvalRefusal::Expired { place } => EvalRefusal::Expired { place },
    };
    AcceptRefusal::Eval { refusal, front }
}
