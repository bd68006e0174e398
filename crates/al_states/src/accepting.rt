//! What comes of posted bytes.
ghost use Rattle.std.specs.Prelude.{◌≡◌};
ghost use Rattle.al_states.specs.Accepting.{outer_fault, outer_refusal};

use al_base::Hash;
use al_block::BlockFault;
use al_eval::EvalRefusal;
use al_msgpack::DecodeFault;
use al_rows::Never;

/// A block that stands in the chain.
#[derive(Clone, Copy, Debug, PartialEq, Eq)]
pub struct Accepted {
    /// How many blocks are held.
    pub front: u64,
    /// The round of this one.
    pub round: u64,
}

/// Why posted bytes are refused. No fault or refusal inside says that there is no memory.
#[derive(Drop)]
pub enum AcceptRefusal {
    /// They spell no block.
    Undecodable(BlockFault),
    /// The block's round is neither held nor the next one.
    WrongRound {
        next: u64,
        front: u64,
    },
    /// Another block of its round is held, with this hash of its header.
    Fork {
        kept: Hash,
        front: u64,
    },
    /// It does not continue the last block, whose header has this hash.
    WrongPrev {
        kept: Hash,
        front: u64,
    },
    /// It breaks a rule, or its header is not what is due.
    Eval {
        refusal: EvalRefusal<Never>,
        front: u64,
    },
    /// There is no memory.
    Memory,
}

// The refusal of bytes that spell no block.
pub(crate) fn undecodable(fault: BlockFault) -> AcceptRefusal
    ensures { result ≡ outer_fault fault }
{
    match fault {
        BlockFault::Memory | BlockFault::Decode(DecodeFault::Memory) => AcceptRefusal::Memory,
        fault => AcceptRefusal::Undecodable(fault),
    }
}

// The refusal of a block that the step refuses.
pub(crate) fn unfit(front: u64, refusal: EvalRefusal<Never>) -> AcceptRefusal
    ensures { result ≡ outer_refusal front refusal }
{
    match refusal {
        EvalRefusal::Memory => AcceptRefusal::Memory,
        refusal => AcceptRefusal::Eval { refusal, front },
    }
}
