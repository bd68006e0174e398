//! A block that is posted once more.
ghost use Rattle.std.specs.Prelude.{◌≡◌, ◌≤◌, ◌<◌, ◌^◌, suc, None, IfOk, length};
ghost use Rattle.al_ledger.specs.Accepting.{HasBlocksCause};
ghost use Rattle.al_ledger.specs.Repeating.{Compares, ForkedBy, Forks, IsOfForm, IsReadAs};

use crate::{AcceptRefusal, Accepted};
use al_block::{Block, BlockFault, decode_block, header_hash};
use al_keeper::{BlockKeeper, Counted, Fault, KeepRefusal};
use std::alloc::{AllocError, Global};

// The refusal of a block whose round is neither kept nor the next one.
pub(crate) fn outside<F, G>(front: u64) -> AcceptRefusal<F, G>
    requires { front ≤ 2 ^ 62 }
    ensures { result ≡ AcceptRefusal.WrongRound (suc front) front }
{
    AcceptRefusal::WrongRound {
        next: front + 1,
        front,
    }
}

// Bytes with this fault spell no block, unless memory was short.
fn unread(fault: BlockFault) -> Result<Option<Block>, AllocError>
    ensures { IfOk result (λ b. (b ≡ None) × IsOfForm fault) }
{
    match fault {
        BlockFault::Memory => Err(AllocError),
        BlockFault::Decode(_) => Ok(None),
        BlockFault::Field { name: _ } => Ok(None),
        BlockFault::Range { name: _ } => Ok(None),
    }
}

// The block that kept bytes spell, none where they spell none.
fn block_in(alloc: Global, kept: &[u8]) -> Result<Option<Block>, AllocError>
    requires { length kept.now < 2 ^ 31 }
    ensures { IfOk result (IsReadAs kept.now) }
{
    match decode_block(alloc, kept) {
        Ok(block) => Ok(Some(block)),
        Err(fault) => unread(fault),
    }
}

// The refusal of a block of whose round this other block is kept.
fn forked_by<F, G>(alloc: Global, kept: &Block, front: u64) -> AcceptRefusal<F, G>
    ensures { ForkedBy kept.now front result }
{
    match header_hash(alloc, &kept.header) {
        Ok(kept) => AcceptRefusal::Fork { kept, front },
        Err(_) => AcceptRefusal::Memory,
    }
}

// The refusal of a block of whose round these other bytes are kept.
fn forked<F, G>(alloc: Global, kept: &[u8], front: u64, round: u64) -> AcceptRefusal<F, G>
    requires short { length kept.now < 2 ^ 31 }
    requires most { front ≤ 2 ^ 62 }
    ensures { Forks kept.now front round result }
{
    match block_in(alloc, kept) {
        Ok(Some(block)) => {
            if block.header.round == round {
                forked_by(alloc, &block, front)
            } else {
                outside(front)
            }
        }
        Ok(None) => outside(front),
        Err(_) => AcceptRefusal::Memory,
    }
}

/// Compares a block of a round that is at most the front with the one that is kept.
pub fn repeated<F, B: BlockKeeper>(
    alloc: Global,
    blocks: &mut Counted<B>,
    front: u64,
    bytes: &[u8],
    round: u64,
) -> Result<Accepted, AcceptRefusal<F, Fault<B>>>
    requires most { front ≤ 2 ^ 62 }
    ensures rounds { B.rounds blocks.new.inner ≡ B.rounds blocks.old.inner }
    ensures same { B.tells blocks.new.inner → B.blocks blocks.new.inner ≡ B.blocks blocks.old.inner }
    ensures told { B.tells blocks.new.inner → B.tells blocks.old.inner }
    ensures compares { B.tells blocks.new.inner → Compares (B.blocks blocks.old.inner) front round bytes.now result }
    ensures cause { HasBlocksCause (B.faults blocks.old.inner) (B.faults blocks.new.inner) result }
{
    match blocks.get(round) {
        Ok(Some(kept)) => {
            if kept.as_slice() == bytes {
                return Ok(Accepted { front, round });
            }
            Err(forked(alloc, kept.as_slice(), front, round))
        }
        Ok(None) => Err(outside(front)),
        Err(KeepRefusal::Fault(fault)) => Err(AcceptRefusal::Blocks { fault, front }),
        Err(KeepRefusal::Memory) => Err(AcceptRefusal::Memory),
    }
}
