//! The past that kept blocks tell.
ghost use Rattle.std.specs.Prelude.{◌≡◌, ◌≤◌, ◌<◌, ◌+◌, ◌^◌, true, IfOk, OnErr, length};
ghost use Rattle.al_rows.specs.Rows.{same_bytes};
ghost use Rattle.al_keeper.specs.Blocks.{is_within};
ghost use Rattle.al_keeper.specs.Refusals.{HasRefusal};
ghost use Rattle.al_opening.specs.Past.{AddsBlock, DecodesKept, IsBlockOf, IsHeaderOf, IsSpelled, ReadsBlock, ReadsFirst, ReadsPast, Spells, and_block, past_of, refusal_of};

use crate::StartRefusal;
use al_base::Hash;
use al_block::{Block, BlockFault, Header, decode_block};
use al_keeper::{BlockKeeper, Counted, Fault, KeepRefusal};
use al_tail::Tail;
use std::alloc::{AllocError, Global};

/// The past up to a round, as far back as it was read.
#[derive(Drop)]
pub struct Past {
    /// What is kept of the transactions of the blocks that were read.
    pub tail: Tail,
    /// The header of the last of them.
    pub header: Header,
}

/// The kept block of a round.
///
/// # Errors
///
/// - `BadBlock` exactly where the kept bytes spell no block of that round.
/// - `Blocks` only where the keeper counted a fault.
/// - `Memory` only where memory is short.
pub fn read_block<F, B: BlockKeeper>(
    alloc: Global,
    blocks: &mut Counted<B>,
    round: u64,
) -> Result<Block, StartRefusal<F, Fault<B>>>
    requires within { is_within (B.rounds blocks.old.inner) round ≡ true }
    ensures rounds { B.rounds blocks.new.inner ≡ B.rounds blocks.old.inner }
    ensures same { B.tells blocks.new.inner → B.blocks blocks.new.inner ≡ B.blocks blocks.old.inner }
    ensures told { B.tells blocks.new.inner → B.tells blocks.old.inner }
    ensures reads { B.tells blocks.new.inner → ReadsBlock (B.blocks blocks.old.inner) round result }
    ensures block { IfOk result (IsBlockOf round) }
    ensures cause { HasRefusal StartRefusal.Blocks (B.faults blocks.old.inner) (B.faults blocks.new.inner) result }
{
    let block = match decode_kept(alloc, blocks, round) {
        Ok(block) => block,
        Err(refused) => return Err(refused),
    };
    if block.header.round != round {
        return Err(StartRefusal::BadBlock { round });
    }
    Ok(block)
}

/// The transactions of the kept blocks from one round to another, in rising order, and the header
/// of the last.
///
/// # Errors
///
/// - `OtherGenesis` exactly where the first block's bytes spell a block with another genesis hash
///   than this one.
/// - `BadBlock` with the first round whose kept bytes spell no block of it.
/// - `Blocks` only where the keeper counted a fault.
/// - `Memory` only where memory is short.
pub fn read_past<F, B: BlockKeeper>(
    alloc: Global,
    blocks: &mut Counted<B>,
    genesis_hash: &Hash,
    from: u64,
    to: u64,
) -> Result<Past, StartRefusal<F, Fault<B>>>
    requires order { from ≤ to }
    requires first { is_within (B.rounds blocks.old.inner) from ≡ true }
    requires last { is_within (B.rounds blocks.old.inner) to ≡ true }
    ensures rounds { B.rounds blocks.new.inner ≡ B.rounds blocks.old.inner }
    ensures same { B.tells blocks.new.inner → B.blocks blocks.new.inner ≡ B.blocks blocks.old.inner }
    ensures told { B.tells blocks.new.inner → B.tells blocks.old.inner }
    ensures reads { B.tells blocks.new.inner → ReadsPast genesis_hash.now (B.blocks blocks.old.inner) from to result }
    ensures header { IfOk result (λ p. IsHeaderOf to p.header) }
    ensures cause { HasRefusal StartRefusal.Blocks (B.faults blocks.old.inner) (B.faults blocks.new.inner) result }
{
    let first = match read_first(alloc, blocks, genesis_hash, from) {
        Ok(first) => first,
        Err(refused) => return Err(refused),
    };
    let mut past = match begin(alloc, first) {
        Ok(past) => past,
        Err(_) => return Err(StartRefusal::Memory),
    };
    for round in from..to {
        match add_next(alloc, blocks, &mut past, round + 1) {
            Ok(()) => {}
            Err(refused) => return Err(refused),
        }
    }
    Ok(past)
}

/// The past with the kept block of the next round.
fn add_next<F, B: BlockKeeper>(
    alloc: Global,
    blocks: &mut Counted<B>,
    past: &mut Past,
    round: u64,
) -> Result<(), StartRefusal<F, Fault<B>>>
    requires within { is_within (B.rounds blocks.old.inner) round ≡ true }
    ensures rounds { B.rounds blocks.new.inner ≡ B.rounds blocks.old.inner }
    ensures same { B.tells blocks.new.inner → B.blocks blocks.new.inner ≡ B.blocks blocks.old.inner }
    ensures told { B.tells blocks.new.inner → B.tells blocks.old.inner }
    ensures adds { B.tells blocks.new.inner → AddsBlock (B.blocks blocks.old.inner) round past.old past.new result }
    ensures header { IfOk result (λ _. IsHeaderOf round past.new.header) }
    ensures cause { HasRefusal StartRefusal.Blocks (B.faults blocks.old.inner) (B.faults blocks.new.inner) result }
{
    let block = match read_block(alloc, blocks, round) {
        Ok(block) => block,
        Err(refused) => return Err(refused),
    };
    match add(alloc, past, block) {
        Ok(()) => Ok(()),
        Err(_) => Err(StartRefusal::Memory),
    }
}

/// The past with one block more.
fn add(alloc: Global, past: &mut Past, block: Block) -> Result<(), AllocError>
    ensures { IfOk result (λ _. past.new ≡ and_block block past.old) }
{
    past.tail.extend(alloc, &block)?;
    let Block { header, items: _ } = block;
    past.header = header;
    Ok(())
}

/// The past of one block.
fn begin(alloc: Global, block: Block) -> Result<Past, AllocError>
    ensures { IfOk result (λ p. p ≡ past_of block) }
{
    let mut tail = Tail::new(alloc);
    tail.extend(alloc, &block)?;
    let Block { header, items: _ } = block;
    Ok(Past { tail, header })
}

/// The kept block of the first round that is read, where it is of the genesis's chain.
fn read_first<F, B: BlockKeeper>(
    alloc: Global,
    blocks: &mut Counted<B>,
    genesis_hash: &Hash,
    from: u64,
) -> Result<Block, StartRefusal<F, Fault<B>>>
    requires within { is_within (B.rounds blocks.old.inner) from ≡ true }
    ensures rounds { B.rounds blocks.new.inner ≡ B.rounds blocks.old.inner }
    ensures same { B.tells blocks.new.inner → B.blocks blocks.new.inner ≡ B.blocks blocks.old.inner }
    ensures told { B.tells blocks.new.inner → B.tells blocks.old.inner }
    ensures reads { B.tells blocks.new.inner → ReadsFirst genesis_hash.now (B.blocks blocks.old.inner) from result }
    ensures block { IfOk result (IsBlockOf from) }
    ensures cause { HasRefusal StartRefusal.Blocks (B.faults blocks.old.inner) (B.faults blocks.new.inner) result }
{
    let block = match decode_kept(alloc, blocks, from) {
        Ok(block) => block,
        Err(refused) => return Err(refused),
    };
    let kept = block.header.genesis_hash;
    if !same_hash(&kept, genesis_hash) {
        return Err(StartRefusal::OtherGenesis { kept });
    }
    if block.header.round != from {
        return Err(StartRefusal::BadBlock { round: from });
    }
    Ok(block)
}

/// Whether two hashes are the same.
fn same_hash(a: &Hash, b: &Hash) -> bool
    ensures { result ≡ same_bytes a.now b.now }
{
    a == b
}

/// The block that the kept bytes of a round spell, whichever round it has.
fn decode_kept<F, B: BlockKeeper>(
    alloc: Global,
    blocks: &mut Counted<B>,
    round: u64,
) -> Result<Block, StartRefusal<F, Fault<B>>>
    requires within { is_within (B.rounds blocks.old.inner) round ≡ true }
    ensures rounds { B.rounds blocks.new.inner ≡ B.rounds blocks.old.inner }
    ensures same { B.tells blocks.new.inner → B.blocks blocks.new.inner ≡ B.blocks blocks.old.inner }
    ensures told { B.tells blocks.new.inner → B.tells blocks.old.inner }
    ensures decodes { B.tells blocks.new.inner → DecodesKept (B.blocks blocks.old.inner) round result }
    ensures spelled { IfOk result IsSpelled }
    ensures cause { HasRefusal StartRefusal.Blocks (B.faults blocks.old.inner) (B.faults blocks.new.inner) result }
{
    match blocks.get(round) {
        Ok(Some(bytes)) => spelled_by(alloc, bytes.as_slice(), round),
        Ok(None) => unreachable!(),
        Err(KeepRefusal::Fault(f)) => Err(StartRefusal::Blocks(f)),
        Err(KeepRefusal::Memory) => Err(StartRefusal::Memory),
    }
}

/// The block that these bytes of a round spell.
fn spelled_by<F, G>(alloc: Global, bytes: &[u8], round: u64) -> Result<Block, StartRefusal<F, G>>
    requires { length bytes.now < 2 ^ 31 }
    ensures { Spells bytes.now round result }
{
    match decode_block(alloc, bytes) {
        Ok(block) => Ok(block),
        Err(fault) => Err(undecodable(round, fault)),
    }
}

/// The refusal of the bytes of a round that are no block.
fn undecodable<F, G>(round: u64, fault: BlockFault) -> StartRefusal<F, G>
    ensures { result ≡ refusal_of round fault }
{
    match fault {
        BlockFault::Memory => StartRefusal::Memory,
        BlockFault::Decode(_) => StartRefusal::BadBlock { round },
        BlockFault::Field { name: _ } => StartRefusal::BadBlock { round },
        BlockFault::Range { name: _ } => StartRefusal::BadBlock { round },
    }
}
