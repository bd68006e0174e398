//! The chain of a number.
ghost use Rattle.std.specs.Prelude.{◌≡◌, ◌≤◌, ◌<◌, ◌^◌, ℕ, List, suc, [], ◌∷◌, ◌++◌, length, Ok, IfOk, OnOk};
ghost use Rattle.al_block.specs.Ranges.{BlockRanges};
ghost use Rattle.al_block.specs.Hashes.{header_hash_of};
ghost use Rattle.al_catch.specs.Catching.{KeepsBut};
ghost use Rattle.al_catch.specs.declared.label.Label.{Label};
ghost use Rattle.al_eval.specs.State.{State, replay};
ghost use Rattle.al_generated.specs.Catchpoints.{GenerateCause, HasCatchpoints, IsOwnName, whole_summary};
ghost use Rattle.al_generated.specs.Chain.{generated_blocks, items_behind, origin, progress_after};
ghost use Rattle.al_generated.specs.Making.{IsMade, IsMaking, IsRefusedBy, IsStopped, MakingCause};
ghost use Rattle.al_generator.specs.Genesis.{generated_genesis};
ghost use Rattle.al_states.specs.Due.{due_block};
ghost use Rattle.al_states.specs.Keeping.{IsStates, held};

use crate::points::chain;
use crate::summary::whole_summary;
use al_base::{Folder, Hash};
use al_block::{Block, encode_block};
use al_catch::CatchFile;
use al_generator::Generator;
use al_states::{AcceptRefusal, States};
use std::alloc::{AllocError, Global};

/// More bytes than a block has that is taken.
const TOO_MANY: usize = 1 << 31;

/// Why no summary is given.
#[derive(Clone, Copy, Debug, PartialEq, Eq)]
pub enum GenerateRefusal {
    /// A block of the chain was refused.
    Refused,
    /// The folder failed at this file of the catchpoint of this round.
    Folder { round: u64, file: CatchFile },
    /// There was no memory.
    Memory,
}

impl From<AllocError> for GenerateRefusal {
    ghost use Rattle.std.specs.Prelude.{◌≡◌};
    ghost use Rattle.al_generated.specs.declared.chain.GenerateRefusal.TheVariants.{Memory};

    ghost from_gives = { λ _ e. e ≡ Memory };

    fn from(_error: AllocError) -> GenerateRefusal {
        GenerateRefusal::Memory
    }
}

// The block that comes next.
fn next_block(
    alloc: Global,
    states: &States,
    generator: &mut Generator,
    genesis: &Hash,
) -> Result<Block, AllocError>
    requires made { IsMaking states.now generator.old }
    requires genesis { genesis.now ≡ generated_genesis.chain.hash }
    ensures block { (number n : ℕ) (s : State) → IsMade number n states.now generator.old → n < 2 ^ 50 → replay origin (generated_blocks number n) ≡ Ok s → IfOk result (λ b. b ≡ due_block s 0 (items_behind number n)) }
    ensures fits { IfOk result (λ b. BlockRanges b) }
    ensures progress { (number n : ℕ) → IsMade number n states.now generator.old → OnOk result (generator.new ≡ progress_after number (suc n)) }
{
    let round = states.front() + 1;
    let items = generator.next_items(alloc, round, genesis)?;
    states.next_block(0, items)
}

// Gives a block to the states, which take it or not.
fn take(alloc: Global, states: &mut States, block: &Block) -> Result<(), GenerateRefusal>
    requires states { IsStates states.old }
    requires fits { BlockRanges block.now }
    ensures states { IsStates states.new }
    ensures taken { length (held states.old).blocks < block.now.header.round → OnOk result (held states.new ≡ record (held states.old) { blocks = (held states.old).blocks ++ block.now ∷ [] }) }
    ensures stops { (s : State) → replay (held states.old).origin (held states.old).blocks ≡ Ok s → block.now.header.round ≡ suc (length (held states.old).blocks) → block.now.header.prev ≡ header_hash_of s.header → IsStopped s block.now result }
{
    let mut bytes = Vec::new(alloc);
    encode_block(block, &mut bytes)?;
    if bytes.len() >= TOO_MANY {
        return Err(GenerateRefusal::Refused);
    }
    match states.accept(bytes.as_slice()) {
        Ok(_) => Ok(()),
        Err(refusal) => Err(refused_by(&refusal)),
    }
}

// Why a block that is not accepted is not taken.
fn refused_by(refusal: &AcceptRefusal) -> GenerateRefusal
    ensures { IsRefusedBy refusal.now result }
{
    match refusal {
        AcceptRefusal::Memory => GenerateRefusal::Memory,
        _ => GenerateRefusal::Refused,
    }
}

// One block more.
fn extend(
    alloc: Global,
    states: &mut States,
    generator: &mut Generator,
    genesis: &Hash,
) -> Result<(), GenerateRefusal>
    requires made { IsMaking states.old generator.old }
    requires genesis { genesis.now ≡ generated_genesis.chain.hash }
    ensures made { (number n : ℕ) → IsMade number n states.old generator.old → n < 2 ^ 50 → OnOk result (IsMade number (suc n) states.new generator.new) }
    ensures stops { (number n : ℕ) → IsMade number n states.old generator.old → n < 2 ^ 50 → MakingCause number (suc n) result }
{
    let block = next_block(alloc, states, generator, genesis)?;
    take(alloc, states, &block)
}

// As many blocks more as there are up to this one.
pub(crate) fn extend_to(
    alloc: Global,
    states: &mut States,
    generator: &mut Generator,
    genesis: &Hash,
    round: u64,
) -> Result<(), GenerateRefusal>
    requires made { (number : ℕ) × (n : ℕ) × IsMade number n states.old generator.old × (n ≤ round) }
    requires genesis { genesis.now ≡ generated_genesis.chain.hash }
    requires few { round ≤ 100000 }
    ensures made { (number n : ℕ) → IsMade number n states.old generator.old → n ≤ round → OnOk result (IsMade number round states.new generator.new) }
    ensures stops { (number n : ℕ) → IsMade number n states.old generator.old → n ≤ round → MakingCause number round result }
{
    let front = states.front();
    for _ in front..round {
        extend(alloc, states, generator, genesis)?;
    }
    Ok(())
}

/// Makes the chain of a number, so many blocks long, writes the catchpoints of its rounds, and gives
/// its summary with their labels.
///
/// # Errors
///
/// `Refused` exactly where a block of the chain is refused by the step or has too many bytes; the
/// step takes each block, unless two different transactions within 10 rounds have one id, or the
/// account of an application is the sink or the pool (`al_taken`). `Folder` where the folder failed
/// at that file. `Memory` only where memory is short. Files of catchpoints may then be written.
pub fn generate<F: Folder>(
    alloc: Global,
    folder: &mut F,
    number: u64,
    blocks: u64,
) -> Result<Vec<u8>, GenerateRefusal>
    requires { blocks ≤ 100000 }
    ensures generated { IfOk result (λ text. (s : State) × (replay origin (generated_blocks number blocks) ≡ Ok s) × ((labels : List Label) × HasCatchpoints number blocks labels (F.files folder.old) (F.files folder.new) × (text.items ≡ whole_summary blocks s labels))) }
    ensures kept { KeepsBut (IsOwnName blocks) (F.files folder.old) (F.files folder.new) }
    ensures later { F.faults folder.old ≤ F.faults folder.new }
    ensures cause { GenerateCause number blocks (F.faults folder.old) (F.faults folder.new) result }
{
    let (states, labels) = chain(alloc, folder, number, blocks)?;
    Ok(whole_summary(alloc, blocks, &states, labels.as_slice())?)
}
