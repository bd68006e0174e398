//! A chain and its catchpoints.
ghost use Rattle.std.specs.Prelude.{◌≡◌, ◌≤◌, ◌<◌, ◌+◌, ◌%◌, ◌++◌, ◌∷◌, ℕ, true, [], IfOk, Ok, OnOk};
ghost use Rattle.al_catch.specs.Catching.{IsCatchName, KeepsBut, is_catchpoint_round};
ghost use Rattle.al_generated.specs.Catchpoints.{GenerateCause, HasCatchpoints, IsOwnName, catch_interval};
ghost use Rattle.al_generated.specs.Chain.{generated_blocks, origin};
ghost use Rattle.al_generated.specs.Making.{HasPoint, IsBegun, IsMade, refusal_at};
ghost use Rattle.al_generator.specs.Genesis.{generated_genesis};
ghost use Rattle.al_states.specs.Keeping.{IsStates, held};

use crate::chain::{GenerateRefusal, extend_to};
use al_base::{Folder, Hash};
use al_catch::Label;
use al_catchpoint::{WriteFault, write_rows, write_tip};
use al_generator::{Generator, generated_genesis};
use al_states::States;
use std::alloc::{AllocError, Global};

/// The rounds from one catchpoint of the chain to the next.
const CATCH_INTERVAL: u64 = 800;

/// How many rounds a catchpoint lies behind the rows that it holds.
const LOOK_BACK: u64 = 320;

// The states before the first block, and the hash of their genesis.
fn begin(alloc: Global) -> Result<(States, Hash), AllocError>
    ensures { IfOk result (λ r. IsBegun r.0 r.1) }
{
    let genesis = generated_genesis(alloc)?;
    let hash = genesis.chain.hash;
    let states = States::of_genesis(alloc, genesis)?;
    Ok((states, hash))
}

// Why a catchpoint of a round is not written.
fn refusal_at(round: u64, fault: WriteFault) -> GenerateRefusal
    ensures { result ≡ refusal_at round fault }
{
    match fault {
        WriteFault::Folder(file) => GenerateRefusal::Folder { round, file },
        WriteFault::Memory => GenerateRefusal::Memory,
    }
}

// Goes on to a round, and writes its catchpoint.
fn catchpoint<F: Folder>(
    alloc: Global,
    folder: &mut F,
    states: &mut States,
    generator: &mut Generator,
    genesis: &Hash,
    round: u64,
) -> Result<Label, GenerateRefusal>
    requires made { (number : ℕ) × (n : ℕ) × IsMade number n states.old generator.old × (n + 320 ≤ round) }
    requires genesis { genesis.now ≡ generated_genesis.chain.hash }
    requires few { round ≤ 100000 }
    requires interval { is_catchpoint_round catch_interval round ≡ true }
    ensures made { (number n : ℕ) → IsMade number n states.old generator.old → n + 320 ≤ round → IfOk result (λ l. IsMade number round states.new generator.new × HasPoint number round l (F.files folder.old) (F.files folder.new)) }
    ensures kept { KeepsBut (IsCatchName round) (F.files folder.old) (F.files folder.new) }
    ensures later { F.faults folder.old ≤ F.faults folder.new }
    ensures cause { (number n : ℕ) → IsMade number n states.old generator.old → n + 320 ≤ round → GenerateCause number round (F.faults folder.old) (F.faults folder.new) result }
{
    extend_to(alloc, states, generator, genesis, round - LOOK_BACK)?;
    let written = match write_rows(alloc, folder, states, round) {
        Ok(written) => written,
        Err(fault) => return Err(refusal_at(round, fault)),
    };
    extend_to(alloc, states, generator, genesis, round)?;
    match write_tip(alloc, folder, states, &written) {
        Ok(label) => Ok(label),
        Err(fault) => Err(refusal_at(round, fault)),
    }
}

// Appends a label.
fn put_label(labels: &mut Vec<Label>, label: Label) -> Result<(), AllocError>
    ensures { OnOk result (labels.new.items ≡ labels.old.items ++ label ∷ []) }
{
    labels.push(label)?;
    Ok(())
}

/// The states after so many blocks, and the labels of the catchpoints that were written.
pub(crate) fn chain<F: Folder>(
    alloc: Global,
    folder: &mut F,
    number: u64,
    blocks: u64,
) -> Result<(States, Vec<Label>), GenerateRefusal>
    requires { blocks ≤ 100000 }
    ensures made { IfOk result (λ r. IsStates r.0 × (held r.0 ≡ record { origin = origin; blocks = generated_blocks number blocks })) }
    ensures points { IfOk result (λ r. HasCatchpoints number blocks r.1.items (F.files folder.old) (F.files folder.new)) }
    ensures kept { KeepsBut (IsOwnName blocks) (F.files folder.old) (F.files folder.new) }
    ensures later { F.faults folder.old ≤ F.faults folder.new }
    ensures cause { GenerateCause number blocks (F.faults folder.old) (F.faults folder.new) result }
{
    let (mut states, genesis) = begin(alloc)?;
    let mut generator = Generator::new(number);
    let mut labels = Vec::new(alloc);
    for k in 0..blocks / CATCH_INTERVAL {
        let round = CATCH_INTERVAL * (k + 1);
        let label = catchpoint(alloc, folder, &mut states, &mut generator, &genesis, round)?;
        match put_label(&mut labels, label) {
            Ok(()) => {}
            Err(_) => return Err(GenerateRefusal::Memory),
        }
    }
    extend_to(alloc, &mut states, &mut generator, &genesis, blocks)?;
    Ok((states, labels))
}
