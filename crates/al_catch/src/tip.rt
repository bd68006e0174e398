//! Writing what a catchpoint says of itself, its blocks and its label.
ghost use Rattle.std.specs.Prelude.{◌≡◌, ◌≤◌, ◌<◌, ◌^◌, true, length, IfOk, OnOk};
ghost use Rattle.al_base.specs.Folders.{Writes};
ghost use Rattle.al_block.specs.Block.{IsBlock};
ghost use Rattle.al_block.specs.Hashes.{header_hash_of};
ghost use Rattle.al_block.specs.declared.block.Block.{Block};
ghost use Rattle.al_catch.specs.Catching.{HoldsBlocks, HoldsTip, IsTipName, KeepsBut, Later, Leaves, TipCause, info_bytes, label_line};
ghost use Rattle.al_catch.specs.Files.{name_of};
ghost use Rattle.al_catch.specs.Labels.{label_of, label_string};
ghost use Rattle.al_catch.specs.Steps.{IsBlockName, IsNoMemory, SaveCause};
ghost use Rattle.al_catch.specs.declared.files.CatchFile.TheVariants as file;

use crate::saving::save;
use crate::{
    CatchFile, CatchInfo, CatchRefusal, Label, RowsAt, RowsWritten, encode_info, label_of,
    label_text,
};
use al_base::{Bytes, Folder, Hash};
use al_block::{BlockFault, decode_block, header_hash};
use std::alloc::{AllocError, Global};

/// How many rounds a catchpoint lies behind its rows.
const LOOK_BACK: u64 = 320;

/// How many rounds before its own its first block lies.
const BLOCKS_BACK: u64 = 1319;

/// The bytes of what a catchpoint says of itself.
fn info_of(alloc: Global, w: &RowsWritten) -> Result<Bytes, AllocError>
    requires { 320 < w.now.round }
    ensures { IfOk result (λ b. b ≡ info_bytes w.now) }
{
    let info = CatchInfo {
        chunks: w.chunks,
        round: w.round - LOOK_BACK,
        totals: w.totals,
    };
    let mut bytes = Vec::new(alloc);
    encode_info(&info, &mut bytes)?;
    Ok(Bytes::from_vec(bytes))
}

/// Saves what a catchpoint says of itself.
#[tactic(auto, using(crate::proofs::StepLemmas::writes_nothing))]
fn save_info<F: Folder, E>(
    alloc: Global,
    folder: &mut F,
    w: &RowsWritten,
) -> Result<(), CatchRefusal<E>>
    requires { 320 < w.now.round }
    ensures files { Writes (F.files folder.old) (F.files folder.new) (name_of w.now.round file.Info) (info_bytes w.now) result }
    ensures later { F.faults folder.old ≤ F.faults folder.new }
    ensures cause { SaveCause (F.faults folder.old) (F.faults folder.new) result }
{
    let bytes = info_of(alloc, w)?;
    save(alloc, folder, w.round, CatchFile::Info, bytes.as_slice())
}

/// The bytes of a label's file.
fn line_of(alloc: Global, label: &Label) -> Result<Bytes, AllocError>
    ensures { IfOk result (λ b. b ≡ label_line label.now) }
{
    let mut line = Vec::new(alloc);
    line.extend_from_slice(label_text(alloc, label)?.as_slice())?;
    line.push(b'\n')?;
    Ok(Bytes::from_vec(line))
}

/// Saves a label.
#[tactic(auto, using(crate::proofs::StepLemmas::writes_nothing))]
fn save_label<F: Folder, E>(
    alloc: Global,
    folder: &mut F,
    label: &Label,
) -> Result<(), CatchRefusal<E>>
    ensures files { Writes (F.files folder.old) (F.files folder.new) (name_of label.now.round file.Label) (label_line label.now) result }
    ensures later { F.faults folder.old ≤ F.faults folder.new }
    ensures cause { SaveCause (F.faults folder.old) (F.faults folder.new) result }
{
    let line = line_of(alloc, label)?;
    save(
        alloc,
        folder,
        label.round,
        CatchFile::Label,
        line.as_slice(),
    )
}

/// Saves the blocks of a catchpoint.
fn save_blocks<F: Folder, R: RowsAt>(
    alloc: Global,
    folder: &mut F,
    rows: &mut R,
    round: u64,
) -> Result<(), CatchRefusal<R::Fault>>
    requires { (320 < round) × (round < 2 ^ 63) }
    ensures blocks { R.tells ≡ true → OnOk result (Leaves (F.files folder.old) (F.files folder.new) (HoldsBlocks round (R.shown rows.old).block)) }
    ensures kept { KeepsBut (IsBlockName round) (F.files folder.old) (F.files folder.new) }
    ensures same { R.tells ≡ true → R.shown rows.new ≡ R.shown rows.old }
    ensures calm { R.calm rows.old → R.calm rows.new }
    ensures later { Later (record { overtaken = R.overtaken rows.old; failed = R.failed rows.old; folder = F.faults folder.old }) (record { overtaken = R.overtaken rows.new; failed = R.failed rows.new; folder = F.faults folder.new }) }
    ensures cause { TipCause (record { overtaken = R.overtaken rows.old; failed = R.failed rows.old; folder = F.faults folder.old }) (record { overtaken = R.overtaken rows.new; failed = R.failed rows.new; folder = F.faults folder.new }) result }
{
    let first = round.saturating_sub(BLOCKS_BACK).max(1);
    for number in first..round + 1 {
        let bytes = rows.block(number)?;
        save(
            alloc,
            folder,
            round,
            CatchFile::Block(number),
            bytes.as_slice(),
        )?;
    }
    Ok(())
}

/// The hash of the block of these bytes; 32 zero bytes where they are no block's.
fn hash_of(alloc: Global, bytes: &[u8]) -> Result<Hash, AllocError>
    requires { length bytes.now < 2 ^ 31 }
    ensures { (b : Block) → IsBlock bytes.now b → IfOk result (λ hash. hash ≡ header_hash_of b.header) }
{
    match decode_block(alloc, bytes) {
        Ok(block) => header_hash(alloc, &block.header),
        Err(fault) => no_hash(fault),
    }
}

/// What stands for the hash of a block that is not read.
fn no_hash(fault: BlockFault) -> Result<Hash, AllocError>
    ensures { IfOk result (λ _. IsNoMemory fault) }
{
    match fault {
        BlockFault::Memory => Err(AllocError),
        _ => Ok([0; 32]),
    }
}

/// Writes the rest of a catchpoint whose rows were written: what it says of itself, the blocks from
/// 1,319 rounds before its round on, and last its label.
///
/// # Errors
///
/// `FolderFault` where the folder failed at that file; `Rows` where what holds the blocks has
/// failed; `Memory` only where memory is short. Some of the files may then be written.
pub fn write_tip<F: Folder, R: RowsAt>(
    alloc: Global,
    folder: &mut F,
    rows: &mut R,
    w: &RowsWritten,
) -> Result<Label, CatchRefusal<R::Fault>>
    requires round { (320 < w.now.round) × (w.now.round < 2 ^ 63) }
    ensures label { R.tells ≡ true → (b : Block) → IsBlock ((R.shown rows.old).block w.now.round) b → IfOk result (λ l. l ≡ label_of w.now.round (label_string (header_hash_of b.header) w.now.root w.now.totals)) }
    ensures round { IfOk result (λ l. l.round ≡ w.now.round) }
    ensures tip { IfOk result (λ l. Leaves (F.files folder.old) (F.files folder.new) (HoldsTip w.now l)) }
    ensures blocks { R.tells ≡ true → OnOk result (Leaves (F.files folder.old) (F.files folder.new) (HoldsBlocks w.now.round (R.shown rows.old).block)) }
    ensures kept { KeepsBut (IsTipName w.now.round) (F.files folder.old) (F.files folder.new) }
    ensures same { R.tells ≡ true → R.shown rows.new ≡ R.shown rows.old }
    ensures calm { R.calm rows.old → R.calm rows.new }
    ensures later { Later (record { overtaken = R.overtaken rows.old; failed = R.failed rows.old; folder = F.faults folder.old }) (record { overtaken = R.overtaken rows.new; failed = R.failed rows.new; folder = F.faults folder.new }) }
    ensures cause { TipCause (record { overtaken = R.overtaken rows.old; failed = R.failed rows.old; folder = F.faults folder.old }) (record { overtaken = R.overtaken rows.new; failed = R.failed rows.new; folder = F.faults folder.new }) result }
{
    save_info(alloc, folder, w)?;
    save_blocks(alloc, folder, rows, w.round)?;
    let bytes = rows.block(w.round)?;
    let block = hash_of(alloc, bytes.as_slice())?;
    let label = label_of(alloc, w.round, &block, &w.root, &w.totals)?;
    save_label(alloc, folder, &label)?;
    Ok(label)
}
