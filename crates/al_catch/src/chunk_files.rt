//! The files of a catchpoint's rows.
ghost use Rattle.std.specs.Prelude.{◌≡◌, ◌<◌, ◌≤◌, ◌-◌, true, length, map, IfOk, IfSome, OnOk};
ghost use Rattle.std.specs.FinMap.{entries};
ghost use Rattle.al_base.specs.Folders.{Writes};
ghost use Rattle.al_msgpack.specs.declared.val.Val.TheVariants as values;
ghost use Rattle.al_msgpack.specs.Spelled.{spelled};
ghost use Rattle.al_catch.specs.Catching.{HoldsChunks, IsCalm, IsRowsName, KeepsBut, Later, Leaves, chunk_count};
ghost use Rattle.al_catch.specs.Files.{name_of};
ghost use Rattle.al_catch.specs.Records.{chunk};
ghost use Rattle.al_catch.specs.Steps.{EndsAt, PartCause, SaveCause, chunk_of, row_of};
ghost use Rattle.al_catch.specs.declared.files.CatchFile.TheVariants as file;

use crate::saving::save;
use crate::{CatchFile, CatchRefusal, Chunk, ChunkRow, RowsAt, encode_chunk};
use al_base::{Bytes, Folder, Key};
use al_row_records::encode_row;
use al_rows::Keyed;
use sqlite_items::Items;
use std::alloc::{AllocError, Global};

/// The most rows of a chunk.
const CHUNK_ROWS: u32 = 512;

/// What a file holds of a row.
fn row_of(alloc: Global, row: &Keyed) -> Result<ChunkRow, AllocError>
    ensures { IfOk result (λ r. r ≡ row_of row.now) }
{
    let mut spelling = Vec::new(alloc);
    encode_row(&row.stored.row, &mut spelling)?;
    Ok(ChunkRow {
        key: Bytes::of(alloc, row.key.bytes().as_slice())?,
        spelling: Bytes::from_vec(spelling),
        changed: row.stored.changed,
    })
}

/// The chunk of this number that holds these rows.
fn chunk_of(alloc: Global, number: u64, rows: &[Keyed]) -> Result<Chunk, AllocError>
    ensures { IfOk result (λ c. c ≡ chunk_of number rows.now) }
{
    let mut held = Items::new(alloc);
    for row in rows {
        held.push(row_of(alloc, row)?)?;
    }
    Ok(Chunk { number, rows: held })
}

/// The spelling of that chunk's record.
fn chunk_bytes(alloc: Global, number: u64, rows: &[Keyed]) -> Result<Bytes, AllocError>
    ensures { IfOk result (λ b. b ≡ spelled (values.Map (chunk.write (chunk_of number rows.now)))) }
{
    let chunk = chunk_of(alloc, number, rows)?;
    let mut bytes = Vec::new(alloc);
    encode_chunk(&chunk, &mut bytes)?;
    Ok(Bytes::from_vec(bytes))
}

/// Saves a chunk in its file.
#[tactic(auto, using(crate::proofs::StepLemmas::writes_nothing))]
fn save_chunk<F: Folder, E>(
    alloc: Global,
    folder: &mut F,
    round: u64,
    number: u64,
    rows: &[Keyed],
) -> Result<(), CatchRefusal<E>>
    ensures files { Writes (F.files folder.old) (F.files folder.new) (name_of round (file.Rows number)) (spelled (values.Map (chunk.write (chunk_of number rows.now)))) result }
    ensures later { F.faults folder.old ≤ F.faults folder.new }
    ensures cause { SaveCause (F.faults folder.old) (F.faults folder.new) result }
{
    let bytes = chunk_bytes(alloc, number, rows)?;
    save(
        alloc,
        folder,
        round,
        CatchFile::Rows(number),
        bytes.as_slice(),
    )
}

/// The key of the last row.
fn last_key(rows: &[Keyed]) -> Option<Key>
    ensures { EndsAt rows.now result }
{
    if rows.is_empty() {
        return None;
    }
    let last = &rows[rows.len() - 1];
    Some(last.key)
}

/// Writes the files of the rows, and counts them.
pub(crate) fn write_chunks<F: Folder, R: RowsAt>(
    alloc: Global,
    folder: &mut F,
    rows: &mut R,
    round: u64,
) -> Result<u64, CatchRefusal<R::Fault>>
    ensures count { R.tells ≡ true → IfOk result (λ n. n ≡ chunk_count (length (entries (R.shown rows.old).rows))) }
    ensures files { R.tells ≡ true → OnOk result (Leaves (F.files folder.old) (F.files folder.new) (HoldsChunks round (R.shown rows.old).rows)) }
    ensures kept { KeepsBut (IsRowsName round) (F.files folder.old) (F.files folder.new) }
    ensures same { R.tells ≡ true → R.shown rows.new ≡ R.shown rows.old }
    ensures calm { R.calm rows.old → R.calm rows.new × IsCalm result }
    ensures later { Later (record { overtaken = R.overtaken rows.old; failed = R.failed rows.old; folder = F.faults folder.old }) (record { overtaken = R.overtaken rows.new; failed = R.failed rows.new; folder = F.faults folder.new }) }
    ensures cause { PartCause (record { overtaken = R.overtaken rows.old; failed = R.failed rows.old; folder = F.faults folder.old }) (record { overtaken = R.overtaken rows.new; failed = R.failed rows.new; folder = F.faults folder.new }) result }
{
    let mut after = None;
    for number in 0..u64::MAX {
        let part = rows.rows_after(after.as_ref(), CHUNK_ROWS)?;
        let last = last_key(part.as_slice());
        if last.is_none() {
            return Ok(number);
        }
        save_chunk(alloc, folder, round, number, part.as_slice())?;
        if part.len() < CHUNK_ROWS as usize {
            return Ok(number + 1);
        }
        after = last;
    }
    Err(CatchRefusal::Memory)
}
