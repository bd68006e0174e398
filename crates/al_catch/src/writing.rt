//! Writing the files of a catchpoint's rows.
ghost use Rattle.std.specs.Prelude.{◌≡◌, true, false, Err, IfOk, OnOk};
ghost use Rattle.al_catch.specs.Catching.{CatchCause, HoldsChunks, IsCalm, IsRowsName, KeepsBut, Later, Leaves, is_catchpoint_round, rows_written};
ghost use Rattle.al_catch.specs.declared.writing.CatchRefusal.TheVariants.{NotCatchpointRound};

use crate::chunk_files::write_chunks;
use crate::{CatchFile, RowsAt, RowsFault};
use al_base::{Folder, Hash};
use al_rewards::Totals;
use std::alloc::{AllocError, Global};

/// Why a catchpoint is not written.
#[derive(Debug, Drop)]
pub enum CatchRefusal<F> {
    /// What holds the rows stands at this round by now, which is above the data round.
    Overtaken { round: u64 },
    /// This round has no catchpoint.
    NotCatchpointRound { round: u64 },
    /// The folder failed at this file.
    FolderFault { file: CatchFile },
    /// What holds the rows has failed.
    Rows(F),
    /// There is no memory.
    Memory,
}

impl<F> From<AllocError> for CatchRefusal<F> {
    ghost use Rattle.std.specs.Prelude.{◌≡◌};
    ghost use Rattle.al_catch.specs.declared.writing.CatchRefusal.TheVariants.{Memory};

    ghost from_gives = { λ _ e. e ≡ Memory };

    fn from(_: AllocError) -> CatchRefusal<F> {
        CatchRefusal::Memory
    }
}

impl<F> From<RowsFault<F>> for CatchRefusal<F> {
    ghost use Rattle.std.specs.Prelude.{◌≡◌};
    ghost use Rattle.al_catch.specs.Steps.{refusal_of};

    ghost from_gives = { λ fault e. e ≡ refusal_of fault };

    fn from(fault: RowsFault<F>) -> CatchRefusal<F> {
        match fault {
            RowsFault::Overtaken { round } => CatchRefusal::Overtaken { round },
            RowsFault::Failed(f) => CatchRefusal::Rows(f),
            RowsFault::Memory => CatchRefusal::Memory,
        }
    }
}

/// What was written of the rows of a catchpoint.
#[derive(Clone, Copy, Debug, PartialEq, Eq)]
pub struct RowsWritten {
    /// The catchpoint's round.
    pub round: u64,
    /// How many files of rows there are.
    pub chunks: u64,
    /// The root of the rows.
    pub root: Hash,
    /// The totals after the data round.
    pub totals: Totals,
}

/// Whether a round has a catchpoint: it is a multiple of the interval above 320. With interval 0
/// none has.
pub fn is_catchpoint_round(interval: u64, round: u64) -> bool
    ensures { result ≡ is_catchpoint_round interval round }
{
    interval != 0 && 320 < round && round % interval == 0
}

/// Writes the rows of the catchpoint of a round: files of 512 rows, the last of which may have
/// fewer.
///
/// # Errors
///
/// `NotCatchpointRound` exactly where the round has no catchpoint; `Overtaken` and `Rows` where the
/// rows were overtaken, or failed; `FolderFault` where the folder failed at that file; `Memory`
/// only where memory is short. Files of rows may then be written.
pub fn write_rows<F: Folder, R: RowsAt>(
    alloc: Global,
    folder: &mut F,
    rows: &mut R,
    interval: u64,
    round: u64,
) -> Result<RowsWritten, CatchRefusal<R::Fault>>
    ensures written { R.tells ≡ true → IfOk result (λ w. w ≡ rows_written round (R.shown rows.old)) }
    ensures round { IfOk result (λ w. w.round ≡ round) }
    ensures files { R.tells ≡ true → OnOk result (Leaves (F.files folder.old) (F.files folder.new) (HoldsChunks round (R.shown rows.old).rows)) }
    ensures kept { KeepsBut (IsRowsName round) (F.files folder.old) (F.files folder.new) }
    ensures same { R.tells ≡ true → R.shown rows.new ≡ R.shown rows.old }
    ensures refused { is_catchpoint_round interval round ≡ false → result ≡ Err (NotCatchpointRound round) }
    ensures calm { R.calm rows.old → R.calm rows.new × IsCalm result }
    ensures later { Later (record { overtaken = R.overtaken rows.old; failed = R.failed rows.old; folder = F.faults folder.old }) (record { overtaken = R.overtaken rows.new; failed = R.failed rows.new; folder = F.faults folder.new }) }
    ensures cause { CatchCause interval round (record { overtaken = R.overtaken rows.old; failed = R.failed rows.old; folder = F.faults folder.old }) (record { overtaken = R.overtaken rows.new; failed = R.failed rows.new; folder = F.faults folder.new }) result }
{
    if !is_catchpoint_round(interval, round) {
        return Err(CatchRefusal::NotCatchpointRound { round });
    }
    let (root, totals) = rows.root()?;
    let chunks = write_chunks(alloc, folder, rows, round)?;
    Ok(RowsWritten {
        round,
        chunks,
        root,
        totals,
    })
}
