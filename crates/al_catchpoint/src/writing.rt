//! Writing the catchpoint of a round.
ghost use Rattle.std.specs.Prelude.{◌≡◌, ◌≤◌, ◌<◌, ◌+◌, true, length, Ok, IfOk, IfSome, OnOk};
ghost use Rattle.al_catch.specs.Catching.{HoldsChunks, IsRowsName, IsTipName, KeepsBut, Leaves, is_catchpoint_round, rows_written};
ghost use Rattle.al_catchpoint.specs.Faults.{IsOwnFault, fault_of};
ghost use Rattle.al_catchpoint.specs.Chains.{HoldsCatchpoint, IsData, IsLabelOf, WriteCause, shown_of};
ghost use Rattle.al_eval.specs.State.{State, replay};
ghost use Rattle.al_states.specs.Keeping.{IsStates, held};

use crate::StatesAt;
use al_base::Folder;
use al_catch::{CatchFile, CatchRefusal, Label, RowsWritten};
use al_rows::Never;
use al_states::States;
use std::alloc::Global;

/// How many rounds a catchpoint lies behind its rows.
const LOOK_BACK: u64 = 320;

/// Why a catchpoint is not written.
#[derive(Clone, Copy, Debug, PartialEq, Eq)]
pub enum WriteFault {
    /// The folder failed at this file.
    Folder(CatchFile),
    /// There is no memory.
    Memory,
}

/// Writes the rows after the last block, for the catchpoint 320 rounds above it.
///
/// # Errors
///
/// `Folder` where the folder failed at that file; `Memory` only where memory is short. Files of
/// rows may then be written.
pub fn write_rows<F: Folder>(
    alloc: Global,
    folder: &mut F,
    states: &mut States,
    round: u64,
) -> Result<RowsWritten, WriteFault>
    requires states { IsStates states.old }
    requires round { round ≡ length (held states.old).blocks + 320 }
    requires interval { is_catchpoint_round (held states.old).origin.chain.catch_interval round ≡ true }
    ensures states { IsStates states.new }
    ensures held { held states.new ≡ held states.old }
    ensures written { (s : State) → replay (held states.old).origin (held states.old).blocks ≡ Ok s → IfOk result (λ w. w ≡ rows_written round (shown_of s (held states.old).blocks)) }
    ensures files { (s : State) → replay (held states.old).origin (held states.old).blocks ≡ Ok s → OnOk result (Leaves (F.files folder.old) (F.files folder.new) (HoldsChunks round s.rows)) }
    ensures kept { KeepsBut (IsRowsName round) (F.files folder.old) (F.files folder.new) }
    ensures later { F.faults folder.old ≤ F.faults folder.new }
    ensures cause { WriteCause (F.faults folder.old) (F.faults folder.new) result }
{
    if states.settle().is_err() {
        return Err(WriteFault::Memory);
    }
    let interval = states.catch_interval();
    let mut at = StatesAt::new(alloc, states, states.front());
    match al_catch::write_rows(alloc, folder, &mut at, interval, round) {
        Ok(written) => Ok(written),
        Err(refused) => Err(fault_of(refused)),
    }
}

/// Writes the rest of a catchpoint whose rows were written: what it says of itself, its blocks, and
/// its label.
///
/// # Errors
///
/// `Folder` where the folder failed at that file; `Memory` only where memory is short. Some of the
/// files may then be written.
pub fn write_tip<F: Folder>(
    alloc: Global,
    folder: &mut F,
    states: &States,
    w: &RowsWritten,
) -> Result<Label, WriteFault>
    requires states { IsStates states.now }
    requires round { (320 < w.now.round) × (w.now.round ≤ length (held states.now).blocks) }
    // What was written is of the rows after the data round.
    requires rows { (s : State) → IsData (held states.now) w.now.round s → w.now ≡ rows_written w.now.round (shown_of s (held states.now).blocks) }
    ensures label { IfOk result (λ l. IsLabelOf (held states.now) l × (l.round ≡ w.now.round)) }
    // Where the files of the rows stand, the whole catchpoint does.
    ensures whole { (s : State) → IsData (held states.now) w.now.round s → IfSome (F.files folder.old) (HoldsChunks w.now.round s.rows) → IfOk result (λ l. Leaves (F.files folder.old) (F.files folder.new) (HoldsCatchpoint (held states.now) l)) }
    ensures kept { KeepsBut (IsTipName w.now.round) (F.files folder.old) (F.files folder.new) }
    ensures later { F.faults folder.old ≤ F.faults folder.new }
    ensures cause { WriteCause (F.faults folder.old) (F.faults folder.new) result }
{
    let _front = states.front();
    let mut at = StatesAt::new(alloc, states, w.round - LOOK_BACK);
    match al_catch::write_tip(alloc, folder, &mut at, w) {
        Ok(label) => Ok(label),
        Err(refused) => Err(fault_of(refused)),
    }
}

/// Why a catchpoint is not written. The states neither fail nor are they overtaken, and only a
/// round with a catchpoint is asked.
fn fault_of(refused: CatchRefusal<Never>) -> WriteFault
    requires { IsOwnFault refused }
    ensures { result ≡ fault_of refused }
{
    match refused {
        CatchRefusal::FolderFault { file } => WriteFault::Folder(file),
        CatchRefusal::Rows(never) => match never {},
        CatchRefusal::Memory => WriteFault::Memory,
        CatchRefusal::Overtaken { .. } => unreachable!(),
        CatchRefusal::NotCatchpointRound { .. } => unreachable!(),
    }
}
