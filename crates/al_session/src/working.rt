//! Writing the catchpoint of a round of the blocks of a file.
ghost use Rattle.std.specs.Prelude.{◌≡◌, ◌≤◌, ◌<◌, ◌+◌, ◌^◌, [], length, true, Ok, IfOk, IfSome};
ghost use Rattle.std.specs.Result.{result_map_both};
ghost use Rattle.al_catch.specs.Catching.{HoldsChunks, IsCatchName, IsTipName, KeepsBut, Leaves, is_catchpoint_round, rows_written};
ghost use Rattle.al_catchpoint.specs.Chains.{HoldsCatchpoint, shown_of};
ghost use Rattle.al_eval.specs.State.{State, replay};
ghost use Rattle.al_session.specs.Working.{Exhausts, Reaches, Works, fault_end, stop_end};
ghost use Rattle.al_states.specs.Keeping.{IsStates, held};

use al_base::Folder;
use al_catch::{CatchFile, Label, RowsWritten};
use al_catchpoint::{ApplyStop, WriteFault, apply_until, write_rows, write_tip};
use al_states::States;
use std::alloc::Global;

/// How far below its round the rows of a catchpoint lie.
const LOOK_BACK: u64 = 320;

/// Why no catchpoint was written.
#[derive(Clone, Copy, Debug, PartialEq, Eq)]
pub enum CatchEnd {
    /// All blocks were posted, and the last is of a lower round.
    Behind,
    /// The next block is refused.
    Refused,
    /// The folder failed at this file.
    Folder(CatchFile),
    /// There was no memory.
    Memory,
}

fn stop_end(stop: ApplyStop) -> CatchEnd
    ensures { result ≡ stop_end stop }
{
    match stop {
        ApplyStop::Refused => CatchEnd::Refused,
        ApplyStop::Memory => CatchEnd::Memory,
    }
}

fn fault_end(fault: WriteFault) -> CatchEnd
    ensures { result ≡ fault_end fault }
{
    match fault {
        WriteFault::Folder(file) => CatchEnd::Folder(file),
        WriteFault::Memory => CatchEnd::Memory,
    }
}

// Posts the blocks up to a round, and gives what is left.
fn reach<'a>(
    alloc: Global,
    states: &mut States,
    bytes: &'a [u8],
    round: u64,
) -> Result<&'a [u8], CatchEnd>
    requires states { IsStates states.old }
    requires short { length bytes.now < 2 ^ 31 }
    requires below { length (held states.old).blocks ≤ round }
    ensures states { IsStates states.new }
    ensures reaches { Reaches (held states.old) bytes.now round (held states.new) (result_map_both (λ rest. rest.now) (λ e. e) result) }
{
    let rest = match apply_until(alloc, states, bytes, round) {
        Ok(rest) => rest,
        Err(stop) => return Err(stop_end(stop)),
    };
    if states.front() < round {
        return Err(CatchEnd::Behind);
    }
    Ok(rest)
}

// Posts all blocks, however many.
fn exhaust(alloc: Global, states: &mut States, bytes: &[u8]) -> Result<(), CatchEnd>
    requires states { IsStates states.old }
    requires short { length bytes.now < 2 ^ 31 }
    ensures states { IsStates states.new }
    ensures exhausts { Exhausts (held states.old) bytes.now (held states.new) result }
{
    match apply_until(alloc, states, bytes, u64::MAX) {
        Ok(_) => {
            let _front = states.front();
            Ok(())
        }
        Err(stop) => Err(stop_end(stop)),
    }
}

// Writes the rest of a catchpoint whose rows were written, and posts all blocks.
fn finish<F: Folder>(
    alloc: Global,
    folder: &mut F,
    states: &mut States,
    bytes: &[u8],
    rows: &RowsWritten,
) -> Result<Label, CatchEnd>
    requires states { IsStates states.old }
    requires short { length bytes.now < 2 ^ 31 }
    requires high { 320 < rows.now.round }
    requires round { rows.now.round ≡ length (held states.old).blocks + 320 }
    requires rows { (s : State) → replay (held states.old).origin (held states.old).blocks ≡ Ok s → rows.now ≡ rows_written rows.now.round (shown_of s (held states.old).blocks) }
    ensures states { IsStates states.new }
    ensures works { Works (held states.old) bytes.now rows.now.round (F.faults folder.old) (F.faults folder.new) (held states.new) result }
    ensures whole { (s : State) → replay (held states.old).origin (held states.old).blocks ≡ Ok s → IfSome (F.files folder.old) (HoldsChunks rows.now.round s.rows) → IfOk result (λ l. Leaves (F.files folder.old) (F.files folder.new) (HoldsCatchpoint (held states.new) l)) }
    ensures kept { KeepsBut (IsTipName rows.now.round) (F.files folder.old) (F.files folder.new) }
    ensures later { F.faults folder.old ≤ F.faults folder.new }
{
    let rest = match reach(alloc, states, bytes, rows.round) {
        Ok(rest) => rest,
        Err(end) => return Err(end),
    };
    let label = match write_tip(alloc, folder, states, rows) {
        Ok(label) => label,
        Err(fault) => return Err(fault_end(fault)),
    };
    match exhaust(alloc, states, rest) {
        Ok(()) => Ok(label),
        Err(end) => Err(end),
    }
}

/// Posts the blocks of a file over a ledger that holds none, and writes the catchpoint of a round.
///
/// # Errors
///
/// Why it was not written whole.
pub(crate) fn work<F: Folder>(
    alloc: Global,
    folder: &mut F,
    states: &mut States,
    bytes: &[u8],
    round: u64,
) -> Result<Label, CatchEnd>
    requires states { IsStates states.old }
    requires short { length bytes.now < 2 ^ 31 }
    requires begun { (held states.old).blocks ≡ [] }
    requires interval { is_catchpoint_round (held states.old).origin.chain.catch_interval round ≡ true }
    ensures states { IsStates states.new }
    ensures works { Works (held states.old) bytes.now round (F.faults folder.old) (F.faults folder.new) (held states.new) result }
    ensures whole { IfOk result (λ l. Leaves (F.files folder.old) (F.files folder.new) (HoldsCatchpoint (held states.new) l)) }
    ensures kept { KeepsBut (IsCatchName round) (F.files folder.old) (F.files folder.new) }
    ensures later { F.faults folder.old ≤ F.faults folder.new }
{
    let rest = match reach(alloc, states, bytes, round - LOOK_BACK) {
        Ok(rest) => rest,
        Err(end) => return Err(end),
    };
    let rows = match write_rows(alloc, folder, states, round) {
        Ok(rows) => rows,
        Err(fault) => return Err(fault_end(fault)),
    };
    finish(alloc, folder, states, rest, &rows)
}
