//! The command that writes a catchpoint.
ghost use Rattle.std.specs.Prelude.{◌≡◌, ◌≤◌, ◌<◌, ◌^◌, ℕ, List, [], Option, length, true};
ghost use Rattle.al_catch.specs.Catching.{is_catchpoint_round};
ghost use Rattle.al_genesis.specs.declared.genesis.Genesis.{Genesis};
ghost use Rattle.al_session.specs.Catching.{IsCatching, begun};
ghost use Rattle.al_session.specs.Ending.{IsEnded};
ghost use Rattle.al_session.specs.Telling.{TellsEnd};
ghost use Rattle.al_states.specs.Keeping.{IsStates, held};

use crate::command::Status;
use crate::input::{MOST_BLOCKS, MOST_GENESIS, read_input, unread};
use crate::saying::{block_text, catchpoint_line, file_text, label_line, refuse, say, send, tell};
use crate::working::{CatchEnd, work};
use al_base::{Folder, Sink};
use al_catch::is_catchpoint_round;
use al_states::States;
use std::alloc::Global;

// Answers that no catchpoint was written. The last round is the front.
fn stopped<T: Sink>(alloc: Global, end: CatchEnd, round: u64, front: u64, sink: &mut T) -> Status
    requires { front < 2 ^ 63 }
    ensures tells { TellsEnd round front end (T.written sink.old) (T.written sink.new) (T.faults sink.old) (T.faults sink.new) result.0 }
    ensures later { T.faults sink.old ≤ T.faults sink.new }
{
    match end {
        CatchEnd::Behind => {
            say(sink, &catchpoint_line(6));
            Status(6)
        }
        CatchEnd::Refused => tell(sink, block_text(alloc, front + 1), 8),
        CatchEnd::Folder(file) => tell(sink, file_text(alloc, round, file), 4),
        CatchEnd::Memory => Status(7),
    }
}

// Writes the catchpoint of a round that has one, and tells its label.
fn written<T: Sink, F: Folder>(
    alloc: Global,
    states: &mut States,
    bytes: &[u8],
    round: u64,
    sink: &mut T,
    folder: &mut F,
) -> Status
    requires states { IsStates states.old }
    requires short { length bytes.now < 2 ^ 31 }
    requires begun { (held states.old).blocks ≡ [] }
    requires interval { is_catchpoint_round (held states.old).origin.chain.catch_interval round ≡ true }
    ensures ended { (g : Genesis) (left : Option (List ℕ)) (count : ℕ) → held states.old ≡ begun g → IsEnded round g bytes.now (record { left = left; written = T.written sink.old; files = F.files folder.old; source_faults = count; sink_faults = T.faults sink.old; folder_faults = F.faults folder.old }) (record { left = left; written = T.written sink.new; files = F.files folder.new; source_faults = count; sink_faults = T.faults sink.new; folder_faults = F.faults folder.new }) result.0 }
    ensures later { (T.faults sink.old ≤ T.faults sink.new) × (F.faults folder.old ≤ F.faults folder.new) }
{
    let label = match work(alloc, folder, states, bytes, round) {
        Ok(label) => label,
        Err(end) => return stopped(alloc, end, round, states.front(), sink),
    };
    match label_line(alloc, &label) {
        Ok(line) => send(sink, &line),
        Err(_) => Status(7),
    }
}

/// Writes the catchpoint of a round of the chain in a file of blocks, and tells its label.
pub(crate) fn catching<T: Sink, F: Folder>(
    alloc: Global,
    genesis: &str,
    blocks: &str,
    round: u64,
    sink: &mut T,
    folder: &mut F,
) -> Status
    ensures catches { (left : Option (List ℕ)) (count : ℕ) → IsCatching genesis.now blocks.now round (record { left = left; written = T.written sink.old; files = F.files folder.old; source_faults = count; sink_faults = T.faults sink.old; folder_faults = F.faults folder.old }) (record { left = left; written = T.written sink.new; files = F.files folder.new; source_faults = count; sink_faults = T.faults sink.new; folder_faults = F.faults folder.new }) result.0 }
    ensures later { (T.faults sink.old ≤ T.faults sink.new) × (F.faults folder.old ≤ F.faults folder.new) }
{
    let file = match read_input(alloc, folder, genesis, MOST_GENESIS) {
        Ok(file) => file,
        Err(fault) => return unread(alloc, fault, genesis, sink),
    };
    let mut states = match States::open(alloc, file.as_slice()) {
        Ok(states) => states,
        Err(fault) => return refuse(sink, fault),
    };
    let bytes = match read_input(alloc, folder, blocks, MOST_BLOCKS) {
        Ok(bytes) => bytes,
        Err(fault) => return unread(alloc, fault, blocks, sink),
    };
    if !is_catchpoint_round(states.catch_interval(), round) {
        say(sink, &catchpoint_line(2));
        return Status(6);
    }
    written(alloc, &mut states, bytes.as_slice(), round, sink, folder)
}
