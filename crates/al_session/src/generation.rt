//! The command that makes a chain.
ghost use Rattle.std.specs.Prelude.{◌≤◌, ℕ, List, Option};
ghost use Rattle.al_session.specs.Generating.{IsGeneration};
ghost use Rattle.al_session.specs.Telling.{TellsRefusal};

use crate::command::Status;
use crate::saying::{file_text, send, tell};
use al_base::{Folder, Sink};
use al_generated::{GenerateRefusal, generate};
use std::alloc::Global;

/// The most blocks of a chain that is made, all of which are held in memory.
pub(crate) const MOST_GENERATED: u64 = 1_000;

// Answers that no chain was made.
fn refused<T: Sink>(alloc: Global, refusal: GenerateRefusal, sink: &mut T) -> Status
    ensures tells { TellsRefusal refusal (T.written sink.old) (T.written sink.new) (T.faults sink.old) (T.faults sink.new) result.0 }
    ensures later { T.faults sink.old ≤ T.faults sink.new }
{
    match refusal {
        GenerateRefusal::Folder { round, file } => tell(sink, file_text(alloc, round, file), 4),
        GenerateRefusal::Refused | GenerateRefusal::Memory => Status(7),
    }
}

/// Makes the chain of a number, so many blocks long, writes its catchpoints, and tells its summary.
pub(crate) fn generation<T: Sink, F: Folder>(
    alloc: Global,
    number: u64,
    blocks: u64,
    sink: &mut T,
    folder: &mut F,
) -> Status
    requires { blocks ≤ 1000 }
    ensures generates { (left : Option (List ℕ)) (count : ℕ) → IsGeneration number blocks (record { left = left; written = T.written sink.old; files = F.files folder.old; source_faults = count; sink_faults = T.faults sink.old; folder_faults = F.faults folder.old }) (record { left = left; written = T.written sink.new; files = F.files folder.new; source_faults = count; sink_faults = T.faults sink.new; folder_faults = F.faults folder.new }) result.0 }
    ensures later { (T.faults sink.old ≤ T.faults sink.new) × (F.faults folder.old ≤ F.faults folder.new) }
{
    match generate(alloc, folder, number, blocks) {
        Ok(text) => send(sink, &text),
        Err(refusal) => refused(alloc, refusal, sink),
    }
}
