//! Reading the files that a run begins with.
ghost use Rattle.std.specs.Prelude.{◌≤◌};
ghost use Rattle.al_session.specs.Outside.{KeepsFiles};
ghost use Rattle.al_session.specs.Telling.{IsInput, TellsUnread};

use crate::command::Status;
use crate::saying::{folder_text, tell};
use al_base::{Bytes, Folder, FolderRefusal, Sink};
use al_http::MOST_BODY;
use std::alloc::Global;

/// The most bytes of a genesis file, which are those of a block.
pub(crate) const MOST_GENESIS: usize = MOST_BODY as usize;

/// The most bytes of a file of blocks.
pub(crate) const MOST_BLOCKS: usize = 536_870_912;

/// Why a file was not read.
#[derive(Clone, Copy, Debug, PartialEq, Eq)]
pub enum ReadFault {
    /// The folder failed, or the file is missing or too long.
    Unread,
    /// There was no memory.
    Memory,
}

// The bytes of a file that has at most so many.
pub(crate) fn read_input<F: Folder>(
    alloc: Global,
    folder: &mut F,
    name: &str,
    limit: usize,
) -> Result<Bytes, ReadFault>
    ensures input { IsInput limit name.now (F.files folder.old) (F.faults folder.old) (F.faults folder.new) result }
    ensures files { KeepsFiles (F.files folder.old) (F.files folder.new) }
    ensures later { F.faults folder.old ≤ F.faults folder.new }
{
    match folder.read(alloc, name, limit) {
        Ok(Some(bytes)) => Ok(bytes),
        Err(FolderRefusal::Memory) => Err(ReadFault::Memory),
        _ => Err(ReadFault::Unread),
    }
}

// Answers a file that was not read.
pub(crate) fn unread<T: Sink>(alloc: Global, fault: ReadFault, name: &str, sink: &mut T) -> Status
    ensures tells { TellsUnread name.now fault (T.written sink.old) (T.written sink.new) (T.faults sink.old) (T.faults sink.new) result.0 }
    ensures later { T.faults sink.old ≤ T.faults sink.new }
{
    match fault {
        ReadFault::Unread => tell(sink, folder_text(alloc, name), 4),
        ReadFault::Memory => Status(7),
    }
}
