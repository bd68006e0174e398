//! Saving one file of a catchpoint.
ghost use Rattle.std.specs.Prelude.{◌≤◌};
ghost use Rattle.al_base.specs.Folders.{Writes};
ghost use Rattle.al_catch.specs.Files.{name_of};
ghost use Rattle.al_catch.specs.Steps.{SaveCause};

use crate::{CatchFile, CatchRefusal};
use al_base::Folder;
use std::alloc::Global;

/// Makes a file of the catchpoint of a round hold these bytes.
#[tactic(auto, using(crate::proofs::StepLemmas::writes_nothing))]
pub(crate) fn save<F: Folder, E>(
    alloc: Global,
    folder: &mut F,
    round: u64,
    file: CatchFile,
    bytes: &[u8],
) -> Result<(), CatchRefusal<E>>
    ensures files { Writes (F.files folder.old) (F.files folder.new) (name_of round file) bytes.now result }
    ensures later { F.faults folder.old ≤ F.faults folder.new }
    ensures cause { SaveCause (F.faults folder.old) (F.faults folder.new) result }
{
    let name = file.name(alloc, round)?;
    match folder.write(name.as_str(), bytes) {
        Ok(()) => Ok(()),
        Err(_) => Err(CatchRefusal::FolderFault { file }),
    }
}
