//! Where whole files are kept.
ghost use Rattle.std.specs.Prelude.{◌≡◌, ℕ, List, Option, IsFalse, OnOk, OnErr, position};
ghost use Rattle.std.specs.Option.{option_copied};
ghost use Rattle.al_base.specs.Causes.{HasCause};
ghost use Rattle.al_base.specs.Folders.{Answers, is_failed, Reads, Writes, Replaces, IsWithinLimit, HasReadCause, file_of, is_named};

use crate::{Bytes, Failed};
use sqlite_items::Items;
use std::alloc::{AllocError, Global};

/// Why a file was not read.
#[derive(Clone, Copy, Debug, PartialEq, Eq)]
pub enum FolderRefusal {
    /// The folder failed, and counted it.
    Failed,
    /// The file is longer than the limit, in bytes.
    TooLong { limit: usize },
    /// Memory ran out.
    Memory,
}

impl From<AllocError> for FolderRefusal {
    ghost use Rattle.std.specs.Prelude.{◌≡◌};
    ghost use Rattle.al_base.specs.declared.folder.FolderRefusal.TheVariants.{Memory};

    ghost from_gives = { λ _ e. e ≡ Memory };

    fn from(_: AllocError) -> FolderRefusal {
        FolderRefusal::Memory
    }
}

/// A file and its name.
#[derive(Debug, Drop, PartialEq, Eq)]
pub struct NamedFile {
    pub name: Bytes,
    pub bytes: Bytes,
}

/// A list of files. Where two have one name, the first counts.
pub type Files = Items<NamedFile>;

/// A folder of files. One that tells what they hold goes on telling.
pub trait Folder {
    ghost use Rattle.al_base.specs.Folders.{FileMap};

    /// What each file holds, where it tells.
    ghost files: { Self → Option FileMap };

    /// How often it has failed.
    ghost faults: { Self → ℕ };

    /// The bytes of a file, or that there is none of this name. It changes no file.
    ///
    /// # Errors
    ///
    /// `Failed` where the folder failed, `TooLong` where the file has more bytes than `limit`, and
    /// `Memory`.
    fn read(
        &mut self,
        alloc: Global,
        name: &str,
        limit: usize,
    ) -> Result<Option<Bytes>, FolderRefusal>
        ensures within { IsWithinLimit limit result }
        ensures files { Reads (files self.old) (files self.new) name.now limit result }
        ensures cause { HasReadCause (faults self.old) (faults self.new) result };

    /// Makes the file hold these bytes and no others.
    ///
    /// # Errors
    ///
    /// `Failed` where the folder failed. That file may then hold anything, and all others stay.
    fn write(&mut self, name: &str, bytes: &[u8]) -> Result<(), Failed>
        ensures files { Writes (files self.old) (files self.new) name.now bytes.now result }
        ensures cause { HasCause (faults self.old) (faults self.new) result };
}

/// The bytes of the file of this name in a list.
pub(crate) fn file_in<'a>(files: &'a [NamedFile], name: &str) -> Option<&'a [u8]>
    ensures { option_copied result ≡ file_of files.now name.now }
{
    let name = name.as_bytes();
    let file = files.iter().find(|file| file.name.as_slice() == name)?;
    Some(file.bytes.as_slice())
}

/// Makes the file of this name in a list hold these bytes and no others.
pub(crate) fn put_file(
    files: &mut Files,
    alloc: Global,
    name: &[u8],
    bytes: &[u8],
) -> Result<(), AllocError>
    ensures ok { OnOk result (Replaces (file_of files.old) (file_of files.new) name.now bytes.now) }
    ensures err { OnErr result (files.new ≡ files.old) }
{
    let place = place(files.as_slice(), name);
    let file = NamedFile {
        name: Bytes::of(alloc, name)?,
        bytes: Bytes::of(alloc, bytes)?,
    };
    match place {
        Some(place) => files.set(place, file),
        None => files.push(file)?,
    }
    Ok(())
}

// Where the file of this name is in a list.
fn place(files: &[NamedFile], name: &[u8]) -> Option<usize>
    ensures { result ≡ position (is_named name.now) files.now }
{
    files.iter().position(|file| file.name.as_slice() == name)
}

/// What a read answers of a file that is found or not.
pub(crate) fn read_file(
    alloc: Global,
    file: Option<&[u8]>,
    limit: usize,
) -> Result<Option<Bytes>, FolderRefusal>
    ensures within { IsWithinLimit limit result }
    ensures answer { Answers (option_copied file.entry) limit result }
    ensures sure { IsFalse (is_failed result) }
{
    let Some(bytes) = file else {
        return Ok(None);
    };
    if bytes.len() > limit {
        return Err(FolderRefusal::TooLong { limit });
    }
    Ok(Some(Bytes::of(alloc, bytes)?))
}
