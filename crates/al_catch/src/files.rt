//! The names of a catchpoint's files.
ghost use Rattle.std.specs.Prelude.{◌≡◌, IfOk};
ghost use Rattle.al_catch.specs.Files.{name_of};

use std::alloc::{AllocError, Global};

/// A file of a catchpoint.
#[derive(Clone, Copy, Debug, PartialEq, Eq)]
pub enum CatchFile {
    /// The chunk of rows of this number, from 0 on.
    Rows(u64),
    /// The number of chunks, the data round and the totals.
    Info,
    /// The block of this round.
    Block(u64),
    /// The label's text and a line feed.
    Label,
}

impl CatchFile {
    /// Its name in the catchpoint of a round: `cp-R-rows-K`, `cp-R-info`, `cp-R-block-N` or
    /// `cp-R-label`, each number in decimal.
    ///
    /// # Errors
    ///
    /// Only where memory is short.
    pub fn name(&self, alloc: Global, round: u64) -> Result<String, AllocError>
        ensures { IfOk result (λ s. s.bytes.items ≡ name_of round self.now) }
    {
        match self {
            CatchFile::Rows(k) => format!(in alloc; "cp-{round}-rows-{k}"),
            CatchFile::Info => format!(in alloc; "cp-{round}-info"),
            CatchFile::Block(n) => format!(in alloc; "cp-{round}-block-{n}"),
            CatchFile::Label => format!(in alloc; "cp-{round}-label"),
        }
    }
}
