//! Rows with the round that changed them last.
ghost use Rattle.std.specs.Prelude.{◌≡◌, IfOk};

use crate::Row;
use al_base::Key;
use sqlite_items::Items;
use std::alloc::{AllocError, Global};

/// A row, and the round of the last block after which it differed from before that block; 0 for
/// a row of the genesis.
#[derive(Debug, Drop)]
pub struct Stored {
    pub row: Row,
    pub changed: u64,
}

/// A row under its key.
#[derive(Debug, Drop)]
pub struct Keyed {
    pub key: Key,
    pub stored: Stored,
}

/// A list of rows under their keys.
pub type Rows = Items<Keyed>;

impl Stored {
    /// An equal row, of the same round.
    pub fn copy(&self, alloc: Global) -> Result<Stored, AllocError>
        ensures { IfOk result (λ s. s ≡ self.now) }
    {
        Ok(Stored {
            row: self.row.copy(alloc)?,
            changed: self.changed,
        })
    }
}
