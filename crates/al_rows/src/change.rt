//! What a block changes.
use crate::Row;
use al_base::Key;
use sqlite_items::Items;

/// What the row under a key is after a block, where it differs from before.
#[derive(Debug, Drop)]
pub struct Change {
    pub key: Key,
    /// The row, or that there is none.
    pub row: Option<Row>,
}

/// A list of changes.
pub type Changes = Items<Change>;
