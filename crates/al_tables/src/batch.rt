//! What one commit changes.
use al_base::{CreatorChanges, History, Key, Levels};
use al_rows::Stored;
use sqlite_items::Items;

/// What stands under a key from a commit on.
#[derive(Debug, Drop)]
pub struct BatchRow {
    pub key: Key,
    /// The row with the round of its last change, or that there is none.
    pub stored: Option<Stored>,
}

/// A list of what stands under keys.
pub type BatchRows = Items<BatchRow>;

/// What one commit changes.
#[derive(Debug, Drop)]
pub struct Batch {
    /// The round of the tables before; none where everything is replaced.
    pub from: Option<u64>,
    /// The round of the tables after, at most 2^62.
    pub to: u64,
    /// What stands under keys; of a key that is named twice the first counts.
    pub rows: BatchRows,
    /// The creators of assets and applications; of an id that is named twice the first counts.
    pub creators: CreatorChanges,
    /// Versions that are added to the history of online accounts.
    pub history: History,
    /// Levels that are added.
    pub levels: Levels,
}
