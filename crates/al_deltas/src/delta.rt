//! What one block changes.
use al_base::{CreatorChanges, Hash, OnlineChanges};
use al_block::Header;
use al_rewards::Totals;
use al_rows::Changes;

/// What a block changes.
#[derive(Debug, Drop)]
pub struct RoundDelta {
    /// The block's round.
    pub round: u64,
    /// Its header.
    pub header: Header,
    /// The hash of that header.
    pub hash: Hash,
    /// The rows that differ from before the block, in the order of keys.
    pub changes: Changes,
    /// The creators of assets and applications that differ from before the block.
    pub creators: CreatorChanges,
    /// The money and units of all accounts after the block.
    pub totals: Totals,
    /// The accounts whose online data differs from before the block.
    pub online: OnlineChanges,
}
