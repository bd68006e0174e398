//! Blocks.
use crate::Header;
use al_txn::Items;

/// A block: its header and its payset.
#[derive(Debug, Drop)]
pub struct Block {
    pub header: Header,
    pub items: Items,
}
