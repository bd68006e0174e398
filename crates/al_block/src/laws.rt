//! The laws of blocks.
ghost use Rattle.al_txn.specs.Laws.{Determines};
ghost use Rattle.al_block.specs.Header.{header};
ghost use Rattle.al_block.specs.Block.{block, SpellsOneBlock};
ghost use Rattle.al_block.specs.Within.{DecodedIsWithin};

/// A record determines its header and its block, and bytes spell at most one block.
pub fn block_laws()
    ensures headers { Determines header }
    ensures blocks { Determines block }
    ensures once { SpellsOneBlock }
{}

/// What a decoded block holds is in its ranges: its effects, its round and its counter; and it has
/// at most as many transactions, inner ones included, as its spelling has bytes.
pub fn decoded_is_within()
    ensures { DecodedIsWithin }
{}
