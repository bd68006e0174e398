//! The laws of values in their ranges.
ghost use Rattle.al_bodies.specs.Ranges.{HaveRecords, HaveSpellings};
ghost use Rattle.al_block.specs.Header.{header};
ghost use Rattle.al_block.specs.Block.{block};
ghost use Rattle.al_block.specs.Ranges.{HeaderRanges, HashesHeaders, BlockRanges, HashesPaysets, SpellsPaysets, EncodesBlocks};

/// A header in its ranges has a record, which has a spelling, and a block's hash is the digest of
/// that.
pub fn header_range_laws()
    ensures records { HaveRecords HeaderRanges header }
    ensures spellings { HaveSpellings HeaderRanges header }
    ensures hashes { HashesHeaders }
{}

/// A block in its ranges has a record, which has a spelling, which is what the encoder gives; and
/// the hash of its payset is the digest of the spelling of the list of its entries.
pub fn block_range_laws()
    ensures records { HaveRecords BlockRanges block }
    ensures spellings { HaveSpellings BlockRanges block }
    ensures encoded { EncodesBlocks }
    ensures paysets { SpellsPaysets }
    ensures hashes { HashesPaysets }
{}
