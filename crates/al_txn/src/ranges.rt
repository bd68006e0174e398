//! The laws of values in their ranges.
ghost use Rattle.al_bodies.specs.Ranges.{HaveRecords, HaveSpellings};
ghost use Rattle.al_txn.specs.Txn.{txn};
ghost use Rattle.al_txn.specs.Item.{item};
ghost use Rattle.al_txn.specs.Ranges.{TxnRanges, ItemRanges, ItemsInRange, ReadInRange, EncodesTxns, NamesTxns, SpellsGroups, NamesGroups};

/// A transaction in its ranges has a record, which has a spelling, which is what the encoder gives
/// and what the id is the digest of; and a group's id is the digest of the spelling of the list of
/// its members' ids.
pub fn txn_range_laws()
    ensures records { HaveRecords (TxnRanges 15) txn }
    ensures spellings { HaveSpellings (TxnRanges 15) txn }
    ensures encoded { EncodesTxns }
    ensures ids { NamesTxns }
    ensures listed { SpellsGroups }
    ensures groups { NamesGroups }
{}

/// An entry of a payset in its ranges has a record, which has a spelling.
pub fn item_range_laws()
    ensures records { HaveRecords (ItemRanges 14) item }
    ensures spellings { HaveSpellings (ItemRanges 14) item }
{}

/// The effects of an entry with a record, as of each that is decoded, are in the ranges that rows
/// keep.
pub fn decoded_item_in_range()
    ensures records { ItemsInRange }
    ensures decoded { ReadInRange }
{}
