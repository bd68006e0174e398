//! What holds of the names and the records of files.
ghost use Rattle.al_catch.specs.Decoding.{SpellsOne};
ghost use Rattle.al_catch.specs.Files.{HaveOwnFiles, HaveOwnNames};
ghost use Rattle.al_catch.specs.Ranges.{SpellsChunks, SpellsInfos};
ghost use Rattle.al_catch.specs.Records.{chunk, info};

/// Different files of one round have different names, and so have files of different rounds.
pub fn own_names()
    ensures files { HaveOwnNames }
    ensures rounds { HaveOwnFiles }
{}

/// Bytes spell the record of at most one chunk, and of at most one info file; and what is written
/// of a chunk or an info file in its ranges spells its record.
pub fn record_laws()
    ensures chunks { SpellsOne chunk }
    ensures infos { SpellsOne info }
    ensures written { SpellsChunks }
    ensures said { SpellsInfos }
{}
