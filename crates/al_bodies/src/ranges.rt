//! The laws of values in their ranges.
ghost use Rattle.al_bodies.specs.Bodies.{asset_params};
ghost use Rattle.al_bodies.specs.Effect.{inner_txn, effect};
ghost use Rattle.al_bodies.specs.Ranges.{ParamsRanges, InnerRanges, EffectRanges, EffectsInRange, HaveRecords, HaveSpellings, Merges};

/// Parameters of assets, inner transactions and effects in their ranges have records, which have
/// spellings.
pub fn range_laws()
    ensures params { HaveRecords ParamsRanges asset_params }
    ensures params_spelled { HaveSpellings ParamsRanges asset_params }
    ensures inners { HaveRecords InnerRanges inner_txn }
    ensures inners_spelled { HaveSpellings InnerRanges inner_txn }
    ensures effects { HaveRecords EffectRanges effect }
    ensures effects_spelled { HaveSpellings EffectRanges effect }
    ensures merged { Merges }
{}

/// An effect with a record, as each that is decoded, is in the range that rows keep.
pub fn decoded_in_range()
    ensures { EffectsInRange }
{}
