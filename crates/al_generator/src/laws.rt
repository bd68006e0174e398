//! The law of the genesis.
ghost use Rattle.al_genesis.specs.Genesis.{IsGenesis};
ghost use Rattle.al_generator.specs.Fits.{DrawsFit};
ghost use Rattle.al_generator.specs.Genesis.{generated_bytes, generated_genesis};

/// The genesis of the generated chains is a good one: it is what the bytes of its record mean.
pub fn genesis_is_good()
    ensures { IsGenesis generated_bytes generated_genesis }
{}

/// What a generator draws is in the ranges of its record, so each block has a spelling.
pub fn draws_fit()
    ensures { DrawsFit }
{}
