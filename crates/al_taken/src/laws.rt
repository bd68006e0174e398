//! The law of generated chains.
ghost use Rattle.al_taken.specs.Taken.{GeneratedIsTaken};

/// The step takes each block of a generated chain of up to 100,000 blocks, or a clash of digests is
/// shown: two different transactions of the chain with one id, whose rounds are at most 10 apart, or
/// an application's number whose account is the sink or the pool.
pub fn generated_is_taken()
    ensures { GeneratedIsTaken }
{}
