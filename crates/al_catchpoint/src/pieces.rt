//! The pieces of a file of blocks.
ghost use Rattle.std.specs.Prelude.{◌≢◌, ◌≤◌, ◌<◌, ◌^◌, [], length, take, drop, Err, IfOk};
ghost use Rattle.al_catchpoint.specs.Applying.{IsFirst};
ghost use Rattle.al_msgpack.specs.Places.{MeansUnless};

use al_msgpack::{DecodeFault, decode};
use std::alloc::{AllocError, Global};

/// The first piece of these bytes, and what is left behind it.
pub(crate) fn first_piece<'a>(
    alloc: Global,
    bytes: &'a [u8],
) -> Result<(&'a [u8], &'a [u8]), AllocError>
    requires some { bytes.now ≢ [] }
    requires short { length bytes.now < 2 ^ 31 }
    ensures { IfOk result (λ r. IsFirst bytes.now r.0.now r.1.now) }
{
    let end = first_end(alloc, bytes)?;
    Ok(bytes.split_at(end))
}

// Where the first piece ends.
fn first_end(alloc: Global, bytes: &[u8]) -> Result<usize, AllocError>
    requires some { bytes.now ≢ [] }
    requires short { length bytes.now < 2 ^ 31 }
    ensures within { IfOk result (λ n. n ≤ length bytes.now) }
    ensures first { IfOk result (λ n. IsFirst bytes.now (take n bytes.now) (drop n bytes.now)) }
{
    match decode(alloc, bytes) {
        Ok(_) => Ok(bytes.len()),
        Err(fault) => end_at(bytes, fault),
    }
}

// Where the first piece ends of bytes that are no spelling.
fn end_at(bytes: &[u8], fault: DecodeFault) -> Result<usize, AllocError>
    requires some { bytes.now ≢ [] }
    requires means { MeansUnless bytes.now (Err fault) }
    ensures within { IfOk result (λ n. n ≤ length bytes.now) }
    ensures first { IfOk result (λ n. IsFirst bytes.now (take n bytes.now) (drop n bytes.now)) }
{
    match fault {
        DecodeFault::Trailing { at } => Ok(at),
        DecodeFault::Truncated { at: _ } => Ok(bytes.len()),
        DecodeFault::Malformed { at: _ } => Ok(bytes.len()),
        DecodeFault::Memory => Err(AllocError),
    }
}
