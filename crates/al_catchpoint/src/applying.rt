//! Posting the blocks of a file.
ghost use Rattle.std.specs.Prelude.{◌≢◌, ◌<◌, ◌^◌, [], length, Ok, Err};
ghost use Rattle.std.specs.Result.{result_map_both};
ghost use Rattle.al_catchpoint.specs.Applying.{Applies, IsApplied, IsStopOf};
ghost use Rattle.al_states.specs.Keeping.{IsStates, held};

use crate::pieces::first_piece;
use al_states::{AcceptRefusal, States};
use std::alloc::Global;

/// Why the blocks of a file are not posted to its end.
#[derive(Clone, Copy, Debug, PartialEq, Eq)]
pub enum ApplyStop {
    /// The next piece is refused.
    Refused,
    /// There is no memory.
    Memory,
}

/// Posts the pieces at the front of these bytes, until so many blocks are held or no bytes are
/// left, and gives what is left. A piece is the spelling of a value that more bytes follow, or else
/// all that is left. What was posted before a stop is held.
pub fn apply_until<'a>(
    alloc: Global,
    states: &mut States,
    bytes: &'a [u8],
    until: u64,
) -> Result<&'a [u8], ApplyStop>
    requires states { IsStates states.old }
    requires short { length bytes.now < 2 ^ 31 }
    ensures states { IsStates states.new }
    ensures applies { Applies (held states.old) bytes.now until (held states.new) (result_map_both (λ rest. rest.now) (λ e. e) result) }
{
    let mut rest = bytes;
    while !rest.is_empty() && states.front() < until {
        rest = apply_first(alloc, states, rest)?;
    }
    Ok(rest)
}

// Posts the first piece of these bytes, and gives what is left.
fn apply_first<'a>(
    alloc: Global,
    states: &mut States,
    bytes: &'a [u8],
) -> Result<&'a [u8], ApplyStop>
    requires states { IsStates states.old }
    requires some { bytes.now ≢ [] }
    requires short { length bytes.now < 2 ^ 31 }
    ensures states { IsStates states.new }
    ensures applied { IsApplied (held states.old) bytes.now (held states.new) (result_map_both (λ rest. rest.now) (λ e. e) result) }
{
    let Ok((piece, rest)) = first_piece(alloc, bytes) else {
        return Err(ApplyStop::Memory);
    };
    match states.accept(piece) {
        Ok(_) => Ok(rest),
        Err(refusal) => Err(stop_of(&refusal)),
    }
}

// Why posting stops at a piece that is refused.
fn stop_of(refusal: &AcceptRefusal) -> ApplyStop
    ensures { IsStopOf refusal.now result }
{
    match refusal {
        AcceptRefusal::Memory => ApplyStop::Memory,
        _ => ApplyStop::Refused,
    }
}
