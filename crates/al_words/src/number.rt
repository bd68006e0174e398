//! Numbers among words.
ghost use Rattle.std.specs.Prelude.{IfOk};
ghost use Rattle.al_words.specs.Lines.{IsNumber, Reads};

use std::alloc::{AllocError, Global};

/// The number that a text is, from `least` to `most`: what it is read as prints the text again, so
/// a sign or a leading zero is refused.
///
/// # Errors
///
/// Only where memory is short.
pub fn read_number(
    alloc: Global,
    text: &str,
    least: u64,
    most: u64,
) -> Result<Option<u64>, AllocError>
    ensures { IfOk result (λ o. Reads (IsNumber least most text.now) o) }
{
    let Ok(n) = text.parse::<u64>() else {
        return Ok(None);
    };
    if n < least || n > most {
        return Ok(None);
    }
    let back = n.to_string(alloc)?;
    if back.as_str() == text {
        Ok(Some(n))
    } else {
        Ok(None)
    }
}
