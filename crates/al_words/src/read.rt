//! The command that words are.
ghost use Rattle.std.specs.Prelude.{IfOk, map};
ghost use Rattle.al_words.specs.Lines.{Reads, Says};

use crate::command::is_command;
use crate::line::{Line, read_line};
use std::alloc::{AllocError, Global};

/// What the words say, if they are a command: no word begins with a dash, and they are a line.
///
/// # Errors
///
/// Only where memory is short.
pub fn read_command<'a>(alloc: Global, words: &'a [&'a str]) -> Result<Option<Line<'a>>, AllocError>
    ensures { IfOk result (λ o. Reads (Says (map (λ w. w.now) words.now)) o) }
{
    if is_command(alloc, words)? {
        read_line(alloc, words)
    } else {
        Ok(None)
    }
}
