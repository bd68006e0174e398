//! Whether words are a command.
ghost use Rattle.std.specs.Prelude.{◌≡◌, ◌↔◌, IsTrue, [], map, IfOk};
ghost use Rattle.std.specs.List.{list_any};
ghost use Rattle.clap.specs.Words.{app_of, fault_of};
ghost use Rattle.al_words.specs.Apps.{whole_app};
ghost use Rattle.al_words.specs.Commands.{IsCommand, begins_with_dash};

use crate::app::whole_app;
use clap::Command;
use clap::error::ErrorKind;
use std::alloc::{AllocError, Global};

// Whether clap takes the words.
fn is_taken<'a>(command: Command<'a>, words: &'a [&'a str]) -> Result<bool, AllocError>
    requires { app_of command ≡ whole_app }
    ensures { IfOk result (λ taken. IsTrue taken ↔ (fault_of whole_app (map (λ w. w.now) words.now) ≡ [])) }
{
    match command.try_get_matches_from(words) {
        Ok(_) => Ok(true),
        Err(error) => match error.kind() {
            ErrorKind::OutOfMemory => Err(AllocError),
            _ => Ok(false),
        },
    }
}

fn begins_with_dash(word: &str) -> bool
    ensures { result ≡ begins_with_dash word.now }
{
    word.as_bytes().first() == Some(&b'-')
}

fn has_dash(words: &[&str]) -> bool
    ensures { result ≡ list_any (λ w. begins_with_dash w.now) words.now }
{
    words.iter().any(|word| begins_with_dash(word))
}

/// Whether no word begins with a dash, and the first names a line that has as many words as stand
/// behind it. `help` names none.
///
/// # Errors
///
/// Only where memory is short.
pub fn is_command<'a>(alloc: Global, words: &'a [&'a str]) -> Result<bool, AllocError>
    ensures { IfOk result (λ yes. IsTrue yes ↔ IsCommand (map (λ w. w.now) words.now)) }
{
    if has_dash(words) {
        return Ok(false);
    }
    is_taken(whole_app(alloc)?, words)
}
