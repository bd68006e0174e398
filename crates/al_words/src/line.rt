//! What a line says.
ghost use Rattle.std.specs.Prelude.{◌≡◌, ◌∷◌, [], IfOk, codes, get_or, map};
ghost use Rattle.al_words.specs.Lines.{IsLine, Reads};

use crate::number::read_number;
use std::alloc::{AllocError, Global};

/// A line of the command.
#[derive(Clone, Copy, Debug)]
pub enum Line<'a> {
    /// Serves standard input and output.
    Session {
        /// The file of the genesis.
        genesis: &'a str,
    },
    /// Serves a port of this machine.
    Serve {
        /// The file of the genesis.
        genesis: &'a str,
        /// From 1 to 65,535.
        port: u64,
    },
    /// Makes blocks and prints their summary.
    Generate {
        /// What the blocks are drawn from.
        number: u64,
        /// How many blocks, from 1 to 100,000.
        blocks: u64,
    },
    /// Writes the catchpoint of a round.
    Catchpoint {
        /// The file of the genesis.
        genesis: &'a str,
        /// The file of the blocks.
        blocks: &'a str,
        /// At most 2^62.
        round: u64,
    },
    /// Accepts the files of a catchpoint.
    Catchup {
        /// The file of the genesis.
        genesis: &'a str,
        /// The label that the files are to have.
        label: &'a str,
    },
    /// Computes the label of the files of a round.
    Label {
        /// At most 2^62.
        round: u64,
    },
}

/// The greatest round.
const MOST_ROUND: u64 = 4_611_686_018_427_387_904;

/// The greatest number that blocks are drawn from.
const MOST_NUMBER: u64 = u64::MAX;

/// The most blocks that are made.
const MOST_BLOCKS: u64 = 100_000;

/// The greatest port.
const MOST_PORT: u64 = 65_535;

fn of_two<'a>(alloc: Global, name: &str, a: &'a str) -> Result<Option<Line<'a>>, AllocError>
    ensures { IfOk result (λ o. Reads (IsLine (name.now ∷ a.now ∷ [])) o) }
{
    if name == "session" {
        return Ok(Some(Line::Session { genesis: a }));
    }
    if name == "label" {
        return match read_number(alloc, a, 0, MOST_ROUND)? {
            Some(round) => Ok(Some(Line::Label { round })),
            None => Ok(None),
        };
    }
    Ok(None)
}

fn serve<'a>(alloc: Global, a: &'a str, b: &str) -> Result<Option<Line<'a>>, AllocError>
    ensures { IfOk result (λ o. Reads (IsLine (codes "serve" ∷ a.now ∷ b.now ∷ [])) o) }
{
    match read_number(alloc, b, 1, MOST_PORT)? {
        Some(port) => Ok(Some(Line::Serve { genesis: a, port })),
        None => Ok(None),
    }
}

fn generate<'a>(alloc: Global, a: &str, b: &str) -> Result<Option<Line<'a>>, AllocError>
    ensures { IfOk result (λ o. Reads (IsLine (codes "generate" ∷ a.now ∷ b.now ∷ [])) o) }
{
    let Some(number) = read_number(alloc, a, 0, MOST_NUMBER)? else {
        return Ok(None);
    };
    match read_number(alloc, b, 1, MOST_BLOCKS)? {
        Some(blocks) => Ok(Some(Line::Generate { number, blocks })),
        None => Ok(None),
    }
}

fn of_three<'a>(
    alloc: Global,
    name: &str,
    a: &'a str,
    b: &'a str,
) -> Result<Option<Line<'a>>, AllocError>
    ensures { IfOk result (λ o. Reads (IsLine (name.now ∷ a.now ∷ b.now ∷ [])) o) }
{
    if name == "catchup" {
        return Ok(Some(Line::Catchup {
            genesis: a,
            label: b,
        }));
    }
    if name == "serve" {
        return serve(alloc, a, b);
    }
    if name == "generate" {
        return generate(alloc, a, b);
    }
    Ok(None)
}

fn of_four<'a>(
    alloc: Global,
    name: &str,
    a: &'a str,
    b: &'a str,
    c: &str,
) -> Result<Option<Line<'a>>, AllocError>
    ensures { IfOk result (λ o. Reads (IsLine (name.now ∷ a.now ∷ b.now ∷ c.now ∷ [])) o) }
{
    if name == "catchpoint" {
        return match read_number(alloc, c, 0, MOST_ROUND)? {
            Some(round) => Ok(Some(Line::Catchpoint {
                genesis: a,
                blocks: b,
                round,
            })),
            None => Ok(None),
        };
    }
    Ok(None)
}

// A word, or the empty text where there is none.
fn word<'a>(words: &[&'a str], n: usize) -> &'a str
    ensures { result.now ≡ get_or (map (λ w. w.now) words.now) n [] }
{
    match words.get(n) {
        Some(word) => word,
        None => "",
    }
}

/// The line that the words are, if they are one: each number in its bounds, as a decimal without
/// sign or leading zero.
///
/// # Errors
///
/// Only where memory is short.
pub fn read_line<'a>(alloc: Global, words: &[&'a str]) -> Result<Option<Line<'a>>, AllocError>
    ensures { IfOk result (λ o. Reads (IsLine (map (λ w. w.now) words.now)) o) }
{
    match words {
        [name, a] => of_two(alloc, name, a),
        [name, a, b] => of_three(alloc, name, a, b),
        [_, _, _, _] => of_four(
            alloc,
            word(words, 0),
            word(words, 1),
            word(words, 2),
            word(words, 3),
        ),
        _ => Ok(None),
    }
}
