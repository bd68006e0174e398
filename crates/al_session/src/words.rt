//! The command's words.
ghost use Rattle.std.specs.Prelude.{◌≡◌, ◌∷◌, [], ◌++◌, map, string_bytes, IfOk, OnOk, OnErr};
ghost use Rattle.al_session.specs.Entering.{words_behind};

use std::alloc::{AllocError, Global};
use std::env;
use std::marker::Model;

/// The words that a command is given, seen as a list of texts.
#[derive(Drop)]
pub struct Words {
    words: Vec<String>,
}

impl Model for Words {
    ghost use Rattle.std.specs.Prelude.{List, ℕ, map};

    ghost Value = { List (List ℕ) };

    ghost view = { λ w. map (λ s. s.bytes.items) w.words.items };
}

impl Words {
    /// No word.
    pub fn new(alloc: Global) -> Words
        ensures { result ≡ [] }
    {
        Words {
            words: Vec::new(alloc),
        }
    }

    /// The arguments behind the first, which is the program's name.
    pub fn behind_name(alloc: Global, args: env::Args<Global>) -> Result<Words, AllocError>
        ensures { IfOk result (λ words. words ≡ words_behind args) }
    {
        let mut args = args;
        let _name = args.next();
        let mut words = Words::new(alloc);
        while let Some(word) = args.next() {
            words.push(alloc, word.as_str())?;
        }
        Ok(words)
    }

    /// Appends a word.
    pub fn push(&mut self, alloc: Global, word: &str) -> Result<(), AllocError>
        ensures ok { OnOk result (self.new ≡ self.old ++ word.now ∷ []) }
        ensures err { OnErr result (self.new ≡ self.old) }
    {
        let word = word.to_string(alloc)?;
        self.words.push(word)?;
        Ok(())
    }

    /// The words as texts.
    ///
    /// # Errors
    ///
    /// `AllocError` where there is no memory for the list.
    pub fn texts(&self, alloc: Global) -> Result<Vec<&str>, AllocError>
        ensures { IfOk result (λ texts. map (λ t. t.now) texts.items ≡ self.now) }
    {
        texts_of(alloc, self.words.as_slice())
    }
}

fn texts_of<'a>(alloc: Global, words: &'a [String]) -> Result<Vec<&'a str>, AllocError>
    ensures { IfOk result (λ texts. map (λ t. t.now) texts.items ≡ map string_bytes words.now) }
{
    words.iter().map(|word| word.as_str()).collect(alloc)
}
