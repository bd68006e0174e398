//! Why a trie refuses.
ghost use Rattle.std.specs.Prelude.{◌≡◌};
ghost use Rattle.al_trie.specs.Tries.{number_of};

use thiserror::Error;

/// Why a trie did not take or give up an element.
#[derive(Clone, Copy, Debug, PartialEq, Eq, Error)]
pub enum TrieFault {
    /// The element is there already, or stands twice in the list.
    #[error("the element is there already")]
    AlreadyThere,
    /// The element is not there.
    #[error("the element is not there")]
    NotThere,
    /// There is no memory left.
    #[error("there is no memory left")]
    Memory,
}

impl TrieFault {
    /// The fault's number: 1 already there, 2 not there, 3 no memory.
    pub fn number(self) -> u8
        ensures { result ≡ number_of self }
    {
        match self {
            TrieFault::AlreadyThere => 1,
            TrieFault::NotThere => 2,
            TrieFault::Memory => 3,
        }
    }
}
