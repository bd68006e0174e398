//! A set of elements of 36 bytes with the root of its hash trie.
#![tactic(auto)]

mod arena;
mod change;
mod fault;
mod kids;
mod pruning;
mod refresh;
mod slots;
mod trie;

pub use fault::TrieFault;
pub use slots::Element;
pub use trie::Trie;
