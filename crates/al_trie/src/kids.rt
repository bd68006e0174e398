//! The children of a node, in rising order of their bytes.
ghost use Rattle.std.specs.Prelude.{◌≡◌, ◌==◌, ℕ, ◌<◌, ◌≤◌, cond, OnOk, OnErr, IsSome, Some, None};
ghost use Rattle.al_trie.specs.Kids.{find_kid, Rising, before};

use crate::arena::NodeId;
use crate::slots::SlotId;
use std::alloc::AllocError;

/// Where a child leads: to the place of the one element that goes through it, or to a node.
#[derive(Clone, Copy, Debug, PartialEq, Eq)]
pub enum Link {
    Leaf(SlotId),
    Inner(NodeId),
}

/// A child, by the next byte of the elements that go through it.
#[derive(Clone, Copy, Debug)]
pub struct Kid {
    pub byte: u8,
    pub to: Link,
}

/// How many children stand before a byte.
pub fn place_of(kids: &[Kid], byte: u8) -> usize
    ensures { result ≡ before byte kids.now }
{
    for (k, kid) in kids.iter().enumerate() {
        if kid.byte >= byte {
            return k;
        }
    }
    kids.len()
}

/// The child at a byte.
pub fn link_at(kids: &[Kid], byte: u8) -> Option<Link>
    requires { Rising 0 kids.now }
    ensures { result ≡ find_kid byte kids.now }
{
    let at = place_of(kids, byte);
    if at < kids.len() {
        let kid = kids[at];
        if kid.byte == byte {
            return Some(kid.to);
        }
    }
    None
}

/// Puts a child where there is none at its byte.
pub fn put_kid(kids: &mut Vec<Kid>, byte: u8, to: Link) -> Result<(), AllocError>
    requires rising { Rising 0 kids.old.items }
    requires none { find_kid byte kids.old.items ≡ None }
    ensures rising { Rising 0 kids.new.items }
    ensures ok { OnOk result ((c : ℕ) → find_kid c kids.new.items ≡ cond (byte == c) (Some to) (find_kid c kids.old.items)) }
    ensures err { OnErr result (kids.new.items ≡ kids.old.items) }
{
    let at = place_of(kids, byte);
    kids.insert(at, Kid { byte, to })?;
    Ok(())
}

/// Lets the child at a byte lead elsewhere.
pub fn turn_kid(kids: &mut Vec<Kid>, byte: u8, to: Link)
    requires rising { Rising 0 kids.old.items }
    requires some { IsSome (find_kid byte kids.old.items) }
    ensures rising { Rising 0 kids.new.items }
    ensures find { (c : ℕ) → find_kid c kids.new.items ≡ cond (byte == c) (Some to) (find_kid c kids.old.items) }
{
    let at = place_of(kids, byte);
    kids[at] = Kid { byte, to };
}

/// Takes the child at a byte away.
pub fn drop_kid(kids: &mut Vec<Kid>, byte: u8)
    requires rising { Rising 0 kids.old.items }
    requires some { IsSome (find_kid byte kids.old.items) }
    ensures rising { Rising 0 kids.new.items }
    ensures find { (c : ℕ) → find_kid c kids.new.items ≡ cond (byte == c) None (find_kid c kids.old.items) }
{
    let at = place_of(kids, byte);
    let _kid = kids.remove(at);
}
