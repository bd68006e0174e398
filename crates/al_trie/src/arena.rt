//! The nodes, each named by its number. A node has a path, and the nodes below it the longer paths that begin so. Node 0 has the
//! empty path. A node stands for each path that two elements begin with, and may stand for others.
ghost use Rattle.std.specs.Prelude.{◌≡◌, ℕ, ◌+◌, ◌<◌, ◌≤◌, length, IfOk, IfSome, OnOk, OnErr, MatchOption, IsTrue, ◌↔◌};
ghost use Rattle.al_trie.specs.Root.{through, Empty};
ghost use Rattle.al_trie.specs.Slots.{full, HoldsAt};
ghost use Rattle.al_trie.specs.Arena.{IsArena, IsLast, SameLive, IsSpare, stale};

use crate::kids::{Kid, Link, link_at};
use crate::slots::{Element, Slot, SlotId};
use al_base::Hash;
use std::alloc::{AllocError, Global};

/// The number of a node.
#[derive(Clone, Copy, Debug, PartialEq, Eq)]
pub struct NodeId(pub u32);

/// What goes through a path: no element, the one at a place, or more, with the digest of the path's node.
#[derive(Clone, Copy, Debug)]
pub enum Summary {
    Nothing,
    One(SlotId),
    Many(Hash),
}

/// A node: its path is the first `depth` bytes of `path`. A summary that is not there is stale. A node that is not live is not in
/// use, and `next` is another such one.
#[derive(Drop)]
pub struct Node {
    pub path: Element,
    pub depth: usize,
    pub summary: Option<Summary>,
    pub live: bool,
    pub next: Option<NodeId>,
    pub kids: Vec<Kid>,
}

/// A node's number and the length of its path.
#[derive(Clone, Copy, Debug)]
pub struct Place {
    pub id: NodeId,
    pub depth: usize,
}

// An element stands at a place.
fn is_at(slots: &[Slot], slot: SlotId, element: &Element) -> bool
    requires { slot.0 < length slots.now }
    ensures { IsTrue result ↔ HoldsAt slots.now slot.0 element.now }
{
    match slots[slot.0 as usize] {
        Slot::Full(x) => x == *element,
        Slot::Free(_) => false,
    }
}

/// The place of an element, where it is there.
pub fn slot_of(nodes: &[Node], slots: &[Slot], element: &Element) -> Option<SlotId>
    requires arena { IsArena slots.now nodes.now }
    ensures { MatchOption result (through (full slots.now) element.now ≡ Empty) (λ s. HoldsAt slots.now s.0 element.now) }
{
    if nodes.is_empty() {
        return None;
    }
    let mut id = NodeId(0);
    for depth in 0..36 {
        let node = &nodes[id.0 as usize];
        match link_at(node.kids.as_slice(), element[depth]) {
            None => return None,
            Some(Link::Inner(next)) => id = next,
            Some(Link::Leaf(slot)) => {
                return if is_at(slots, slot, element) {
                    Some(slot)
                } else {
                    None
                };
            }
        }
    }
    None
}

/// Makes the summaries on an element's path stale, and gives the last node on it.
pub fn mark(nodes: &mut [Node], slots: &[Slot], element: &Element) -> Place
    requires arena { IsArena slots.now nodes.old }
    requires some { 0 < length nodes.old }
    ensures arena { IsArena slots.now nodes.new }
    ensures last { IsLast nodes.new element.now result.id.0 result.depth }
    ensures cost { stale nodes.new ≤ stale nodes.old + (result.depth + 1) }
{
    let _slots = slots;
    let mut id = NodeId(0);
    let mut depth = 0;
    'down: loop {
        let node = &mut nodes[id.0 as usize];
        node.summary = None;
        match link_at(node.kids.as_slice(), element[depth]) {
            Some(Link::Inner(next)) => {
                id = next;
                depth += 1;
            }
            _ => return Place { id, depth },
        }
    }
}

/// The node of the empty path, where there is no node yet.
pub fn push_top(nodes: &mut Vec<Node>, slots: &[Slot], alloc: Global) -> Result<(), AllocError>
    requires arena { IsArena slots.now nodes.old.items }
    requires none { length nodes.old.items ≡ 0 }
    ensures arena { IsArena slots.now nodes.new.items }
    ensures ok { OnOk result (0 < length nodes.new.items) }
    ensures cost { stale nodes.new.items ≤ 1 }
    ensures err { OnErr result (stale nodes.new.items ≡ 0) }
{
    let _slots = slots;
    nodes.push(Node {
        path: [0; 36],
        depth: 0,
        summary: None,
        live: true,
        next: None,
        kids: Vec::new(alloc),
    })?;
    Ok(())
}

// The node that follows one that is not in use in the list of those.
fn freed(nodes: &[Node], id: NodeId) -> Option<Option<NodeId>>
    ensures { IfSome result (λ _. IsSpare nodes.now id.0) }
{
    if (id.0 as usize) < nodes.len() {
        let node = &nodes[id.0 as usize];
        if node.live { None } else { Some(node.next) }
    } else {
        None
    }
}

/// A node that is not in use: one that was, or a new one.
pub fn spare(
    nodes: &mut Vec<Node>,
    free: &mut Option<NodeId>,
    alloc: Global,
) -> Result<NodeId, AllocError>
    ensures live { SameLive nodes.old.items nodes.new.items }
    ensures more { length nodes.old.items ≤ length nodes.new.items }
    ensures cost { stale nodes.new.items ≡ stale nodes.old.items }
    ensures spare { IfOk result (λ id. IsSpare nodes.new.items id.0) }
    ensures err { OnErr result (nodes.new.items ≡ nodes.old.items) }
{
    if let Some(first) = *free {
        let id = first.0;
        if let Some(next) = freed(nodes.as_slice(), NodeId(id)) {
            *free = next;
            return Ok(NodeId(id));
        }
    }
    push_spare(nodes, alloc)
}

// A new node at the end that is not in use.
fn push_spare(nodes: &mut Vec<Node>, alloc: Global) -> Result<NodeId, AllocError>
    ensures live { SameLive nodes.old.items nodes.new.items }
    ensures more { length nodes.old.items ≤ length nodes.new.items }
    ensures cost { stale nodes.new.items ≡ stale nodes.old.items }
    ensures spare { IfOk result (λ id. IsSpare nodes.new.items id.0) }
    ensures err { OnErr result (nodes.new.items ≡ nodes.old.items) }
{
    let Ok(id) = u32::try_from(nodes.len()) else {
        return Err(AllocError);
    };
    nodes.push(Node {
        path: [0; 36],
        depth: 0,
        summary: None,
        live: false,
        next: None,
        kids: Vec::new(alloc),
    })?;
    Ok(NodeId(id))
}
