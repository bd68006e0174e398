//! Nodes without children are taken out of use.
ghost use Rattle.std.specs.Prelude.{◌≡◌, ◌<◌, ◌≤◌, length, IfSome};
ghost use Rattle.al_trie.specs.Arena.{IsArena, IsBarren, stale};

use crate::arena::{Node, NodeId};
use crate::kids::{Link, drop_kid, link_at};
use crate::slots::{Element, Slot};

/// A node without children, and its parent with the byte that leads to it.
#[derive(Clone, Copy, Debug)]
pub struct Barren {
    pub parent: NodeId,
    pub byte: u8,
    pub id: NodeId,
}

// The first node below the top on an element's path that has no child.
fn find_barren(nodes: &[Node], slots: &[Slot], element: &Element) -> Option<Barren>
    requires arena { IsArena slots.now nodes.now }
    requires some { 0 < length nodes.now }
    ensures { IfSome result (λ b. IsBarren nodes.now b.parent.0 b.byte b.id) }
{
    let _slots = slots;
    let mut id = NodeId(0);
    for depth in 0..36 {
        let byte = element[depth];
        let below = match link_at(nodes[id.0 as usize].kids.as_slice(), byte) {
            None => return None,
            Some(Link::Leaf(_)) => return None,
            Some(Link::Inner(below)) => below,
        };
        if nodes[below.0 as usize].kids.is_empty() {
            return Some(Barren {
                parent: id,
                byte,
                id: below,
            });
        }
        id = below;
    }
    None
}

// Takes a node without children out of use.
fn cut(nodes: &mut [Node], slots: &[Slot], free: &mut Option<NodeId>, at: Barren)
    requires arena { IsArena slots.now nodes.old }
    requires barren { IsBarren nodes.old at.parent.0 at.byte at.id }
    ensures arena { IsArena slots.now nodes.new }
    ensures cost { stale nodes.new ≤ stale nodes.old }
    ensures length { length nodes.new ≡ length nodes.old }
{
    let _slots = slots;
    let parent = &mut nodes[at.parent.0 as usize];
    drop_kid(&mut parent.kids, at.byte);
    let node = &mut nodes[at.id.0 as usize];
    node.live = false;
    node.next = *free;
    *free = Some(at.id);
}

/// Takes the nodes without children on an element's path out of use, the lowest first.
pub fn prune(nodes: &mut [Node], slots: &[Slot], free: &mut Option<NodeId>, element: &Element)
    requires arena { IsArena slots.now nodes.old }
    requires some { 0 < length nodes.old }
    ensures arena { IsArena slots.now nodes.new }
    ensures cost { stale nodes.new ≤ stale nodes.old }
{
    for _ in 0..36 {
        let Some(at) = find_barren(nodes, slots, element) else {
            return;
        };
        cut(nodes, slots, free, at);
    }
}
