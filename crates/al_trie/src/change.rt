//! Adding and removing an element.
ghost use Rattle.std.specs.Prelude.{◌≡◌, ◌≢◌, ◌+◌, ◌<◌, ◌≤◌, length, slice_index, OnOk, OnErr, IfOk};
ghost use Rattle.al_trie.specs.Root.{through, Empty};
ghost use Rattle.al_trie.specs.Slots.{full, Inserted, HoldsAt};
ghost use Rattle.al_trie.specs.Tries.{AreDifferent};
ghost use Rattle.al_trie.specs.Arena.{IsArena, IsLast, IsGap, IsLeafAt, stale};

use crate::arena::{Node, NodeId, Place, mark, push_top, spare};
use crate::kids::{Kid, Link, drop_kid, link_at, put_kid, turn_kid};
use crate::pruning::prune;
use crate::slots::{Element, Slot, SlotId, element_at, release, store};
use std::alloc::{AllocError, Global};

/// Puts a node on an element's path where another's leaf is in the way: its only child is that leaf.
pub fn split(
    nodes: &mut Vec<Node>,
    free: &mut Option<NodeId>,
    alloc: Global,
    slots: &[Slot],
    place: Place,
    element: &Element,
    slot: SlotId,
    x: &Element,
) -> Result<NodeId, AllocError>
    requires arena { IsArena slots.now nodes.old.items }
    requires last { IsLast nodes.old.items element.now place.id.0 place.depth }
    requires leaf { IsLeafAt slots.now nodes.old.items place.id.0 (slice_index element.now place.depth) slot x.now }
    requires deep { place.depth + 1 < 36 }
    ensures arena { IsArena slots.now nodes.new.items }
    ensures last { IfOk result (λ id. IsLast nodes.new.items element.now id.0 (place.depth + 1)) }
    ensures cost { stale nodes.new.items ≤ stale nodes.old.items + 1 }
    ensures err { OnErr result (stale nodes.new.items ≡ stale nodes.old.items) }
{
    let _slots = slots;
    let depth = place.depth + 1;
    let mut kids = Vec::new(alloc);
    kids.push(Kid {
        byte: x[depth],
        to: Link::Leaf(slot),
    })?;
    let id = spare(nodes, free, alloc)?;
    nodes[id.0 as usize] = Node {
        path: *x,
        depth,
        summary: None,
        live: true,
        next: None,
        kids,
    };
    let above = &mut nodes[place.id.0 as usize];
    turn_kid(&mut above.kids, element[place.depth], Link::Inner(id));
    Ok(id)
}

/// Puts nodes below a place until no leaf is in the way of an element.
pub fn clear_way(
    nodes: &mut Vec<Node>,
    free: &mut Option<NodeId>,
    alloc: Global,
    slots: &[Slot],
    from: Place,
    element: &Element,
) -> Result<Place, AllocError>
    requires arena { IsArena slots.now nodes.old.items }
    requires last { IsLast nodes.old.items element.now from.id.0 from.depth }
    requires absent { through (full slots.now) element.now ≡ Empty }
    ensures arena { IsArena slots.now nodes.new.items }
    ensures last { IfOk result (λ place. IsLast nodes.new.items element.now place.id.0 place.depth) }
    ensures gap { IfOk result (λ place. IsGap nodes.new.items element.now place.id.0 place.depth) }
    ensures cost { stale nodes.new.items + (from.depth + 1) ≤ stale nodes.old.items + 36 }
{
    let mut place = from;
    'down: loop {
        let node = &nodes[place.id.0 as usize];
        match link_at(node.kids.as_slice(), element[place.depth]) {
            Some(Link::Leaf(slot)) => {
                let Some(x) = element_at(slots, slot) else {
                    return Err(AllocError);
                };
                let id = split(nodes, free, alloc, slots, place, element, slot, &x)?;
                place = Place {
                    id,
                    depth: place.depth + 1,
                };
            }
            Some(Link::Inner(below)) => {
                let _below = below;
                return Ok(place);
            }
            None => return Ok(place),
        }
    }
}

/// Puts an element below a node that has no child at its byte.
pub fn attach(
    nodes: &mut [Node],
    slots: &mut Vec<Slot>,
    free: &mut Option<SlotId>,
    place: Place,
    element: &Element,
) -> Result<(), AllocError>
    requires arena { IsArena slots.old.items nodes.old }
    requires last { IsLast nodes.old element.now place.id.0 place.depth }
    requires gap { IsGap nodes.old element.now place.id.0 place.depth }
    requires absent { through (full slots.old.items) element.now ≡ Empty }
    ensures arena { IsArena slots.new.items nodes.new }
    ensures ok { OnOk result (Inserted element.now (full slots.old.items) (full slots.new.items)) }
    ensures err { OnErr result (full slots.new.items ≡ full slots.old.items) }
    ensures cost { stale nodes.new ≡ stale nodes.old }
{
    let slot = store(slots, free, element)?;
    let node = &mut nodes[place.id.0 as usize];
    if put_kid(&mut node.kids, element[place.depth], Link::Leaf(slot)).is_err() {
        release(slots, free, slot);
        return Err(AllocError);
    }
    Ok(())
}

/// Takes the leaf of an element away.
pub fn detach(
    nodes: &mut [Node],
    slots: &mut Vec<Slot>,
    free: &mut Option<SlotId>,
    place: Place,
    slot: SlotId,
    element: &Element,
)
    requires arena { IsArena slots.old.items nodes.old }
    requires last { IsLast nodes.old element.now place.id.0 place.depth }
    requires leaf { IsLeafAt slots.old.items nodes.old place.id.0 (slice_index element.now place.depth) slot element.now }
    requires different { AreDifferent (full slots.old.items) }
    ensures arena { IsArena slots.new.items nodes.new }
    ensures gone { Inserted element.now (full slots.new.items) (full slots.old.items) }
    ensures cost { stale nodes.new ≡ stale nodes.old }
{
    let node = &mut nodes[place.id.0 as usize];
    drop_kid(&mut node.kids, element[place.depth]);
    release(slots, free, slot);
}

/// Puts in an element that is not there.
pub fn put(
    nodes: &mut Vec<Node>,
    free_node: &mut Option<NodeId>,
    slots: &mut Vec<Slot>,
    free_slot: &mut Option<SlotId>,
    alloc: Global,
    element: &Element,
) -> Result<(), AllocError>
    requires arena { IsArena slots.old.items nodes.old.items }
    requires absent { through (full slots.old.items) element.now ≡ Empty }
    ensures arena { IsArena slots.new.items nodes.new.items }
    ensures ok { OnOk result (Inserted element.now (full slots.old.items) (full slots.new.items)) }
    ensures err { OnErr result (full slots.new.items ≡ full slots.old.items) }
    ensures cost { stale nodes.new.items ≤ stale nodes.old.items + 37 }
{
    if nodes.is_empty() {
        push_top(nodes, slots, alloc)?;
    }
    let last = mark(nodes, slots, element);
    let place = clear_way(nodes, free_node, alloc, slots, last, element)?;
    attach(nodes, slots, free_slot, place, element)
}

/// Takes out an element that is there, and the nodes that nothing goes through then.
pub fn take(
    nodes: &mut Vec<Node>,
    free_node: &mut Option<NodeId>,
    slots: &mut Vec<Slot>,
    free_slot: &mut Option<SlotId>,
    slot: SlotId,
    element: &Element,
)
    requires arena { IsArena slots.old.items nodes.old.items }
    requires there { HoldsAt slots.old.items slot.0 element.now }
    requires different { AreDifferent (full slots.old.items) }
    ensures arena { IsArena slots.new.items nodes.new.items }
    ensures gone { Inserted element.now (full slots.new.items) (full slots.old.items) }
    ensures cost { stale nodes.new.items ≤ stale nodes.old.items + 36 }
{
    let place = mark(nodes, slots, element);
    detach(nodes, slots, free_slot, place, slot, element);
    prune(nodes, slots, free_node, element);
}
