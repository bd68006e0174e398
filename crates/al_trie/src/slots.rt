//! The places of the elements. An element keeps its place while it is there, and a place that is free is used again.
ghost use Rattle.std.specs.Prelude.{◌≡◌, ℕ, List, ◌+◌, ◌<◌, ◌^◌, OnErr, IfOk, IfSome, Some, slice_get, set, length};
ghost use Rattle.al_trie.specs.declared.slots.Slot.TheVariants.{Full, Free};
ghost use Rattle.al_trie.specs.declared.slots.SlotId.{SlotId};
ghost use Rattle.std.specs.declared.option.Option.{Option};
ghost use Rattle.al_trie.specs.Slots.{full, KeepsFull, HoldsAt};

use std::alloc::AllocError;

/// What the trie is of.
pub type Element = [u8; 36];

/// The number of an element's place.
#[derive(Clone, Copy, Debug, PartialEq, Eq)]
pub struct SlotId(pub u32);

/// A place: an element, or the number of another free place.
#[derive(Clone, Copy, Debug)]
pub enum Slot {
    Full(Element),
    Free(Option<SlotId>),
}

// The place that follows a free one in the list of free places.
fn freed(slots: &[Slot], id: SlotId) -> Option<Option<SlotId>>
    ensures { IfSome result (λ next. slice_get slots.now id.0 ≡ Some (Free next)) }
{
    if (id.0 as usize) < slots.len() {
        match slots[id.0 as usize] {
            Slot::Full(_) => None,
            Slot::Free(next) => Some(next),
        }
    } else {
        None
    }
}

/// Puts an element into a free place, or into a new one where none is free.
pub fn store(
    slots: &mut Vec<Slot>,
    free: &mut Option<SlotId>,
    element: &Element,
) -> Result<SlotId, AllocError>
    ensures keeps { KeepsFull slots.old.items slots.new.items }
    ensures there { IfOk result (λ s. HoldsAt slots.new.items s.0 element.now) }
    ensures undone { IfOk result (λ s. (next : Option SlotId) → full (set slots.new.items s.0 (Free next)) ≡ full slots.old.items) }
    ensures err { OnErr result (slots.new.items ≡ slots.old.items) }
{
    if let Some(first) = *free {
        let id = first.0;
        if let Some(next) = freed(slots.as_slice(), SlotId(id)) {
            *free = next;
            slots[id as usize] = Slot::Full(*element);
            return Ok(SlotId(id));
        }
    }
    push_slot(slots, element)
}

// Puts an element into a new place at the end.
fn push_slot(slots: &mut Vec<Slot>, element: &Element) -> Result<SlotId, AllocError>
    ensures keeps { KeepsFull slots.old.items slots.new.items }
    ensures there { IfOk result (λ s. HoldsAt slots.new.items s.0 element.now) }
    ensures undone { IfOk result (λ s. (next : Option SlotId) → full (set slots.new.items s.0 (Free next)) ≡ full slots.old.items) }
    ensures err { OnErr result (slots.new.items ≡ slots.old.items) }
{
    let Ok(id) = u32::try_from(slots.len()) else {
        return Err(AllocError);
    };
    slots.push(Slot::Full(*element))?;
    Ok(SlotId(id))
}

/// Frees an element's place.
pub fn release(slots: &mut Vec<Slot>, free: &mut Option<SlotId>, id: SlotId)
    requires { id.0 < length slots.old.items }
    ensures { slots.new.items ≡ set slots.old.items id.0 (Free free.old) }
{
    slots[id.0 as usize] = Slot::Free(*free);
    *free = Some(id);
}

/// The element at a place.
pub fn element_at(slots: &[Slot], slot: SlotId) -> Option<Element>
    requires { slot.0 < length slots.now }
    ensures holds { IfSome result (λ x. HoldsAt slots.now slot.0 x) }
    ensures full { (x : List ℕ) → HoldsAt slots.now slot.0 x → result ≡ Some x }
{
    match slots[slot.0 as usize] {
        Slot::Full(x) => Some(x),
        Slot::Free(_) => None,
    }
}
