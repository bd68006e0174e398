//! Creators in memory, under the numbers of what they created.
ghost use Rattle.std.specs.Prelude.{◌≡◌, ℕ, [], All, OnOk};
ghost use Rattle.std.specs.FinMap.{get, from_entries};
ghost use Rattle.std.specs.Ordering.{nat_cmp};
ghost use Rattle.al_rows.specs.Finite.{overlaid};
ghost use Rattle.al_keeper.specs.Rooms.{live_at};
ghost use Rattle.al_keeper.specs.Slots.{HasCreator, creators_in};

use crate::room::{make_rooms, put_all, sweep};
use al_base::{Address, CreatorChange};
use std::alloc::{AllocError, Global};
use std::collections::BTreeMap;

/// Creators in memory. An entry may stand empty: that is room, and no creator.
#[derive(Drop)]
pub(crate) struct CreatorSlots {
    slots: BTreeMap<u64, Option<Address>>,
}

impl CreatorSlots {
    /// No creator.
    pub(crate) fn new(alloc: Global) -> CreatorSlots
        ensures { creators_in result.slots ≡ from_entries [] }
    {
        CreatorSlots {
            slots: BTreeMap::new(alloc),
        }
    }

    /// The creator of an asset or an application.
    pub(crate) fn creator(&self, id: u64) -> Option<Address>
        ensures { result ≡ get (creators_in self.now.slots) id }
    {
        let _count = self.slots.len();
        at(&self.slots, id)
    }

    /// Makes room for changes. No creator changes.
    pub(crate) fn make_rooms(
        &mut self,
        changes: &Vec<(u64, Option<Address>)>,
    ) -> Result<(), AllocError>
        ensures same { creators_in self.new.slots ≡ creators_in self.old.slots }
        ensures room { OnOk result (All (λ c. HasCreator self.new.slots c.0) changes.now.items) }
    {
        let _before = self.slots.len();
        let made = make_rooms(&mut self.slots, changes.as_slice());
        let _after = self.slots.len();
        made
    }

    /// Puts changes for which there is room. It takes no memory.
    pub(crate) fn put_all(&mut self, changes: Vec<(u64, Option<Address>)>)
        requires { All (λ c. HasCreator self.old.slots c.0) changes.items }
        ensures { creators_in self.new.slots ≡ overlaid changes.items (creators_in self.old.slots) }
    {
        let _before = self.slots.len();
        put_all(&mut self.slots, changes);
        let _after = self.slots.len();
    }

    /// Takes back room that changes left empty. No creator changes.
    pub(crate) fn sweep(&mut self, changes: &[CreatorChange])
        ensures { creators_in self.new.slots ≡ creators_in self.old.slots }
    {
        let _before = self.slots.len();
        sweep_creators(&mut self.slots, changes);
        let _after = self.slots.len();
    }
}

// Removes empty entries under the numbers of changes. Nothing changes under any number.
fn sweep_creators(slots: &mut BTreeMap<u64, Option<Address>>, changes: &[CreatorChange])
    ensures { (q : ℕ) → live_at nat_cmp slots.new.entries q ≡ live_at nat_cmp slots.old.entries q }
{
    for change in changes {
        sweep(slots, &change.id);
    }
}

// What is held under a number.
fn at(slots: &BTreeMap<u64, Option<Address>>, id: u64) -> Option<Address>
    ensures { result ≡ live_at nat_cmp slots.now.entries id }
{
    match slots.get(&id) {
        Some(slot) => *slot,
        None => None,
    }
}
