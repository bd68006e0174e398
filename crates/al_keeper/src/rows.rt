//! Rows in memory, under their keys.
ghost use Rattle.std.specs.Prelude.{◌≡◌, [], Option, Some, None, All, IfOk, IfSome, OnOk, map, take};
ghost use Rattle.std.specs.Option.{option_copied};
ghost use Rattle.std.specs.FinMap.{get, from_entries};
ghost use Rattle.std.specs.BTreeMap.Range.{entries_between};
ghost use Rattle.std.specs.declared.ops.Bound.TheVariants.{Unbounded};
ghost use Rattle.al_base.specs.Keys.{key_cmp};
ghost use Rattle.al_rows.specs.Finite.{overlaid};
ghost use Rattle.al_keeper.specs.Rooms.{live, live_at};
ghost use Rattle.al_keeper.specs.Slots.{HasRow, rows_in};
ghost use Rattle.al_rows.specs.Above.{AreRows, IsStored, bound_of, keyed_of, rows_above};

use crate::room::{make_rooms, put_all, sweep};
use al_base::Key;
use al_rows::{Keyed, Rows, Stored};
use al_tables::BatchRow;
use sqlite_items::Items;
use std::alloc::{AllocError, Global};
use std::collections::BTreeMap;
use std::marker::Model;
use std::ops::Bound;

/// Rows in memory. An entry may stand empty: that is room, and no row.
#[derive(Drop)]
pub(crate) struct RowSlots {
    slots: BTreeMap<Key, Option<Stored>>,
}

impl Model for RowSlots {
    ghost use Rattle.std.specs.Prelude.{List};
    ghost use Rattle.std.specs.declared.option.Option.{Option};
    ghost use Rattle.al_base.specs.declared.key.Key.{Key};
    ghost use Rattle.al_rows.specs.declared.stored.Stored.{Stored};
    ghost use Rattle.al_keeper.specs.Slots.{AreKept};

    ghost Value = { List (Key × Option Stored) };

    ghost view = { λ r. r.slots.entries };

    ghost invariant = { λ r. AreKept r.slots.entries };
}

impl RowSlots {
    /// No row.
    pub(crate) fn new(alloc: Global) -> RowSlots
        ensures { rows_in result ≡ from_entries [] }
    {
        RowSlots {
            slots: BTreeMap::new(alloc),
        }
    }

    /// A copy of the row under a key.
    pub(crate) fn row(&self, alloc: Global, key: &Key) -> Result<Option<Stored>, AllocError>
        ensures value { IfOk result (λ s. s ≡ get (rows_in self.now) key.now) }
        ensures kept { IfOk result (λ s. IfSome s (IsStored key.now)) }
    {
        let _count = self.slots.len();
        copy_at(alloc, &self.slots, key)
    }

    /// Copies of the first rows above a key, or of all.
    pub(crate) fn after(
        &self,
        alloc: Global,
        after: Option<&Key>,
        max: u32,
    ) -> Result<Rows, AllocError>
        ensures value { IfOk result (λ rows. rows ≡ rows_above (option_copied after.entry) max (rows_in self.now)) }
        ensures rows { IfOk result (AreRows (option_copied after.entry) max) }
    {
        let _count = self.slots.len();
        copies_from(alloc, &self.slots, bound_of(after), max)
    }

    /// Makes room for changes. No row changes.
    pub(crate) fn make_rooms(
        &mut self,
        changes: &Vec<(Key, Option<Stored>)>,
    ) -> Result<(), AllocError>
        ensures same { rows_in self.new ≡ rows_in self.old }
        ensures room { OnOk result (All (λ c. HasRow self.new c.0) changes.now.items) }
    {
        let _before = self.slots.len();
        let made = make_rooms(&mut self.slots, changes.as_slice());
        let _after = self.slots.len();
        made
    }

    /// Puts changes for which there is room. It takes no memory.
    pub(crate) fn put_all(&mut self, changes: Vec<(Key, Option<Stored>)>)
        requires room { All (λ c. HasRow self.old c.0) changes.items }
        requires kept { All (λ c. IfSome c.1 (IsStored c.0)) changes.items }
        ensures { rows_in self.new ≡ overlaid changes.items (rows_in self.old) }
    {
        let _before = self.slots.len();
        put_all(&mut self.slots, changes);
        let _after = self.slots.len();
    }

    /// Takes back room that rows of a batch left empty. No row changes.
    pub(crate) fn sweep(&mut self, rows: &[BatchRow])
        ensures { rows_in self.new ≡ rows_in self.old }
    {
        let _before = self.slots.len();
        sweep_rows(&mut self.slots, rows);
        let _after = self.slots.len();
    }
}

// Removes empty entries under the keys of rows. Nothing changes under any key.
fn sweep_rows(slots: &mut BTreeMap<Key, Option<Stored>>, rows: &[BatchRow])
    ensures { (q : Key) → live_at key_cmp slots.new.entries q ≡ live_at key_cmp slots.old.entries q }
{
    for row in rows {
        sweep(slots, &row.key);
    }
}

// A copy of what is held under a key.
fn copy_at(
    alloc: Global,
    slots: &BTreeMap<Key, Option<Stored>>,
    key: &Key,
) -> Result<Option<Stored>, AllocError>
    ensures { IfOk result (λ s. s ≡ live_at key_cmp slots.now.entries key.now) }
{
    match slots.get(key) {
        Some(Some(stored)) => Ok(Some(stored.copy(alloc)?)),
        Some(None) => Ok(None),
        None => Ok(None),
    }
}

// A row under its key.
fn keyed(alloc: Global, key: &Key, stored: &Stored) -> Result<Keyed, AllocError>
    ensures { IfOk result (λ k. k ≡ keyed_of (key.now, stored.now)) }
{
    Ok(Keyed {
        key: *key,
        stored: stored.copy(alloc)?,
    })
}

// From above a key on, or from the first.
fn bound_of(after: Option<&Key>) -> Bound<Key>
    ensures { result ≡ bound_of (option_copied after.entry) }
{
    match after {
        Some(key) => Bound::Excluded(*key),
        None => Bound::Unbounded,
    }
}

// Copies of the first rows from a bound on.
fn copies_from(
    alloc: Global,
    slots: &BTreeMap<Key, Option<Stored>>,
    from: Bound<Key>,
    max: u32,
) -> Result<Rows, AllocError>
    ensures { IfOk result (λ rows. rows ≡ map keyed_of (take max (live (entries_between key_cmp from Unbounded slots.now.entries)))) }
{
    let mut out = Items::new(alloc);
    for (key, slot) in slots.range((from, Bound::Unbounded)) {
        if max as usize <= out.len() {
            return Ok(out);
        }
        if let Some(stored) = slot {
            out.push(keyed(alloc, key, stored)?)?;
        }
    }
    Ok(out)
}
