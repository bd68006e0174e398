//! An index of the creators of assets and applications.
ghost use Rattle.std.specs.Prelude.{◌≡◌, ℕ, Some, None, if◌then◌else◌, nat_eq, IfOk, OnOk};
ghost use Rattle.std.specs.BTreeMap as tree;
ghost use Rattle.std.specs.BTreeMap.{IsOrdered};
ghost use Rattle.std.specs.FinMap.{from_entries};
ghost use Rattle.std.specs.Option.{option_or};
ghost use Rattle.std.specs.Ordering.{nat_cmp};
ghost use Rattle.al_base.specs.Keys.{key_cmp};
ghost use Rattle.al_rows.specs.Finite.{first_some};
ghost use Rattle.al_rows.specs.Rows.{AreCreators, bare, creator_at};

use crate::{Row, Stored};
use al_base::{Address, Key};
use std::alloc::{AllocError, Global};
use std::collections::BTreeMap;

// Notes the creator of an id, unless one is noted.
fn note(creators: &mut BTreeMap<u64, Address>, id: u64, who: Address) -> Result<(), AllocError>
    ensures { OnOk result ((q : ℕ) → tree.get nat_cmp creators.new q ≡ option_or (tree.get nat_cmp creators.old q) (if nat_eq id q then Some who else None)) }
{
    if creators.contains_key(&id) {
        return Ok(());
    }
    match creators.insert(id, who) {
        Ok(_) => Ok(()),
        Err(_) => Err(AllocError),
    }
}

// Notes the creator that a row shows, unless one of its id is noted.
fn note_row(creators: &mut BTreeMap<u64, Address>, key: &Key, row: &Row) -> Result<(), AllocError>
    ensures { OnOk result ((q : ℕ) → tree.get nat_cmp creators.new q ≡ option_or (tree.get nat_cmp creators.old q) (creator_at q key.now row.now)) }
{
    match key {
        Key::Resource(who, id) => {
            if row.has_params() {
                note(creators, *id, *who)
            } else {
                Ok(())
            }
        }
        Key::Account(_) | Key::Box(_, _) => Ok(()),
    }
}

// The first creator that rows show, by its id.
fn creators_among(
    alloc: Global,
    rows: &BTreeMap<Key, Stored>,
) -> Result<BTreeMap<u64, Address>, AllocError>
    ensures first { IfOk result (λ c. (id : ℕ) → tree.get nat_cmp c id ≡ first_some (λ e. creator_at id e.0 e.1.row) rows.now.entries) }
    ensures ordered { OnOk result (IsOrdered key_cmp rows.now) }
{
    let mut creators = BTreeMap::new(alloc);
    for (key, stored) in rows {
        note_row(&mut creators, key, &stored.row)?;
    }
    Ok(creators)
}

/// An index of the creators of all assets and applications of rows.
pub fn creators_of(
    alloc: Global,
    rows: &BTreeMap<Key, Stored>,
) -> Result<BTreeMap<u64, Address>, AllocError>
    ensures { IfOk result (AreCreators (bare (from_entries rows.now.entries))) }
{
    creators_among(alloc, rows)
}
